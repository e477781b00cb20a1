// How many characters bytes are, where they are text by RFC 3629.
ghost use Rattle.std.specs.Prelude.{◌≡◌, ◌-◌, ◌<◌, ◌≤◌, true, length, get_or, drop, MatchOption, IfSome};
ghost use Rattle.text.specs.Text.{characters_of};
ghost use Rattle.text.specs.Inner.{onto};

// Whether every byte of a block is below 80. Never left early, so that it vectorises.
#[tactic(auto, using(crate::proofs::LawsText::plain_on, crate::proofs::LawsText::onto_nothing, crate::proofs::LawsText::all_read))]
fn plain(block: &[u8]) -> bool
    ensures { result ≡ true → characters_of block.now ≡ Some (length block.now) }
{
    let mut fine = true;
    for &b in block {
        fine &= b < 0x80;
    }
    fine
}

// What is behind a front of bytes below 80.
#[tactic(auto, using(crate::proofs::LawsText::onto_onto, crate::proofs::LawsText::form_plain, crate::proofs::LawsText::block_on))]
fn behind_plain(bytes: &[u8]) -> &[u8]
    ensures shorter { length result.now ≤ length bytes.now }
    ensures counted { characters_of bytes.now ≡ onto (length bytes.now - length result.now) (characters_of result.now) }
{
    let mut rest = bytes;
    while rest.len() >= 8 && plain(&rest[..8]) {
        rest = &rest[8..];
    }
    while let [0x00..=0x7F, tail @ ..] = rest {
        rest = tail;
    }
    rest
}

// What is behind a form of three or four bytes, if one begins here.
fn longer_form(bytes: &[u8]) -> Option<&[u8]>
    requires there { 0 < length bytes.now }
    requires longer { 0xE0 ≤ get_or bytes.now 0 0 }
    ensures value { MatchOption result (characters_of bytes.now ≡ None) (λ r. characters_of bytes.now ≡ onto 1 (characters_of r.now)) }
    ensures shorter { IfSome result (λ r. length r.now < length bytes.now) }
{
    match bytes {
        [0xE0, 0xA0..=0xBF, 0x80..=0xBF, rest @ ..] => Some(rest),
        [0xED, 0x80..=0x9F, 0x80..=0xBF, rest @ ..] => Some(rest),
        [
            0xE1..=0xEC | 0xEE..=0xEF,
            0x80..=0xBF,
            0x80..=0xBF,
            rest @ ..,
        ] => Some(rest),
        [0xF0, 0x90..=0xBF, 0x80..=0xBF, 0x80..=0xBF, rest @ ..] => Some(rest),
        [
            0xF1..=0xF3,
            0x80..=0xBF,
            0x80..=0xBF,
            0x80..=0xBF,
            rest @ ..,
        ] => Some(rest),
        [0xF4, 0x80..=0x8F, 0x80..=0xBF, 0x80..=0xBF, rest @ ..] => Some(rest),
        _ => None,
    }
}

// Form by form: the first byte says what may follow it.
#[tactic(auto, using(crate::proofs::LawsText::onto_onto, crate::proofs::LawsText::form_plain, crate::proofs::LawsText::form_two, crate::proofs::LawsText::none_shorter, crate::proofs::LawsText::none_left))]
pub fn count_characters(bytes: &[u8]) -> Option<usize>
    ensures { result ≡ characters_of bytes.now }
{
    let mut rest = behind_plain(bytes);
    let mut count = bytes.len() - rest.len();
    while !rest.is_empty() {
        rest = match rest {
            // First what most letters are, so that they take few tests.
            [0x00..=0x7F, rest @ ..] => rest,
            [0xC2..=0xDF, 0x80..=0xBF, rest @ ..] => rest,
            [0xE0..=0xFF, ..] => longer_form(rest)?,
            _ => return None,
        };
        count += 1;
    }
    Some(count)
}
