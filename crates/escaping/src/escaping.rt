// Escaping keeps the markers out of a frame's body.
ghost use Rattle.std.specs.Prelude.{◌≡◌, ◌+◌, ◌-◌, ◌≤◌, ◌<◌, [], ◌∷◌, ◌++◌, length, leb, nat_le};
ghost use Rattle.std.specs.Bool.{OnTrue};
ghost use Rattle.base.specs.Outcome.{pick};
ghost use Rattle.base.specs.Writing.{write_call};
ghost use Rattle.base.specs.Stored.{Stored};
ghost use Rattle.escaping.specs.Escaping.{escaped_byte, escape_of, framed, unescape_call};
ghost use Rattle.base.specs.Refusal.{outcome_of};

use base::{Refusal, wipe};

pub const START: u8 = 0x3E;

pub const END: u8 = 0x3C;

pub const SENTRY: u8 = 0x3D;

// Loops over a block do not leave early, so that they vectorise.
const BLOCK: usize = 32;

// A count of the bytes of such a block fits a byte, so that many are counted at once.
const COUNT_BLOCK: usize = 128;

// Whether a byte is written as SENTRY and an escapee.
#[tactic(auto, unfolding(crate::specs::Escaping::escaped_byte))]
fn is_special(b: u8) -> bool
    ensures form { escaped_byte b ≡ pick result (0x3D ∷ (b - 16) ∷ []) (b ∷ []) }
    ensures high { OnTrue result (0x3C ≤ b) }
{
    matches!(b, END..=START)
}

// How many bytes of a block are to be escaped.
#[tactic(auto, using(crate::proofs::LawsEscaping::escape_none, crate::proofs::LawsEscaping::escape_more))]
fn special_in(block: &[u8]) -> u8
    requires { length block.now ≤ 255 }
    ensures { length (escape_of block.now) ≡ length block.now + result }
{
    let mut n = 0u8;
    for &b in block {
        if is_special(b) {
            n += 1;
        }
    }
    n
}

// How many bytes the escaped form has.
#[tactic(auto, using(crate::proofs::LawsEscaping::escape_none, crate::proofs::LawsEscaping::escape_append, crate::proofs::LawsEscaping::escape_width))]
pub fn escaped_len(src: &[u8]) -> usize
    ensures { result ≡ length (escape_of src.now) }
{
    let mut n = 0;
    for block in src.chunks(COUNT_BLOCK) {
        n += block.len() + usize::from(special_in(block));
    }
    n
}

// Whether the escaped form has at most `room` bytes. It has at most two for a byte, so that with room for those nothing is counted.
#[tactic(auto, using(crate::proofs::LawsEscaping::escape_width))]
pub fn escape_fits(src: &[u8], room: usize) -> bool
    ensures { result ≡ leb (length (escape_of src.now)) room }
{
    src.len() <= room / 2 || escaped_len(src) <= room
}

fn put_escaped(b: u8, out: &mut [u8], at: usize) -> usize
    requires { at + length (escaped_byte b) ≤ length out.old }
    ensures { Stored (escaped_byte b) out.old at out.new result }
{
    if is_special(b) {
        out[at] = SENTRY;
        out[at + 1] = b - 16;
        at + 2
    } else {
        out[at] = b;
        at + 1
    }
}

// What `escape_at` does with a short block: the escaped form byte by byte, stored from `at` on; the place behind it.
fn put_each(src: &[u8], out: &mut [u8], at: usize) -> usize
    requires { at + length (escape_of src.now) ≤ length out.old }
    ensures { Stored (escape_of src.now) out.old at out.new result }
{
    let mut next = at;
    for &b in src {
        next = put_escaped(b, out, next);
    }
    next
}

// The bytes as they are, one by one: a call that copies takes longer than a block this short.
fn put_plain(src: &[u8], out: &mut [u8], at: usize) -> usize
    requires { at + length src.now ≤ length out.old }
    ensures { Stored src.now out.old at out.new result }
{
    for (i, &b) in src.iter().enumerate() {
        out[at + i] = b;
    }
    at + src.len()
}

// A block in which nothing is to be escaped is copied as a whole, unless it is too short to gain by it.
#[tactic(auto, using(crate::proofs::LawsEscaping::no_longer))]
fn put_block(block: &[u8], out: &mut [u8], at: usize) -> usize
    requires block_len_bound { length block.now ≤ 255 }
    requires block_in_bounds { at + length (escape_of block.now) ≤ length out.old }
    ensures { Stored (escape_of block.now) out.old at out.new result }
{
    if block.len() >= 16 && special_in(block) == 0 {
        put_plain(block, out, at)
    } else {
        put_each(block, out, at)
    }
}

// The escaped form, stored from `at` on; the place behind it.
fn escape_at(src: &[u8], out: &mut [u8], at: usize) -> usize
    requires { at + length (escape_of src.now) ≤ length out.old }
    ensures { Stored (escape_of src.now) out.old at out.new result }
{
    let mut next = at;
    for block in src.chunks(BLOCK) {
        next = put_block(block, out, next);
    }
    next
}

pub fn escape(src: &[u8], out: &mut [u8]) -> Result<usize, Refusal>
    ensures result_value { outcome_of result ≡ (write_call (escape_of src.now) out.old).answer }
    ensures out_after { out.new ≡ (write_call (escape_of src.now) out.old).out }
{
    if !escape_fits(src, out.len()) {
        return Err(Refusal::OutputTooShort);
    }
    Ok(escape_at(src, out, 0))
}

// Whether START, the escaped body and END have at most `room` bytes, the body being `head`, the payload and `sum`. No byte becomes more than two, so that with
// room for those nothing is counted.
#[tactic(auto, using(crate::proofs::LawsEscaping::framed_length, crate::proofs::LawsEscaping::escape_width))]
fn framed_fits(head: &[u8; 6], payload: &[u8], sum: u8, room: usize) -> bool
    ensures { result ≡ nat_le (length (framed (head.now ++ payload.now ++ (sum ∷ [])))) room }
{
    if 16 <= room && payload.len() <= (room - 16) / 2 {
        return true;
    }
    let rest = 2 + escaped_len(head) + escaped_len(&[sum]);
    rest <= room && escape_fits(payload, room - rest)
}

// START, the escaped body and END, the body being `head`, the payload and `sum`.
#[inline(always)]
pub fn escape_framed(
    head: &[u8; 6],
    payload: &[u8],
    sum: u8,
    out: &mut [u8],
) -> Result<usize, Refusal>
    ensures result_value { outcome_of result ≡ (write_call (framed (head.now ++ payload.now ++ (sum ∷ []))) out.old).answer }
    ensures out_after { out.new ≡ (write_call (framed (head.now ++ payload.now ++ (sum ∷ []))) out.old).out }
{
    if !framed_fits(head, payload, sum, out.len()) {
        return Err(Refusal::OutputTooShort);
    }
    out[0] = START;
    let a = escape_at(head, out, 1);
    let b = escape_at(payload, out, a);
    let c = escape_at(&[sum], out, b);
    out[c] = END;
    Ok(c + 1)
}

// Undoes `escape`. Raw markers pass as they are.
pub fn unescape(src: &[u8], out: &mut [u8]) -> Result<usize, Refusal>
    ensures result_value { outcome_of result ≡ (unescape_call src.now out.old).answer }
    ensures out_after { out.new ≡ (unescape_call src.now out.old).out }
{
    if out.len() < src.len() {
        return Err(Refusal::NoRoom);
    }
    let mut at = 0;
    // an index: asking an iterator for each byte takes longer
    let mut i = 0;
    while i < src.len() {
        let b = src[i];
        i += 1;
        if b != SENTRY {
            out[at] = b;
            at += 1;
        } else {
            if src.len() <= i {
                wipe(out);
                return Err(Refusal::TrailingSentry);
            }
            let e = src[i];
            i += 1;
            match e {
                0x2C..=0x2E => {
                    out[at] = e + 16;
                    at += 1;
                }
                _ => {
                    wipe(out);
                    return Err(Refusal::BadEscapee(e));
                }
            }
        }
    }
    Ok(at)
}
