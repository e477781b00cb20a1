// The first span among held bytes.
ghost use Rattle.std.specs.Prelude.{◌≡◌, ◌<◌, ◌≤◌, length, MatchOption};
ghost use Rattle.held.specs.Search.{first_of, sight_of};

use frame::{END, START};

// How many bytes are searched at once.
const BLOCK: usize = 64;

// The first `b` of a block, or its length: the least of all places, since a loop that does not leave early vectorises.
#[tactic(auto, using(crate::proofs::LawsFirst::places))]
fn first_in(block: &[u8], b: u8) -> usize
    requires { length block.now ≤ 255 }
    ensures { result ≡ first_of b block.now }
{
    let mut first = block.len() as u8;
    for (i, &x) in block.iter().enumerate() {
        // 255 lies behind every block
        let place = if x == b { i as u8 } else { 255 };
        first = first.min(place);
    }
    usize::from(first)
}

// Where the first `b` stands.
#[tactic(auto, using(crate::proofs::LawsFirst::blocks))]
fn position(bytes: &[u8], b: u8) -> Option<usize>
    ensures { MatchOption result (length bytes.now ≤ first_of b bytes.now) (λ at. (at < length bytes.now) × (at ≡ first_of b bytes.now)) }
{
    // spans mostly follow each other
    if bytes.first() == Some(&b) {
        return Some(0);
    }
    let mut passed = 0;
    for block in bytes.chunks(BLOCK) {
        let place = first_in(block, b);
        if place < block.len() {
            return Some(passed + place);
        }
        passed += block.len();
    }
    None
}

// Where a span stands.
#[derive(Clone, Copy, PartialEq, Eq, Debug)]
pub struct Spot {
    pub at: usize,
    pub len: usize,
}

#[derive(Clone, Copy, PartialEq, Eq, Debug)]
pub enum Sight {
    NoStart,
    NoEnd(usize),
    Both { at: usize, len: usize },
}

// The first span of these bytes, or as much of one as there is.
#[tactic(auto, using(crate::proofs::LawsSearch::sights))]
pub fn seek(held: &[u8]) -> Sight
    ensures { result ≡ sight_of held.now }
{
    let Some(at) = position(held, START) else {
        return Sight::NoStart;
    };
    let Some(between) = position(&held[at + 1..], END) else {
        return Sight::NoEnd(at);
    };
    Sight::Both {
        at,
        len: between + 2,
    }
}
