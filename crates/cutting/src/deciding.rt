// Which held bytes go by a take.
ghost use Rattle.std.specs.Prelude.{◌≡◌, true, false};
ghost use Rattle.cutting.specs.Cutting.{cut_of};

use held::{Sight, seek};

// What a call did with bytes: pushed, in spans handed over, dropped or cleared.
#[derive(Clone, Copy, PartialEq, Eq, Debug)]
pub struct Moved {
    pub pushed: usize,
    pub handed: usize,
    pub dropped: usize,
}

// How many held bytes are dropped, how many go in a span, and whether one does. Three fields, as `cut_of` has them: callers add the two numbers up whether a span goes or not.
#[derive(Clone, Copy, PartialEq, Eq, Debug)]
pub struct Cut {
    pub dropped: usize,
    pub handed: usize,
    pub span: bool,
}

impl From<Cut> for Moved {
    ghost from_gives = { λ cut moved. moved ≡ record { pushed = 0; handed = cut.handed; dropped = cut.dropped } };

    fn from(cut: Cut) -> Moved {
        Moved {
            pushed: 0,
            handed: cut.handed,
            dropped: cut.dropped,
        }
    }
}

impl Cut {
    // So many are dropped, and no span goes.
    fn no_span(dropped: usize) -> Cut
        ensures { result ≡ record { dropped = dropped; handed = 0; span = false } }
    {
        Cut {
            dropped,
            handed: 0,
            span: false,
        }
    }
}

#[tactic(auto, using(crate::proofs::LawsCutting::cuts))]
pub fn decide(held: &[u8], limit: usize) -> Cut
    ensures { result ≡ cut_of limit held.now }
{
    match seek(held) {
        Sight::Both { at, len } => Cut {
            dropped: at,
            handed: len,
            span: true,
        },
        Sight::NoEnd(at) if held.len() - at <= limit => Cut::no_span(at),
        Sight::NoStart | Sight::NoEnd(_) => Cut::no_span(held.len()),
    }
}
