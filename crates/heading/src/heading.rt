// Reads a frame as `unpack` does, and leaves its body where it is.
ghost use Rattle.std.specs.Prelude.{◌≡◌};
ghost use Rattle.base.specs.Outcome.{on_accepted};
ghost use Rattle.escaping.specs.Escaping.{unescape_of};
ghost use Rattle.framing.specs.Framing.{header_of, then_checked};
ghost use Rattle.heading.specs.Heading.{header_read};
ghost use Rattle.base.specs.Refusal.{outcome_of};

use crate::pass::Pass;
use base::Refusal;
use framing::{Header, between_markers};

// What stands between the markers.
#[tactic(auto, using(crate::proofs::LawsPass::pass_read, crate::proofs::LawsHeading::turn, crate::proofs::LawsHeading::turned_away_lem, crate::proofs::LawsHeading::turn_end))]
fn read_inner(src: &[u8]) -> Result<Header, Refusal>
    ensures { outcome_of result ≡ on_accepted header_of (then_checked (unescape_of src.now)) }
{
    let mut pass = Pass::begin();
    for &b in src {
        pass.take(b)?;
    }
    pass.end()
}

// A frame's type, sequence and payload length: what `unpack` answers in a work area that is long enough.
#[tactic(auto, using(crate::proofs::LawsHeading::head_unmarked, crate::proofs::LawsHeading::head_inner))]
pub fn read_header(frame: &[u8]) -> Result<Header, Refusal>
    ensures { outcome_of result ≡ header_read frame.now }
{
    read_inner(between_markers(frame)?)
}
