// The next span's place, as a take would find it.
ghost use Rattle.std.specs.Prelude.{◌≡◌};
ghost use Rattle.finding.specs.Finding.{peek_call};
ghost use Rattle.base.specs.Refusal.{outcome_of};

use base::Refusal;
use cutting::decide;
use held::Spot;
use scanner::{Scanner, advance, check};

// The next span's place, refused where a take would be.
#[tactic(auto, using(scanner::proofs::LawsScanner::held_known, crate::proofs::LawsPeeking::peeks))]
pub fn peek(scanner: Scanner, store: &[u8]) -> Result<Option<Spot>, Refusal>
    ensures { outcome_of result ≡ peek_call scanner store.now }
{
    check(scanner, store)?;
    let cut = decide(&store[..scanner.count], scanner.limit);
    advance(scanner, scanner.count, cut.into())?;
    let spot = Spot {
        at: cut.dropped,
        len: cut.handed,
    };
    Ok(cut.span.then_some(spot))
}
