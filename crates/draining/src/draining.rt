// A take moves all that stays, so that what all of them let go goes at once.
ghost use Rattle.std.specs.Prelude.{◌≡◌};
ghost use Rattle.draining.specs.Draining.{drained_of, drain_call};
ghost use Rattle.base.specs.Refusal.{outcome_of};

use base::Refusal;
use cutting::{Moved, decide};
use held::let_go;
use scanner::{Scanner, Taken, advance, check};

// How many held bytes these takes drop, and how many go in spans.
#[tactic(auto, using(crate::proofs::LawsDraining::cuts))]
pub fn decide_all(held: &[u8], limit: usize) -> Moved
    ensures { result ≡ drained_of limit held.now }
{
    let mut dropped = 0;
    let mut handed = 0;
    // a `loop`: where a turn begins shows only behind the one before
    loop {
        let past = dropped + handed;
        let cut = decide(&held[past..], limit);
        dropped += cut.dropped;
        handed += cut.handed;
        if !cut.span {
            return Moved {
                pushed: 0,
                handed,
                dropped,
            };
        }
    }
}

// All of the takes, or none where one would be refused.
#[tactic(auto, using(scanner::proofs::LawsScanner::held_known, crate::proofs::LawsDraining::goes_held))]
fn drain_lent(scanner: &mut Scanner, store: &mut [u8]) -> Result<bool, Refusal>
    ensures result_value { outcome_of result ≡ (drain_call scanner.old store.old).answer }
    ensures scanner_after { scanner.new ≡ (drain_call scanner.old store.old).scanner }
    ensures store_after { store.new ≡ (drain_call scanner.old store.old).store }
{
    check(*scanner, store)?;
    let count = scanner.count;
    let moved = decide_all(&store[..count], scanner.limit);
    let goes = moved.dropped + moved.handed;
    *scanner = advance(*scanner, count - goes, moved)?;
    let_go(store, count, goes);
    Ok(false)
}

// The same, with the state by value.
pub fn drain(mut scanner: Scanner, store: &mut [u8]) -> Taken
    ensures answer_value { outcome_of result.answer ≡ (drain_call scanner store.old).answer }
    ensures scanner_value { result.scanner ≡ (drain_call scanner store.old).scanner }
    ensures store_after { store.new ≡ (drain_call scanner store.old).store }
{
    let answer = drain_lent(&mut scanner, store);
    Taken { answer, scanner }
}
