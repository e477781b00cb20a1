// The drain of a scanner whose counts add up.
ghost use Rattle.std.specs.Prelude.{◌≡◌};
ghost use Rattle.draining.specs.Draining.{takes};
ghost use Rattle.tally.specs.Adding.{AddsUp};
ghost use Rattle.base.specs.Refusal.{outcome_of};

use scanner::{Scanner, Taken};

// Counts that add up have room for all that is held, so that every take is done.
#[tactic(auto, using(crate::proofs::LawsAdding::drain_adds, crate::proofs::LawsAdding::drain_takes))]
pub(crate) fn drain(scanner: Scanner, store: &mut [u8]) -> Taken
    requires { AddsUp scanner }
    ensures answer_value { outcome_of result.answer ≡ (takes scanner store.old).answer }
    ensures scanner_value { result.scanner ≡ (takes scanner store.old).scanner }
    ensures store_after { store.new ≡ (takes scanner store.old).store }
    ensures adds_up { AddsUp result.scanner }
{
    draining::drain(scanner, store)
}
