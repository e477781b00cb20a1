// Several spans may go by one move: a caller that has read them where they stand skips them together.
ghost use Rattle.std.specs.Prelude.{◌≡◌};
ghost use Rattle.scanner.specs.Skipping.{skip_call};
ghost use Rattle.base.specs.Refusal.{outcome_of};

use crate::going::go;
use crate::scanner::{Scanner, check};
use cutting::Moved;
use frame::Refusal;

#[derive(Clone, Copy)]
pub struct Skipped {
    pub answer: Result<(), Refusal>,
    pub scanner: Scanner,
}

impl Scanner {
    // Of the first held bytes so many are dropped, and so many go in spans; no more than are held.
    #[tactic(auto, using(crate::proofs::LawsScanner::held_known))]
    fn let_spans_go(
        &mut self,
        store: &mut [u8],
        dropped: usize,
        handed: usize,
    ) -> Result<(), Refusal>
        ensures result_value { outcome_of result ≡ (skip_call self.old store.old dropped handed).answer }
        ensures self_after { self.new ≡ (skip_call self.old store.old dropped handed).scanner }
        ensures store_after { store.new ≡ (skip_call self.old store.old dropped handed).store }
    {
        check(*self, store)?;
        let dropped = dropped.min(self.count);
        let handed = handed.min(self.count - dropped);
        let moved = Moved {
            pushed: 0,
            handed,
            dropped,
        };
        *self = go(*self, store, moved)?;
        Ok(())
    }
}

// By value: the state comes back beside the answer.
pub fn skip(mut scanner: Scanner, store: &mut [u8], dropped: usize, handed: usize) -> Skipped
    ensures answer_value { outcome_of result.answer ≡ (skip_call scanner store.old dropped handed).answer }
    ensures scanner_value { result.scanner ≡ (skip_call scanner store.old dropped handed).scanner }
    ensures store_after { store.new ≡ (skip_call scanner store.old dropped handed).store }
{
    let answer = scanner.let_spans_go(store, dropped, handed);
    Skipped { answer, scanner }
}
