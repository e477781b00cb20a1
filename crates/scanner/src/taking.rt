// What `next_raw` does to the held bytes.
ghost use Rattle.std.specs.Prelude.{◌≡◌};
ghost use Rattle.scanner.specs.Taking.{take_call};
ghost use Rattle.base.specs.Refusal.{outcome_of};

use crate::going::go;
use crate::scanner::{Scanner, check};
use cutting::decide;
use frame::Refusal;

#[derive(Clone, Copy)]
pub struct Taken {
    pub answer: Result<bool, Refusal>,
    pub scanner: Scanner,
}

impl Scanner {
    // Whether a span went.
    #[tactic(auto, using(crate::proofs::LawsScanner::held_known))]
    fn take_span(&mut self, store: &mut [u8]) -> Result<bool, Refusal>
        ensures result_value { outcome_of result ≡ (take_call self.old store.old).answer }
        ensures self_after { self.new ≡ (take_call self.old store.old).scanner }
        ensures store_after { store.new ≡ (take_call self.old store.old).store }
    {
        check(*self, store)?;
        let cut = decide(&store[..self.count], self.limit);
        *self = go(*self, store, cut.into())?;
        Ok(cut.span)
    }
}

// By value: the state comes back beside the answer.
pub fn take(mut scanner: Scanner, store: &mut [u8]) -> Taken
    ensures answer_value { outcome_of result.answer ≡ (take_call scanner store.old).answer }
    ensures scanner_value { result.scanner ≡ (take_call scanner store.old).scanner }
    ensures store_after { store.new ≡ (take_call scanner store.old).store }
{
    let answer = scanner.take_span(store);
    Taken { answer, scanner }
}
