// Push and take where the caller keeps the state: thin over the forms by value.
ghost use Rattle.std.specs.Prelude.{◌≡◌};
ghost use Rattle.base.specs.Refusal.{outcome_of};
ghost use Rattle.scanner.specs.Scanner.{push_call};
ghost use Rattle.scanner.specs.Taking.{take_call};

use crate::scanner::{Scanner, push};
use crate::taking::take;
use base::Refusal;

impl Scanner {
    pub fn push(&mut self, store: &mut [u8], piece: &[u8]) -> Result<(), Refusal>
        ensures result_value { outcome_of result ≡ (push_call self.old store.old piece.now).answer }
        ensures self_after { self.new ≡ (push_call self.old store.old piece.now).scanner }
        ensures store_after { store.new ≡ (push_call self.old store.old piece.now).store }
    {
        let pushed = push(*self, store, piece);
        *self = pushed.scanner;
        pushed.answer
    }

    pub fn take(&mut self, store: &mut [u8]) -> Result<bool, Refusal>
        ensures result_value { outcome_of result ≡ (take_call self.old store.old).answer }
        ensures self_after { self.new ≡ (take_call self.old store.old).scanner }
        ensures store_after { store.new ≡ (take_call self.old store.old).store }
    {
        let taken = take(*self, store);
        *self = taken.scanner;
        taken.answer
    }
}
