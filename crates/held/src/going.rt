// The first bytes go, and what stays moves to the front.
ghost use Rattle.std.specs.Prelude.{◌≡◌, length, take, drop};
ghost use Rattle.held.specs.Going.{let_go};

use frame::{block_end, wipe_from};

// Of the first `count` bytes the first `n` go; how many stay.
#[tactic(auto, using(crate::proofs::LawsGoing::let_go_end))]
pub fn let_go(store: &mut [u8], count: usize, n: usize) -> usize
    ensures value { result ≡ length (drop n (take count store.old)) }
    ensures store_after { store.new ≡ let_go (take count store.old) n store.old }
{
    let to = block_end(0, store.len(), count);
    let from = block_end(0, to, n);
    store.copy_within(from..to, 0);
    wipe_from(store, to - from);
    to - from
}
