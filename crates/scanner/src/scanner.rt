// The state, opening and push.
ghost use Rattle.std.specs.Prelude.{◌≡◌, ◌+◌, ◌≤◌, [], length, take, nat_lt};
ghost use Rattle.std.proofs.Math.Seq.{paste};
ghost use Rattle.base.specs.Outcome.{accepted, refused, pick};
ghost use Rattle.base.specs.Refusal.{outcome_of};
ghost use Rattle.scanner.specs.Scanner.{GREATEST, fresh, held_of, counted_of, open_call, push_call, checked_told};

use cutting::Moved;
use frame::{Refusal, wipe};

#[repr(C)]
#[derive(Clone, Copy, PartialEq, Eq, Debug)]
pub struct Scanner {
    pub limit: usize,
    pub count: usize,
    pub pushed: u64,
    pub handed: u64,
    pub dropped: u64,
}

// Nothing held, nothing counted.
pub fn fresh(limit: usize) -> Scanner
    ensures { result ≡ fresh limit }
{
    Scanner {
        limit,
        count: 0,
        pushed: 0,
        handed: 0,
        dropped: 0,
    }
}

// A count with so many more, refused where it would pass the greatest number.
fn counted(count: u64, more: usize) -> Result<u64, Refusal>
    ensures { outcome_of result ≡ pick (nat_lt GREATEST (count + more)) (refused 27 []) (accepted (count + more)) }
{
    count.checked_add(more as u64).ok_or(Refusal::CountFull)
}

// The state after a call: so many bytes held, and what the call did counted.
pub fn advance(scanner: Scanner, count: usize, moved: Moved) -> Result<Scanner, Refusal>
    ensures { outcome_of result ≡ counted_of scanner count moved }
{
    Ok(Scanner {
        limit: scanner.limit,
        count,
        pushed: counted(scanner.pushed, moved.pushed)?,
        handed: counted(scanner.handed, moved.handed)?,
        dropped: counted(scanner.dropped, moved.dropped)?,
    })
}

const LEAST_LIMIT: usize = 9;

const MAX_BUFFER: usize = 65536;

// What every call tries first.
#[tactic(auto, using(crate::proofs::LawsScanner::checks))]
pub fn check(scanner: Scanner, store: &[u8]) -> Result<(), Refusal>
    ensures { checked_told result (take scanner.count store.now) ≡ held_of scanner store.now }
{
    let Scanner { limit, count, .. } = scanner;
    if !(LEAST_LIMIT..=MAX_BUFFER).contains(&limit) {
        return Err(Refusal::LimitOutOfRange);
    }
    if store.len() <= limit {
        return Err(Refusal::StoreTooShort);
    }
    if store.len() < count {
        return Err(Refusal::HeldBeyondStore);
    }
    Ok(())
}

#[derive(Clone, Copy)]
pub struct Opened {
    pub answer: Result<(), Refusal>,
    pub scanner: Scanner,
}

pub fn open(limit: usize, store: &mut [u8]) -> Opened
    ensures answer_value { outcome_of result.answer ≡ (open_call limit store.old).answer }
    ensures scanner_value { result.scanner ≡ (open_call limit store.old).scanner }
    ensures store_after { store.new ≡ (open_call limit store.old).store }
{
    let scanner = fresh(limit);
    let answer = check(scanner, store);
    if answer.is_ok() {
        wipe(store);
    }
    Opened { answer, scanner }
}

#[derive(Clone, Copy)]
pub struct Pushed {
    pub answer: Result<(), Refusal>,
    pub scanner: Scanner,
}

// The piece, stored from `at` on, byte by byte: where two buffers may overlap, as those that C lends, the library's copy is a `memmove`, which the
// exported library does without.
fn copy_at(store: &mut [u8], at: usize, piece: &[u8])
    requires { at + length piece.now ≤ length store.old }
    ensures { store.new ≡ paste store.old at piece.now (length piece.now) }
{
    for (i, &b) in piece.iter().enumerate() {
        store[at + i] = b;
    }
}

impl Scanner {
    // The piece goes behind the held bytes.
    #[tactic(auto, using(crate::proofs::LawsScanner::held_known))]
    fn append(&mut self, store: &mut [u8], piece: &[u8]) -> Result<(), Refusal>
        ensures result_value { outcome_of result ≡ (push_call self.old store.old piece.now).answer }
        ensures self_after { self.new ≡ (push_call self.old store.old piece.now).scanner }
        ensures store_after { store.new ≡ (push_call self.old store.old piece.now).store }
    {
        check(*self, store)?;
        let count = self.count;
        if store.len() - count < piece.len() {
            return Err(Refusal::StoreFull);
        }
        let end = count + piece.len();
        let moved = Moved {
            pushed: piece.len(),
            handed: 0,
            dropped: 0,
        };
        *self = advance(*self, end, moved)?;
        copy_at(store, count, piece);
        Ok(())
    }
}

// By value: the state comes back beside the answer, as it was where that is a refusal.
pub fn push(mut scanner: Scanner, store: &mut [u8], piece: &[u8]) -> Pushed
    ensures answer_value { outcome_of result.answer ≡ (push_call scanner store.old piece.now).answer }
    ensures scanner_value { result.scanner ≡ (push_call scanner store.old piece.now).scanner }
    ensures store_after { store.new ≡ (push_call scanner store.old piece.now).store }
{
    let answer = scanner.append(store, piece);
    Pushed { answer, scanner }
}
