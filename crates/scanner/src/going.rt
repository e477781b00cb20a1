// Bytes go from the front of those held, and are counted.
ghost use Rattle.std.specs.Prelude.{◌≡◌, ◌+◌, ◌≤◌, length, take, drop};
ghost use Rattle.scanner.specs.Scanner.{counted_of, gone};
ghost use Rattle.base.specs.Refusal.{outcome_of};

use crate::scanner::{Scanner, advance};
use base::Refusal;
use cutting::Moved;
use held::let_go;

// So many of the first held bytes are dropped, and so many go in spans; where a count would pass the greatest number, all stay.
pub(crate) fn go(scanner: Scanner, store: &mut [u8], moved: Moved) -> Result<Scanner, Refusal>
    requires { (scanner.count ≤ length store.old) × (moved.dropped + moved.handed ≤ scanner.count) }
    ensures result_value { outcome_of result ≡ counted_of scanner (length (drop (moved.dropped + moved.handed) (take scanner.count store.old))) moved }
    ensures store_after { store.new ≡ (gone {A = Unit {0}} tt scanner (take scanner.count store.old) store.old moved).store }
{
    let goes = moved.dropped + moved.handed;
    let next = advance(scanner, scanner.count - goes, moved)?;
    let_go(store, scanner.count, goes);
    Ok(next)
}
