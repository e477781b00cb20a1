// The scanner. Its state is a struct that the caller keeps and lends.
ghost use Rattle.std.specs.Prelude.{◌≡◌};
ghost use Rattle.held.specs.Search.{sight_of};
ghost use Rattle.scanner.specs.Scanner.{open_call, push_call};
ghost use Rattle.scanner.specs.Skipping.{skip_call};
ghost use Rattle.scanner.specs.Taking.{take_call};
ghost use Rattle.finding.specs.Finding.{find_call};
ghost use Rattle.telling.specs.Told.{status_of, numbers_of, told};
ghost use Rattle.numbers.specs.Numbers.{bit_numbers, spot_numbers, sight_numbers};

use answers::{Told, answer_told, status};
use scanner::Scanner;

#[unsafe(no_mangle)]
pub extern "C" fn mdr_open(scanner: &mut Scanner, limit: usize, store: &mut [u8]) -> u8
    ensures value { result ≡ status_of (open_call limit store.old).answer }
    ensures scanner_after { scanner.new ≡ (open_call limit store.old).scanner }
    ensures store_after { store.new ≡ (open_call limit store.old).store }
{
    let opened = scanner::open(limit, store);
    *scanner = opened.scanner;
    status(opened.answer)
}

#[unsafe(no_mangle)]
pub extern "C" fn mdr_push(scanner: &mut Scanner, store: &mut [u8], piece: &[u8]) -> u8
    ensures value { result ≡ status_of (push_call scanner.old store.old piece.now).answer }
    ensures scanner_after { scanner.new ≡ (push_call scanner.old store.old piece.now).scanner }
    ensures store_after { store.new ≡ (push_call scanner.old store.old piece.now).store }
{
    status(scanner.push(store, piece))
}

#[unsafe(no_mangle)]
pub extern "C" fn mdr_find(scanner: &Scanner, store: &[u8], values: &mut [u64]) -> u8
    ensures value { result ≡ status_of (find_call scanner.now store.now) }
    ensures values_after { values.new ≡ told (numbers_of spot_numbers (find_call scanner.now store.now)) values.old }
{
    answer_told(finding::find(*scanner, store), values)
}

#[unsafe(no_mangle)]
pub extern "C" fn mdr_take(scanner: &mut Scanner, store: &mut [u8], values: &mut [u64]) -> u8
    ensures value { result ≡ status_of (take_call scanner.old store.old).answer }
    ensures values_after { values.new ≡ told (numbers_of bit_numbers (take_call scanner.old store.old).answer) values.old }
    ensures scanner_after { scanner.new ≡ (take_call scanner.old store.old).scanner }
    ensures store_after { store.new ≡ (take_call scanner.old store.old).store }
{
    answer_told(scanner.take(store), values)
}

#[unsafe(no_mangle)]
pub extern "C" fn mdr_seek(bytes: &[u8], values: &mut [u64]) -> u8
    ensures value { result ≡ 0 }
    ensures values_after { values.new ≡ told (sight_numbers (sight_of bytes.now)) values.old }
{
    scanner::seek(bytes).tell(values);
    0
}

#[unsafe(no_mangle)]
pub extern "C" fn mdr_skip(
    scanner: &mut Scanner,
    store: &mut [u8],
    dropped: usize,
    handed: usize,
) -> u8
    ensures value { result ≡ status_of (skip_call scanner.old store.old dropped handed).answer }
    ensures scanner_after { scanner.new ≡ (skip_call scanner.old store.old dropped handed).scanner }
    ensures store_after { store.new ≡ (skip_call scanner.old store.old dropped handed).store }
{
    let skipped = scanner::skip(*scanner, store, dropped, handed);
    *scanner = skipped.scanner;
    status(skipped.answer)
}
