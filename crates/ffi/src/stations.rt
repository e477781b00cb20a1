// The listening station.
ghost use Rattle.std.specs.Prelude.{◌≡◌};
ghost use Rattle.acks.specs.Acks.{station_call};
ghost use Rattle.telling.specs.Told.{status_of, numbers_of, told, only};

use answers::answer_told;
use scanner::Scanner;

#[unsafe(no_mangle)]
pub extern "C" fn mdr_acknowledge(
    scanner: &mut Scanner,
    store: &mut [u8],
    work: &mut [u8],
    out: &mut [u8],
    values: &mut [u64],
) -> u8
    ensures value { result ≡ status_of (station_call scanner.old store.old work.old out.old).answer }
    ensures values_after { values.new ≡ told (numbers_of only (station_call scanner.old store.old work.old out.old).answer) values.old }
    ensures scanner_after { scanner.new ≡ (station_call scanner.old store.old work.old out.old).scanner }
    ensures store_after { store.new ≡ (station_call scanner.old store.old work.old out.old).store }
    ensures work_after { work.new ≡ (station_call scanner.old store.old work.old out.old).work }
    ensures out_after { out.new ≡ (station_call scanner.old store.old work.old out.old).out }
{
    let acked = acks::acknowledge(*scanner, store, work, out);
    *scanner = acked.scanner;
    answer_told(acked.answer, values)
}
