// The bill for a log.
ghost use Rattle.std.specs.Prelude.{◌≡◌};
ghost use Rattle.counting.specs.Counting.{text_counts};
ghost use Rattle.billing.specs.Billing.{bill_of, text_bill};
ghost use Rattle.telling.specs.Told.{status_of, numbers_of, told};
ghost use Rattle.numbers.specs.Numbers.{count_numbers, bill_numbers};

use answers::answer_told;
use billing::LineCounts;

fn counts(full: u64, masked: u64, header: u64, unread: u64) -> LineCounts
    ensures { result ≡ record { full = full; masked = masked; header = header; unread = unread } }
{
    LineCounts {
        full,
        masked,
        header,
        unread,
    }
}

#[unsafe(no_mangle)]
pub extern "C" fn mdr_bill(
    full: u64,
    masked: u64,
    header: u64,
    unread: u64,
    tax: u64,
    values: &mut [u64],
) -> u8
    ensures value { result ≡ status_of (bill_of (record { full = full; masked = masked; header = header; unread = unread }) tax) }
    ensures values_after { values.new ≡ told (numbers_of bill_numbers (bill_of (record { full = full; masked = masked; header = header; unread = unread }) tax)) values.old }
{
    answer_told(
        billing::bill(counts(full, masked, header, unread), tax),
        values,
    )
}

#[unsafe(no_mangle)]
pub extern "C" fn mdr_bill_text(text: &[u8], tax: u64, values: &mut [u64]) -> u8
    ensures value { result ≡ status_of (text_bill text.now tax) }
    ensures values_after { values.new ≡ told (numbers_of bill_numbers (text_bill text.now tax)) values.old }
{
    answer_told(billing::bill_text(text, tax), values)
}

#[unsafe(no_mangle)]
pub extern "C" fn mdr_count_text(text: &[u8], values: &mut [u64]) -> u8
    ensures value { result ≡ status_of (text_counts text.now) }
    ensures values_after { values.new ≡ told (numbers_of count_numbers (text_counts text.now)) values.old }
{
    answer_told(billing::count_text(text), values)
}
