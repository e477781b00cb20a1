// Net and total, in cents.
ghost use Rattle.std.specs.Prelude.{◌≡◌};
ghost use Rattle.billing.specs.Billing.{out_of_range, bill_of, text_bill};
ghost use Rattle.base.specs.Refusal.{outcome_of};

use crate::amounts::Bill;
use counting::{LineCounts, count_text};
use frame::Refusal;

// Prices of an `F` and an `S` line; `H` and `R` lines cost nothing.
const FULL_PRICE: u64 = 4;

const MASKED_PRICE: u64 = 2;

const MOST_LINES: u64 = 4294967295;

const MOST_TAX: u64 = 1000;

#[tactic(auto, unfolding(crate::specs::Billing::out_of_range))]
fn out_of_range(counts: LineCounts, tax: u64) -> bool
    ensures { result ≡ out_of_range counts tax }
{
    tax > MOST_TAX
        || counts.full > MOST_LINES
        || counts.masked > MOST_LINES
        || counts.header > MOST_LINES
        || counts.unread > MOST_LINES
}

// The tax is per thousand. The total is rounded to the nearest cent, half a cent upwards.
pub fn bill(counts: LineCounts, tax: u64) -> Result<Bill, Refusal>
    ensures { outcome_of result ≡ bill_of counts tax }
{
    if out_of_range(counts, tax) {
        return Err(Refusal::BillOutOfRange);
    }
    let net = FULL_PRICE * counts.full + MASKED_PRICE * counts.masked;
    let total = (net * (1000 + tax) + 500) / 1000;
    Ok(Bill { net, total })
}

// The bill of a log's text.
#[tactic(auto, unfolding(crate::specs::Billing::text_bill))]
pub fn bill_text(text: &[u8], tax: u64) -> Result<Bill, Refusal>
    ensures { outcome_of result ≡ text_bill text.now tax }
{
    bill(count_text(text)?, tax)
}
