// The bill for a log.
#![tactic(auto)]

mod amounts;
mod billing;

pub use amounts::Bill;
pub use billing::{bill, bill_text};
pub use counting::{LineCounts, count_line, count_text, no_lines};
