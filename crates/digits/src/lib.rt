// The digits of a log's lines, in capitals.
#![tactic(auto)]

mod digits;

pub use digits::{all_bytes, decimal, pair};
