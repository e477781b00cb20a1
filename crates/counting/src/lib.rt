// How many lines of each kind a log has.
#![tactic(auto)]

mod counting;

pub use counting::{LineCounts, count_line, count_text, no_lines};
