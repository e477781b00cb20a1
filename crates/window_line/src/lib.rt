// The line that tells a window's counts.
#![tactic(auto)]

mod window_line;

pub use window_line::write_counts;
