// What the exported calls do with a window of noise reports, and tell of it.
#![tactic(auto)]

mod window_answers;

pub use window_answers::{Windowed, window_opened, window_pushed, window_told};
