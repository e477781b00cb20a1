// The last noise reports of a session, counted by what they say.
#![tactic(auto)]

mod window;

pub use window::{NoiseCounts, NoiseWindow, counts, open, push};
