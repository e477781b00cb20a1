// An equalizer's steps, and what they mean.
#![tactic(auto)]

mod equalizer;

pub use equalizer::{EqReport, EqShape, decode_equalizer, equalizer_steps, gain};
