// The noise report that a span holds.
#![tactic(auto)]

mod noise_span;

pub use noise_span::noise_in;
