// A range of ambient levels.
#![tactic(auto)]

mod range;

pub use range::AmbientRange;
