// What a take does with held bytes, without the scanner's state: which are dropped, and which go in a span.
#![tactic(auto)]

mod deciding;

pub use deciding::{Cut, Moved, decide};
