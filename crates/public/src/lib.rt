// How much of a payload goes into the log.
#![tactic(auto)]

mod public;

pub use public::{Reading, classify};
