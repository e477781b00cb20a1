// What every exported call tells of its answer.
#![tactic(auto)]

mod told;

pub use told::{refuse, tell, tell_two};
