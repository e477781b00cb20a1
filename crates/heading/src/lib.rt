// A frame's type, sequence and payload length, read without a work area.
#![tactic(auto)]

mod heading;
mod pass;

pub use heading::read_header;
pub use pass::Pass;
