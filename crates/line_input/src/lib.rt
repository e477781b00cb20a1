// The lines of an input of any length, one after the other, in a buffer that the caller lends, each of fewer bytes than the buffer has.
#![tactic(auto)]

mod filling;
mod finding;
mod state;

pub use filling::fill;
pub use finding::{Next, Step, next_line};
pub use state::{Input, begun};
