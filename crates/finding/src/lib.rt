// The first span among a scanner's held bytes, without taking it.
#![tactic(auto)]

mod finding;
mod peeking;

pub use finding::{find, look};
pub use held::Spot;
pub use peeking::peek;
