// The listening station: an acknowledgement for each frame among the held bytes.
#![tactic(auto)]

mod acks;

pub use acks::{Acked, acknowledge};
