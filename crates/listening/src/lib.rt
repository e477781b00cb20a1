// The listening station under one name, with what holds of lists of calls that have station calls among them.
#![tactic(auto)]

pub use acks::{Acked, acknowledge};
