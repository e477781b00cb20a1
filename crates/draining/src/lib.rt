// Takes one after the other until one finds no span, by one move of the store.
#![tactic(auto)]

mod draining;

pub use draining::{decide_all, drain};
