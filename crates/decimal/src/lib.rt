// Numbers that are written in decimal digits.
#![tactic(auto)]

mod decimal;

pub use decimal::{ArgumentError, number_argument, read_decimal};
