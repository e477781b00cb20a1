// The numbers that the exported calls tell of a reading.
#![tactic(auto)]

mod numbers;

pub use numbers::{battery, byte_or, device, flag, line, noise, ranges, setting_info};
