// The exported calls, for C and Rust to link.
#![tactic(auto)]

pub mod bills;
pub mod frames;
pub mod logging;
pub mod readings;
pub mod scans;
pub mod stations;
pub mod windows;
