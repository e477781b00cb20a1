// The devices that a headset is paired with, and the characters of their names.
#![tactic(auto)]

mod paired;

pub use paired::{PairedDevice, decode_paired_devices, paired_device};
