// What a headset says of its ambient levels.
#![tactic(auto)]

mod capability;

pub use capability::{CapabilityReport, NoiseCapability, decode_noise_capability};
pub use range::AmbientRange;
