// What the noise control does, as a message reports it.
#![tactic(auto)]

mod noise;

pub use noise::{NoiseMode, NoiseReport, decode_noise};
