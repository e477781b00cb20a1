// Whole frames: pack, unpack and ack.
#![tactic(auto)]

mod framing;

pub use framing::{Header, ack, between_markers, pack, unpack};
