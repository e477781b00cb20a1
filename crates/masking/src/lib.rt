// The payload of a list of paired devices as it goes out: without addresses, names and the lengths of names.
#![tactic(auto)]

mod masking;

pub use masking::mask_paired;
