// The counted lists: an equalizer's steps and a headset's functions.
#![tactic(auto)]

pub use equalizer::{EqReport, EqShape, decode_equalizer, equalizer_steps, gain};
pub use support::{
    SupportFunction, SupportList, Table, check_support_functions, decode_support_functions,
};
