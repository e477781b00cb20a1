// The functions that a headset says it supports, as a lent slice of records.
#![tactic(auto)]

mod support;

pub use support::{
    SupportFunction, SupportList, Table, check_support_functions, decode_support_functions,
};
