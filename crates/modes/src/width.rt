// The width of the window, which is the one argument.
use decimal::{ArgumentError, number_argument};
use std::env::FillError;
use std::rt::Env;

fn is_given(rt: HostRuntime, i: usize) -> bool {
    match rt.arg(i, &mut []) {
        Err(FillError::NotPresent) => false,
        _ => true,
    }
}

// How many arguments there are, the program's name being the first; 3 stand for more too.
fn arg_count(rt: HostRuntime) -> usize {
    if !is_given(rt, 1) {
        return 1;
    }
    if !is_given(rt, 2) {
        return 2;
    }
    3
}

// The buffer takes any argument that Linux passes. A longer one would come as no bytes, which are no number.
pub fn width_given(rt: HostRuntime) -> Result<u64, ArgumentError> {
    let mut text = [0u8; 131072];
    let n = rt.arg(1, &mut text).unwrap_or(0);
    number_argument(arg_count(rt), &text[..n])
}
