// The escaped form of a frame's body.
#![tactic(auto)]

mod escaping;

pub use escaping::{END, SENTRY, START, escape, escape_fits, escape_framed, escaped_len, unescape};
