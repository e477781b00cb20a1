// The MDR wire frame, under one name: data types, checksum, escaping, pack and unpack.
#![tactic(auto)]

pub use base::{DataType, Refusal, block_end, checksum, wipe, wipe_from};
pub use escaping::{END, SENTRY, START, escape, escape_fits, escaped_len, unescape};
pub use framing::{Header, ack, pack, unpack};
pub use from_end::checksum_from_end;
pub use heading::{Pass, read_header};
