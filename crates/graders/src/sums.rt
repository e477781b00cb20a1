// The checksum of bytes, and as it grows from the last of them to the first.
use crate::say::{gap, tried};

pub fn sums(rt: &impl Print, given: &[u8]) {
    tried(println!(rt; "sum    {:02X}", frame::checksum(given)));
    tried(print!(rt; "back   "));
    let mut sum = 0;
    for (i, &b) in given.iter().rev().enumerate() {
        sum = frame::checksum_from_end(sum, &[b]);
        tried(print!(rt; "{}{sum:02X}", gap(i)));
    }
    tried(println!(rt));
}
