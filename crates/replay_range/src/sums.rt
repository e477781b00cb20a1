// Every two pairs of some bounds, by the sum of what they leave.
use crate::calls::{admitted, mixed_range};
use crate::narrowing::{Pair, once, twice};
use range::AmbientRange;
use replay::mix;

pub const NEAR: [u8; 8] = [0, 1, 2, 3, 4, 5, 6, 7];

pub const APART: [u8; 8] = [0, 1, 5, 20, 127, 128, 254, 255];

// The answers at the bounds as levels; 0 for no range.
fn levels_left(left: Option<AmbientRange>, bounds: [u8; 8], before: u64) -> u64 {
    let Some(r) = left else {
        return mix(before, 0);
    };
    let mut sum = before;
    for level in bounds {
        sum = mix(sum, admitted(r.admits(i32::from(level))));
    }
    sum
}

// In one order, in the other, and at once; and the levels that the first leaves.
fn two_pairs(r: AmbientRange, by: Pair, then: Pair, bounds: [u8; 8], before: u64) -> u64 {
    let a = mixed_range(before, twice(r, by, then));
    let b = mixed_range(a, twice(r, then, by));
    let c = mixed_range(b, once(r, by, then));
    levels_left(twice(r, by, then), bounds, c)
}

fn second_pairs(r: AmbientRange, by: Pair, bounds: [u8; 8], before: u64) -> u64 {
    let mut sum = before;
    for low in bounds {
        for high in bounds {
            sum = two_pairs(r, by, Pair { low, high }, bounds, sum);
        }
    }
    sum
}

pub fn all_pairs(r: AmbientRange, bounds: [u8; 8]) -> u64 {
    let mut sum = 0;
    for low in bounds {
        for high in bounds {
            sum = second_pairs(r, Pair { low, high }, bounds, sum);
        }
    }
    sum
}
