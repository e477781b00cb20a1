// The calls on one range, by the sums of their answers.
use base::Refusal;
use range::AmbientRange;
use replay::{mix, mix_bytes};

// Levels beyond those of a byte.
const BEYOND: [i32; 9] = [
    -2147483648,
    -2147483647,
    -256,
    -255,
    -1,
    256,
    257,
    2147483646,
    2147483647,
];

// 0 for no, 1 for yes, or the number of the refusal.
pub fn admitted(a: Result<bool, Refusal>) -> u8 {
    match a {
        Ok(yes) => u8::from(yes),
        Err(r) => r.number(),
    }
}

pub fn admits_all(r: AmbientRange) -> u64 {
    let mut sum = 0;
    for level in (0..256).chain(BEYOND) {
        sum = mix(sum, admitted(r.admits(level)));
    }
    sum
}

// All of what a narrowing leaves; 0 for none.
pub fn mixed_range(sum: u64, left: Option<AmbientRange>) -> u64 {
    let Some(r) = left else {
        return mix(sum, 0);
    };
    mix_bytes(sum, &[1 + u8::from(r.voice), r.min, r.max, r.step])
}

const BOUNDS: [u8; 28] = [
    0, 1, 2, 3, 4, 5, 6, 7, 8, 9, 10, 11, 12, 13, 14, 15, 16, 17, 18, 19, 20, 21, 22, 23, 127, 128,
    254, 255,
];

pub fn within_all(r: AmbientRange) -> u64 {
    let mut sum = 0;
    for low in BOUNDS {
        for high in BOUNDS {
            sum = mixed_range(sum, r.within(low, high));
        }
    }
    sum
}
