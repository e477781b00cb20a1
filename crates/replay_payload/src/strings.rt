// The characters of strings, over all the strings with one first byte.
use replay::{first, mix, set};
use text::count_characters;

// Bytes round the edges of the ranges of the forms' later bytes: the third and fourth of the strings of four.
pub const EDGES: [u8; 10] = [0x00, 0x7F, 0x80, 0x8F, 0x90, 0x9F, 0xA0, 0xBF, 0xC0, 0xFF];

// A number of characters as one byte, 255 for no text; the strings here have at most four.
fn as_byte(c: Option<usize>) -> u8 {
    match c {
        Some(n) => n.min(254) as u8,
        None => 255,
    }
}

// The sum of the answers for the strings of n bytes that begin with the first `at` kept ones. `every` has all the bytes.
fn strings(kept: &mut [u8], at: usize, n: usize, every: &[u8], before: u64) -> u64 {
    if at >= n {
        return mix(before, as_byte(count_characters(first(kept, n))));
    }
    let tried = if at < 2 || n < 4 { every } else { &EDGES };
    let mut sum = before;
    for &b in tried {
        set(kept, at, b);
        sum = strings(kept, at + 1, n, every, sum);
    }
    sum
}

pub fn texts(n: usize, start: u8, kept: &mut [u8]) -> u64 {
    let every: [u8; 256] = std::array::from_fn(|i| i as u8);
    set(kept, 0, start);
    strings(kept, 1, n, &every, 0)
}
