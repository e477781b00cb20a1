// Bytes made by a rule from a seed, and a sum of bytes, so that long strings need not stand in the lists.

// The sum of a string so far, with one byte more: 65,599 times the sum and the byte and 1, over 4,294,967,291.
pub fn mix(sum: u64, b: u8) -> u64 {
    ((sum % 4294967291) * 65599 + u64::from(b) + 1) % 4294967291
}

// The sum with all the bytes of a string.
pub fn mix_bytes(sum: u64, s: &[u8]) -> u64 {
    s.iter().fold(sum, |sum, &b| mix(sum, b))
}

// The state after one step of the rule.
fn next(state: u64) -> u64 {
    ((state % 2147483648) * 1103515245 + 12345) % 2147483648
}

// The byte of a state: any byte, or one of 3B to 3F where the seed is odd.
fn byte_of(state: u64, seed: u64) -> u8 {
    let high = (state / 65536) % 256;
    if seed % 2 == 1 {
        (59 + high % 5) as u8
    } else {
        high as u8
    }
}

// Fills a buffer by the rule of a seed.
pub fn fill(buf: &mut [u8], seed: u64) {
    let mut state = next(seed);
    for b in buf {
        *b = byte_of(state, seed);
        state = next(state);
    }
}
