// Readings of every length, by the numbers of their refusals.
use crate::reader::Reader;
use replay::{Case, Text, first};

// The number of the refusal that an answer is, or 0. No other answer begins with an r.
fn outcome(answer: &[u8]) -> u64 {
    let words = Case::new(answer);
    if words.letter() == b'r' {
        words.number(1)
    } else {
        0
    }
}

// Each length below n where the outcome becomes another, and that outcome.
pub fn outcomes(
    op: u8,
    kept: &[u8],
    n: usize,
    records: &mut [u8],
    scratch: &mut [u8],
    text: &mut Text,
) {
    let mut reader = Reader::new(op, records, scratch);
    let mut before = None;
    for len in 0..n {
        let found = outcome(reader.answer(first(kept, len)));
        if before != Some(found) {
            text.size(len);
            text.number(found);
            before = Some(found);
        }
    }
}
