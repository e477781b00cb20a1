// Readings of many payloads, by the sum of their answers.
use crate::reader::Sum;
use crate::strings::EDGES;
use replay::{Text, behind, first, set};

// The first n bytes with each byte at a place.
pub fn values(kept: &mut [u8], n: usize, place: usize, sum: &mut Sum) {
    for b in 0..=255 {
        set(kept, place, b);
        sum.add(first(kept, n));
    }
}

// The same, for each of the ten bytes round the edges at another place.
pub fn pairs(kept: &mut [u8], n: usize, edges: usize, place: usize, sum: &mut Sum) {
    for b in EDGES {
        set(kept, edges, b);
        values(kept, n, place, sum);
    }
}

// Each length below n.
pub fn lengths(kept: &[u8], n: usize, sum: &mut Sum) {
    for len in 0..n {
        sum.add(first(kept, len));
    }
}

// Each part of the bytes.
pub fn parts(bytes: &[u8], sum: &mut Sum) {
    for from in 0..bytes.len() {
        let rest = &bytes[from..];
        for n in 1..=rest.len() {
            sum.add(&rest[..n]);
        }
    }
}

// The payload with each part of a text in the text's place. Its length byte stands at a place of the payload.
pub fn placed_parts(payload: &[u8], place: usize, sum: &mut Sum) {
    let head = first(payload, place);
    let Some((&len, rest)) = behind(payload, place).split_first() else {
        return;
    };
    let text = first(rest, usize::from(len));
    let tail = behind(rest, usize::from(len));
    let mut room = [0; 1024];
    let mut whole = Text::new(&mut room);
    for from in 0..text.len() {
        let rest = &text[from..];
        for n in 1..=rest.len() {
            whole.clear();
            put_placed(&mut whole, head, &rest[..n], tail);
            sum.add(whole.written());
        }
    }
}

// A text with its length byte, between what stands before and behind it.
fn put_placed(whole: &mut Text, head: &[u8], text: &[u8], tail: &[u8]) {
    let len = [(text.len() % 256) as u8];
    for &b in head.iter().chain(&len).chain(text).chain(tail) {
        whole.put(b);
    }
}
