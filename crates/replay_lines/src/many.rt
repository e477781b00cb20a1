// Many lines that are made of one: those that are not refused by 24, and what the output holds where they are.
use crate::calls::{lend, read_nth};
use replay::{Text, set};

// The line with each byte at a place but the one that was there.
pub fn changes(line: &mut [u8], at: usize, out: &mut [u8], text: &mut Text) {
    lend(out);
    let was = line.get(at).copied().unwrap_or(0);
    for b in 0..=u8::MAX {
        if b != was {
            set(line, at, b);
            read_nth(u64::from(b), line, out, text);
        }
    }
    text.bytes(out);
}

// The line has a gap at the place.
pub fn with_one_more(line: &mut [u8], at: usize, out: &mut [u8], text: &mut Text) {
    lend(out);
    for b in 0..=u8::MAX {
        set(line, at, b);
        read_nth(u64::from(b), line, out, text);
    }
    text.bytes(out);
}

pub fn cuts(line: &[u8], out: &mut [u8], text: &mut Text) {
    lend(out);
    for n in 0..line.len() {
        read_nth(n as u64, &line[..n], out, text);
    }
    for n in 1..=line.len() {
        read_nth(n as u64, &line[n..], out, text);
    }
    text.bytes(out);
}
