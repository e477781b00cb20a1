// The cases, one after the other.
use crate::calls::read_in;
use crate::many::{changes, cuts, with_one_more};
use replay::{Case, Text, answer_all, behind_mut, first_mut};

pub fn run(rt: &impl Print, input: &[u8]) {
    let mut line = [0; 147456];
    let mut out = [0; 73728];
    answer_all(rt, input, &mut [0; 65536], |case, text| {
        answer(case, &mut line, &mut out, text)
    });
}

fn answer(case: Case, line: &mut [u8], out: &mut [u8], text: &mut Text) {
    match case.letter() {
        b'l' => read_in(
            copied(case.rest(2), line),
            first_mut(out, case.size(1)),
            text,
        ),
        b'x' => read_in(case.hex(2, line), first_mut(out, case.size(1)), text),
        b'c' => {
            let out = first_mut(out, case.size(2));
            changes(copied(case.rest(3), line), case.size(1), out, text);
        }
        b'i' => {
            let at = case.size(1);
            let out = first_mut(out, case.size(2));
            with_one_more(with_gap(case.rest(3), at, line), at, out, text);
        }
        b'p' => cuts(
            copied(case.rest(2), line),
            first_mut(out, case.size(1)),
            text,
        ),
        _ => text.word(b"unknown"),
    }
}

// Bytes at the front of a buffer, as many as it has room for.
fn copied<'b>(bytes: &[u8], buf: &'b mut [u8]) -> &'b mut [u8] {
    let n = bytes.len().min(buf.len());
    buf[..n].copy_from_slice(&bytes[..n]);
    &mut buf[..n]
}

// The same with one byte more before a place or at the end; none where the place lies beyond.
fn with_gap<'b>(bytes: &[u8], at: usize, buf: &'b mut [u8]) -> &'b mut [u8] {
    if at > bytes.len() {
        return copied(bytes, buf);
    }
    let (front, back) = bytes.split_at(at);
    let gap = copied(front, buf).len();
    let n = copied(back, behind_mut(buf, gap + 1)).len();
    first_mut(buf, gap + 1 + n)
}
