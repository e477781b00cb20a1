// The cases, one after the other.
use crate::calls::{bill_counts, bill_lines, one_line, read_digits};
use billing::LineCounts;
use replay::{Case, Text, answer_all};

pub fn run(rt: &impl Print, input: &[u8]) {
    let mut bytes = [0; 524288];
    answer_all(rt, input, &mut [0; 65536], |case, text| {
        answer(case, &mut bytes, text)
    });
}

fn answer(case: Case, bytes: &mut [u8], text: &mut Text) {
    match case.letter() {
        b'b' => bill_counts(counts_of(case), case.number(5), text),
        b't' => bill_lines(case.hex(2, bytes), case.number(1), text),
        b'm' => one_line(counts_of(case), case.hex(5, bytes), text),
        b'd' => read_digits(case.hex(1, bytes), text),
        _ => text.word(b"unknown"),
    }
}

fn counts_of(case: Case) -> LineCounts {
    LineCounts {
        full: case.number(1),
        masked: case.number(2),
        header: case.number(3),
        unread: case.number(4),
    }
}
