// The cases, one after the other.
use crate::calls::{lookup, reading};
use crate::outcomes::outcomes;
use crate::reader::{Reader, Sum};
use crate::strings::texts;
use crate::sums::{lengths, pairs, parts, placed_parts, values};
use lists::Table;
use replay::{Case, Text, answer_all, first, first_mut, set};

// The payload that is kept from line to line, and room for records and for an answer that is not printed.
#[derive(Drop)]
struct Buffers {
    kept: [u8; 8192],
    records: [u8; 1024],
    scratch: [u8; 8192],
}

pub fn run(rt: &impl Print, input: &[u8]) {
    let mut buffers = Buffers {
        kept: [0; 8192],
        records: [0; 1024],
        scratch: [0; 8192],
    };
    answer_all(rt, input, &mut [0; 65536], |case, text| {
        answer(case, &mut buffers, text)
    });
}

fn answer(case: Case, buffers: &mut Buffers, text: &mut Text) {
    let Buffers {
        kept,
        records,
        scratch,
    } = buffers;
    match case.letter() {
        b'k' => text.size(case.hex(1, kept).len()),
        b'x' => {
            set(kept, case.size(1), case.byte(2));
            text.word(b"set");
        }
        b'v' | b'q' | b'l' | b's' | b'd' => text.number(summed(case, kept, records, scratch)),
        b'o' => outcomes(
            case.letter_in(2),
            kept,
            case.size(1),
            records,
            scratch,
            text,
        ),
        b'u' => lookup(text, first(kept, case.size(1)), case.size(2)),
        b't' => text.number(texts(case.size(1), case.byte(2), kept)),
        op => one(op, case, kept, records, text),
    }
}

fn one(op: u8, case: Case, kept: &[u8], records: &mut [u8], text: &mut Text) {
    let m = case.size(2);
    let table = if case.size(3) == 1 {
        Table::One
    } else {
        Table::Two
    };
    if m <= records.len() / 2 {
        reading(
            op,
            table,
            first(kept, case.size(1)),
            first_mut(records, 2 * m),
            text,
        );
    }
}

// A case whose last field is the letter of its readings, by the sum of their answers.
fn summed(case: Case, kept: &mut [u8], records: &mut [u8], scratch: &mut [u8]) -> u64 {
    let last = match case.letter() {
        b'l' | b's' => 2,
        b'q' => 4,
        _ => 3,
    };
    let mut sum = Sum::of(Reader::new(case.letter_in(last), records, scratch));
    let n = case.size(1);
    let place = case.size(2);
    match case.letter() {
        b'v' => values(kept, n, place, &mut sum),
        b'q' => pairs(kept, n, place, case.size(3), &mut sum),
        b'l' => lengths(kept, n, &mut sum),
        b's' => parts(first(kept, n), &mut sum),
        _ => placed_parts(first(kept, n), place, &mut sum),
    }
    sum.total()
}
