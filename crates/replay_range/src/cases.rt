// The cases, one after the other.
use crate::calls::{admits_all, within_all};
use crate::narrowing::{Pair, once, twice};
use crate::sums::{APART, NEAR, all_pairs};
use range::AmbientRange;
use replay::{Case, Text, answer_all};

pub fn run(rt: &impl Print, input: &[u8]) {
    answer_all(rt, input, &mut [0; 65536], answer);
}

fn answer(case: Case, text: &mut Text) {
    let range = range_of(case);
    match case.letter() {
        b'a' => text.number(admits_all(range)),
        b'w' => text.number(within_all(range)),
        b's' => text.number(all_pairs(range, NEAR)),
        b'e' => text.number(all_pairs(range, APART)),
        op @ (b't' | b'r' | b'o' | b'l') => {
            let by = Pair {
                low: case.byte(4),
                high: case.byte(5),
            };
            for low in 0..4 {
                for high in 0..4 {
                    one(op, range, by, Pair { low, high }, text);
                }
            }
        }
        _ => text.word(b"unknown"),
    }
}

fn range_of(case: Case) -> AmbientRange {
    let step = case.byte(3);
    AmbientRange {
        voice: step % 2 == 1,
        min: case.byte(1),
        max: case.byte(2),
        step,
    }
}

fn one(op: u8, range: AmbientRange, by: Pair, then: Pair, text: &mut Text) {
    match op {
        b't' => ends(twice(range, by, then), text),
        b'r' => ends(twice(range, then, by), text),
        b'o' => ends(once(range, by, then), text),
        _ => levels(twice(range, by, then), text),
    }
}

fn digit(n: u8) -> u8 {
    b'0' + n % 10
}

fn ends(left: Option<AmbientRange>, text: &mut Text) {
    match left {
        Some(r) => text.word(&[digit(r.min), digit(r.max)]),
        None => text.word(b"-"),
    }
}

fn level(r: AmbientRange, n: i32) -> u8 {
    match r.admits(n) {
        Ok(false) => b'0',
        Ok(true) => b'1',
        Err(_) => b'!',
    }
}

fn levels(left: Option<AmbientRange>, text: &mut Text) {
    match left {
        Some(r) => text.word(&[level(r, 0), level(r, 1), level(r, 2), level(r, 3)]),
        None => text.word(b"-"),
    }
}
