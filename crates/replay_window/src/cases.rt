// The cases, one after the other.
use crate::calls::{decoded, fields, handed, told};
use replay::{Case, Text, answer_all};
use window::{NoiseWindow, open};

// The case that last named a payload so, for each letter, and room for a payload. An empty line has an empty one.
#[derive(Drop)]
struct Payloads<'a> {
    named: [Case<'a>; 26],
    bytes: [u8; 65536],
}

pub fn run(rt: &impl Print, input: &[u8]) {
    let mut payloads = Payloads {
        named: [Case::new(&[]); 26],
        bytes: [0; 65536],
    };
    answer_all(rt, input, &mut replay::room(), |case, text| {
        answer(case, &mut payloads, text)
    });
}

fn answer<'a>(case: Case<'a>, payloads: &mut Payloads<'a>, text: &mut Text) {
    match case.letter() {
        b'p' => {
            keep(case, &mut payloads.named);
            decoded(case.hex(2, &mut payloads.bytes), text);
        }
        b'w' => {
            hand_in(case.field(2), open(case.number(1)), payloads, text);
        }
        b's' => {
            let last = hand_in(case.field(6), window_of(case), payloads, text);
            fields(last, text);
        }
        _ => text.word(b"unknown"),
    }
}

// The place of a letter among the names.
fn place(name: u8) -> Option<usize> {
    match name {
        b'a'..=b'z' => Some((name - b'a') as usize),
        _ => None,
    }
}

fn keep<'a>(case: Case<'a>, named: &mut [Case<'a>]) {
    if let Some(i) = place(case.letter_in(1))
        && let Some(kept) = named.get_mut(i)
    {
        *kept = case;
    }
}

fn window_of(case: Case) -> NoiseWindow {
    NoiseWindow {
        width: case.number(1),
        off: case.number(2),
        anc: case.number(3),
        ambient: case.number(4),
        level: case.number(5),
    }
}

// Tells a window and hands in the payloads that the letters name, up to what is no letter.
fn hand_in(
    letters: &[u8],
    opened: NoiseWindow,
    payloads: &mut Payloads,
    text: &mut Text,
) -> NoiseWindow {
    told(opened, text);
    let mut window = opened;
    for &name in letters {
        let Some(case) = place(name).and_then(|i| payloads.named.get(i)) else {
            break;
        };
        window = handed(window, case.hex(2, &mut payloads.bytes), text);
    }
    window
}
