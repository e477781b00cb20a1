// Reads frames in words, beside their lines in the log, and shows the misreadings of docs/GRADERS.md. A line of standard input is a
// word and bytes in hexadecimal, or a heading, which is printed:
//   start F     a start byte inside the frame F is taken for a new frame
//   length F    the length is believed before the checksum
//   noise F     ambient is read where a level is reported
//   masked F    an address of stars is taken for one that is gone
//   frame F     no misreading
//   sum B       the checksum of the bytes B, and after each of them from the last to the first
#![tactic(auto)]

mod counts;
mod levels;
mod misreadings;
mod parse;
mod readings;
mod rules;
mod say;
mod settings;
mod shown;
mod spans;
mod sums;

use misreadings::{length_first, level_first, restarted, stars_first};
use parse::{Word, parsed, trimmed, word_of};
use say::{Bytes, tried};
use shown::Heading;
use spans::each_span;
use std::io::Read;
use sums::sums;

// What is lent to the calls on a line's bytes.
#[derive(Drop)]
pub struct Buffers {
    store: [u8; 12288],
    plan: [u8; 512],
    work: [u8; 12288],
    out: [u8; 49152],
}

// A frame has at most the bytes of the longest span that the log is sure to have; the other sizes are those of `outlog`.
fn main(rt: HostRuntime) {
    let mut input = replay::room();
    let mut frame = [0; 8193];
    let mut buffers = Buffers {
        store: [0; 12288],
        plan: masked_log::house_plan(),
        work: [0; 12288],
        out: [0; 49152],
    };
    let mut stdin = rt.stdin();
    // Reads nothing, to tell a standard input that cannot be read from one that is empty.
    if stdin.read(&mut []).is_err() {
        let _ = rt.eprintln("graders: cannot read standard input");
    }
    let n = replay::read_full(&mut stdin, &mut input);
    let cut = n == input.len() && stdin.read(&mut [0]).unwrap_or(0) > 0;
    each(&rt, &input[..n], cut, &mut frame, &mut buffers);
}

// Standard input may have more than was read; then a line without its end is cut.
fn each(rt: &impl Print, input: &[u8], cut: bool, frame: &mut [u8], buffers: &mut Buffers) {
    let mut nth: usize = 1;
    for line in input.split_inclusive(|&b| b == b'\n') {
        if cut && !line.ends_with(b"\n") {
            break;
        }
        one_line(rt, nth, line, frame, buffers);
        nth = nth.saturating_add(1);
    }
    if cut {
        let room = input.len();
        tried(println!(rt;
            "what is wrong: line {nth} and those behind it are not read, since standard input has more than {room} bytes"
        ));
    }
}

fn one_line(rt: &impl Print, nth: usize, line: &[u8], frame: &mut [u8], buffers: &mut Buffers) {
    let text = trimmed(line);
    let Some(word) = word_of(text) else {
        return tried(println!(rt; "{}", Heading(text)));
    };
    match parsed(text, frame) {
        Ok(given) => example(rt, word, given, buffers),
        Err(fault) => tried(println!(rt; "what is wrong: line {nth}{fault}")),
    }
}

fn example(rt: &impl Print, word: Word, given: &[u8], buffers: &mut Buffers) {
    tried(println!(rt; "bytes  {}", Bytes(given)));
    if word == Word::Sum {
        return sums(rt, given);
    }
    if word != Word::Frame {
        tried(print!(rt; "wrong  "));
    }
    let Buffers { plan, work, .. } = buffers;
    match word {
        Word::Start => restarted(rt, given, plan, work),
        Word::Length => length_first(rt, given, work),
        Word::Noise => level_first(rt, given, plan, work),
        Word::Masked => stars_first(rt, given, plan, work),
        Word::Frame | Word::Sum => {}
    }
    each_span(rt, given, buffers)
}
