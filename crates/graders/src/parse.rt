// A line of standard input: an example's word, and behind it bytes in hexadecimal.
use crate::say::place;
use crate::shown::Stranger;
use replay::{first, set};
use std::fmt;

#[derive(Clone, Copy, Debug, PartialEq, Eq)]
pub enum Word {
    Start,
    Length,
    Noise,
    Masked,
    Frame,
    Sum,
}

// What is wrong with a line: by a place in it, or by how many digits or bytes it has.
#[derive(Clone, Copy, Debug, PartialEq, Eq)]
pub enum Fault {
    NoBytes,
    NoDigit { at: usize, b: u8 },
    Split(usize),
    Odd(usize),
    TooMany { n: usize, most: usize },
}

impl fmt::Display for Fault {
    fn fmt<W: fmt::Write>(&self, f: &mut fmt::Formatter<W>) -> fmt::Result {
        match *self {
            Fault::NoBytes => f.write_str(" has no bytes behind its word"),
            Fault::NoDigit { at, b } => {
                let b = Stranger(b);
                write!(f, ", character {} is no hexadecimal digit: {b}", place(at))
            }
            Fault::Split(at) => {
                write!(
                    f,
                    ", character {} is a blank behind the first of a byte's two digits",
                    place(at)
                )
            }
            Fault::Odd(n) => {
                write!(
                    f,
                    " has an odd number of digits, {n}: its last byte has only one"
                )
            }
            Fault::TooMany { n, most } => {
                write!(f, " has {n} bytes, and a line takes at most {most}")
            }
        }
    }
}

fn is_blank(b: u8) -> bool {
    matches!(b, b' ' | b'\t')
}

// A line without its end and the blanks before that.
pub fn trimmed(line: &[u8]) -> &[u8] {
    let last = line
        .iter()
        .rposition(|b| !matches!(b, b' ' | b'\t' | b'\r' | b'\n'));
    match last {
        Some(at) => &line[..at + 1],
        None => &[],
    }
}

// Where the first word of a line begins and ends.
fn word_in(line: &[u8]) -> (usize, usize) {
    let begin = line.iter().take_while(|b| is_blank(**b)).count();
    let len = line
        .iter()
        .skip(begin)
        .take_while(|b| !is_blank(**b))
        .count();
    (begin, begin.saturating_add(len))
}

pub fn word_of(line: &[u8]) -> Option<Word> {
    let (begin, end) = word_in(line);
    match line.get(begin..end)? {
        b"start" => Some(Word::Start),
        b"length" => Some(Word::Length),
        b"noise" => Some(Word::Noise),
        b"masked" => Some(Word::Masked),
        b"frame" => Some(Word::Frame),
        b"sum" => Some(Word::Sum),
        _ => None,
    }
}

fn nibble(b: u8) -> Option<u8> {
    match b {
        b'0'..=b'9' => Some(b - b'0'),
        b'A'..=b'F' => Some(b - b'A' + 10),
        b'a'..=b'f' => Some(b - b'a' + 10),
        _ => None,
    }
}

// The bytes behind the word of a trimmed line, at the front of a buffer.
pub fn parsed<'b>(line: &[u8], frame: &'b mut [u8]) -> Result<&'b [u8], Fault> {
    let (_, from) = word_in(line);
    let mut digits = 0;
    let mut high = 0;
    for (at, &b) in line.iter().enumerate() {
        if at < from {
            continue;
        }
        let waits = digits % 2 == 1;
        match nibble(b) {
            Some(low) if waits => {
                set(frame, digits / 2, high << 4 | low);
                digits += 1;
            }
            Some(digit) => {
                high = digit;
                digits += 1;
            }
            None if !is_blank(b) => return Err(Fault::NoDigit { at, b }),
            None if waits => return Err(Fault::Split(at)),
            None => {}
        }
    }
    let n = digits / 2;
    let most = frame.len();
    if digits % 2 == 1 {
        Err(Fault::Odd(digits))
    } else if n == 0 {
        Err(Fault::NoBytes)
    } else if n > most {
        Err(Fault::TooMany { n, most })
    } else {
        Ok(first(frame, n))
    }
}
