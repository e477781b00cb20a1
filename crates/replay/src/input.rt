// Reading the cases and their fields, and the part of a buffer that a field asks for.
ghost use Rattle.std.specs.Prelude.{◌≡◌, ◌≤◌, length};

use crate::printing::Text;
use std::io::Read;

// Room for all the cases. A proof about an array of this length runs out of stack, so callers know only its length.
pub fn room() -> [u8; 1048576]
    ensures { 1048576 ≡ length result }
{
    [0; 1048576]
}

// Reads until the buffer is full, the input ends or a read fails; the answer is how many bytes were put at its front.
pub fn read_full<R: Read>(from: &mut R, buf: &mut [u8]) -> usize
    ensures { result ≤ length buf.new }
{
    let mut done = 0;
    while done < buf.len() {
        let n = from.read(&mut buf[done..]).unwrap_or(0);
        if n == 0 {
            break;
        }
        done += n;
    }
    done
}

// Answers each case of the input, in a line of its own. The text is in the room that is lent.
pub fn answer_all<'i, F: FnMut(Case<'i>, &mut Text<'_>)>(
    rt: &impl Print,
    input: &'i [u8],
    room: &mut [u8],
    mut answer: F,
)
    requires { F.IsAlwaysCallable answer }
{
    let mut text = Text::new(room);
    let mut onward = input;
    for line in input.split_inclusive(|&b| b == b'\n') {
        answer(Case { line, onward }, &mut text);
        text.end_line(rt);
        onward = behind(onward, line.len());
    }
    text.flush(rt);
}

// A line with its end, and the input from the line on: a letter and fields, each after one blank. Field 0 is the letter.
#[derive(Clone, Copy)]
pub struct Case<'a> {
    line: &'a [u8],
    onward: &'a [u8],
}

impl<'a> Case<'a> {
    // A line with nothing behind it.
    pub fn new(line: &'a [u8]) -> Self {
        Case { line, onward: line }
    }

    // A missing field is empty.
    pub fn field(self, which: usize) -> &'a [u8] {
        self.line
            .split(|&b| b == b' ' || b == b'\n')
            .nth(which)
            .unwrap_or(&[])
    }

    // All of the line from a field on, with its end: the end alone where the field is missing.
    pub fn rest(self, which: usize) -> &'a [u8] {
        let end = if self.line.ends_with(b"\n") {
            b"\n".as_slice()
        } else {
            &[]
        };
        self.line
            .splitn(which.saturating_add(1), |&b| b == b' ')
            .nth(which)
            .unwrap_or(end)
    }

    // The letter that says what to do.
    pub fn letter(self) -> u8 {
        self.letter_in(0)
    }

    // The letter that a field begins with, or the blank or line's end that stands there.
    pub fn letter_in(self, which: usize) -> u8 {
        self.rest(which).first().copied().unwrap_or(b'\n')
    }

    // The decimal number in a field, up to 18446744073709551615; a digit that it has no room for is left out.
    pub fn number(self, which: usize) -> u64 {
        let mut value: u64 = 0;
        for &b in self.field(which) {
            if !b.is_ascii_digit() {
                break;
            }
            let grown = value
                .checked_mul(10)
                .and_then(|n| n.checked_add(u64::from(b - b'0')));
            value = grown.unwrap_or(value);
        }
        value
    }

    pub fn size(self, which: usize) -> usize {
        self.number(which) as usize
    }

    // The number in a field, as a byte.
    pub fn byte(self, which: usize) -> u8 {
        (self.number(which) % 256) as u8
    }

    // The bytes that a field holds in hexadecimal, at the front of a buffer. They end where a pair begins with no digit; a second one that is none counts
    // as 0, also the blank or the line's end behind an odd number of digits: the digits behind that are read as well.
    pub fn hex<'b>(self, which: usize, buf: &'b mut [u8]) -> &'b [u8] {
        let mut n = 0;
        let begin = self.line.len().saturating_sub(self.rest(which).len());
        for pair in behind(self.onward, begin).chunks(2) {
            let Some(high) = nibble(pair[0]) else { break };
            let low = pair.get(1).and_then(|&b| nibble(b)).unwrap_or(0);
            let Some(place) = buf.get_mut(n) else { break };
            *place = high << 4 | low;
            n += 1;
        }
        &buf[..n]
    }
}

fn nibble(b: u8) -> Option<u8> {
    match b {
        b'0'..=b'9' => Some(b - b'0'),
        b'A'..=b'F' => Some(b - b'A' + 10),
        _ => None,
    }
}

// The first n bytes of a buffer: all of it where it has fewer.
pub fn first(s: &[u8], n: usize) -> &[u8] {
    &s[..n.min(s.len())]
}

pub fn first_mut(s: &mut [u8], n: usize) -> &mut [u8] {
    let end = n.min(s.len());
    &mut s[..end]
}

// The bytes of a buffer behind its first n: none where it has fewer.
pub fn behind(s: &[u8], n: usize) -> &[u8] {
    &s[n.min(s.len())..]
}

pub fn behind_mut(s: &mut [u8], n: usize) -> &mut [u8] {
    let at = n.min(s.len());
    &mut s[at..]
}

// Puts a byte at a place; beyond the end it is dropped.
pub fn set(s: &mut [u8], at: usize, b: u8) {
    if let Some(place) = s.get_mut(at) {
        *place = b;
    }
}
