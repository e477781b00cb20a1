// What is printed: counts, places, and bytes in hexadecimal, sixteen to a row.
use replay::{behind, first};
use std::{fmt, io};

// A write that fails is not told, and what is behind it is tried all the same.
pub fn tried(written: io::Result<()>) {
    let _ = written;
}

// The next row below a label.
pub const ROW: &str = "\n       ";

// What stands before an item of a list: nothing, a new row, or a blank.
pub fn gap(i: usize) -> &'static str {
    match i {
        0 => "",
        _ if i % 16 == 0 => ROW,
        _ => " ",
    }
}

#[derive(Clone, Copy)]
pub struct Bytes<'a>(pub &'a [u8]);

impl fmt::Display for Bytes<'_> {
    fn fmt<W: fmt::Write>(&self, f: &mut fmt::Formatter<W>) -> fmt::Result {
        for (i, b) in self.0.iter().enumerate() {
            write!(f, "{}{b:02X}", gap(i))?;
        }
        Ok(())
    }
}

pub fn yes_or_no(yes: bool) -> &'static str {
    if yes { "yes" } else { "no" }
}

// So many of a thing.
#[derive(Clone, Copy)]
pub struct Counted(pub usize, pub &'static str);

impl fmt::Display for Counted {
    fn fmt<W: fmt::Write>(&self, f: &mut fmt::Formatter<W>) -> fmt::Result {
        let Counted(n, thing) = *self;
        match n {
            0 => write!(f, "no {thing}s"),
            1 => write!(f, "1 {thing}"),
            _ => write!(f, "{n} {thing}s"),
        }
    }
}

// A place by how many bytes stand before it: places are counted from 1 on.
pub fn place(before: usize) -> usize {
    before.saturating_add(1)
}

// So many bytes behind so many others.
#[derive(Clone, Copy)]
pub struct FromTo {
    pub before: usize,
    pub len: usize,
}

impl fmt::Display for FromTo {
    fn fmt<W: fmt::Write>(&self, f: &mut fmt::Formatter<W>) -> fmt::Result {
        let last = self.before.saturating_add(self.len);
        write!(f, "bytes {} to {last}", place(self.before))
    }
}

// So many bytes from a place on, as far as they are there.
pub fn part(s: &[u8], at: usize, len: usize) -> &[u8] {
    first(behind(s, at), len)
}
