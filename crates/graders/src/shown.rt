// What of the reader's bytes goes to the terminal as text: no control characters, which it obeys, and none that hide or reorder others.
use crate::say::{Bytes, Counted};
use std::fmt;

// Control characters, spaces of no width, marks of direction, and line ends of Unicode.
fn is_obeyed(c: char) -> bool {
    c.is_control()
        || matches!(
            c,
            '\u{61C}' | '\u{200B}'..='\u{200F}' | '\u{2028}'..='\u{202E}' | '\u{2060}'..='\u{206F}' | '\u{FEFF}'
        )
}

// Between quotes where the bytes may be shown as text, else in digits.
#[derive(Clone, Copy)]
struct Quoted<'a> {
    bytes: &'a [u8],
    text: Option<&'a str>,
}

impl fmt::Display for Quoted<'_> {
    fn fmt<W: fmt::Write>(&self, f: &mut fmt::Formatter<W>) -> fmt::Result {
        match self.text {
            Some(text) => write!(f, "\"{text}\""),
            None => write!(f, "{}", Bytes(self.bytes)),
        }
    }
}

#[derive(Clone, Copy)]
pub struct Address<'a>(pub &'a [u8]);

impl fmt::Display for Address<'_> {
    fn fmt<W: fmt::Write>(&self, f: &mut fmt::Formatter<W>) -> fmt::Result {
        let text = str::from_utf8(self.0)
            .ok()
            .filter(|text| text.bytes().all(|b| matches!(b, b' '..=b'~')));
        let quoted = Quoted {
            bytes: self.0,
            text,
        };
        write!(f, "{quoted}")
    }
}

// A name or a summary, and how many characters it is.
#[derive(Clone, Copy)]
pub struct Name<'a> {
    pub bytes: &'a [u8],
    pub characters: Option<usize>,
}

impl fmt::Display for Name<'_> {
    fn fmt<W: fmt::Write>(&self, f: &mut fmt::Formatter<W>) -> fmt::Result {
        let Name { bytes, characters } = *self;
        if bytes.is_empty() {
            return f.write_str("empty");
        }
        let Some(n) = characters else {
            return write!(f, "{}, no text", Bytes(bytes));
        };
        let text = str::from_utf8(bytes)
            .ok()
            .filter(|text| !text.chars().any(is_obeyed));
        let quoted = Quoted { bytes, text };
        write!(f, "{quoted} of {}", Counted(n, "character"))
    }
}

// A line as it stands, save that bytes that are no text and control characters are in digits.
#[derive(Clone, Copy)]
pub struct Heading<'a>(pub &'a [u8]);

impl fmt::Display for Heading<'_> {
    fn fmt<W: fmt::Write>(&self, f: &mut fmt::Formatter<W>) -> fmt::Result {
        let Ok(text) = str::from_utf8(self.0) else {
            for &b in self.0 {
                match b {
                    b' '..=b'~' => write!(f, "{}", char::from(b))?,
                    _ => write!(f, "<{b:02X}>")?,
                }
            }
            return Ok(());
        };
        for c in text.chars() {
            if !is_obeyed(c) {
                write!(f, "{c}")?;
                continue;
            }
            for b in c.encode_utf8(&mut [0; 4]).bytes() {
                write!(f, "<{b:02X}>")?;
            }
        }
        Ok(())
    }
}

// A byte that is no hexadecimal digit.
#[derive(Clone, Copy)]
pub struct Stranger(pub u8);

impl fmt::Display for Stranger {
    fn fmt<W: fmt::Write>(&self, f: &mut fmt::Formatter<W>) -> fmt::Result {
        match self.0 {
            b @ b' '..=b'~' => write!(f, "'{}'", char::from(b)),
            b => write!(f, "the byte {b:02X}"),
        }
    }
}
