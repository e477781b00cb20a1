// Printing answers into a text that is written out when it has grown long.
ghost use Rattle.std.specs.Prelude.{◌≤◌, length};

use crate::rule::mix_bytes;
use base::Refusal;

const DIGITS: [u8; 16] = *b"0123456789ABCDEF";

// A lent buffer, and how much of it is written. What it has no room for is dropped.
#[derive(Drop)]
pub struct Text<'a> {
    room: &'a mut [u8],
    len: usize,
    ghost within_room: { len ≤ length room.now },
}

impl<'a> Text<'a> {
    pub fn new(room: &'a mut [u8]) -> Self {
        Text { room, len: 0 }
    }

    pub fn clear(&mut self) {
        self.len = 0;
    }

    // What has been put in since the text was made or cleared.
    pub fn written(&self) -> &[u8] {
        &self.room[..self.len]
    }

    pub fn put(&mut self, b: u8) {
        if self.len < self.room.len() {
            self.room[self.len] = b;
            self.len += 1;
        }
    }

    // A word, with the blank that ends it.
    pub fn word(&mut self, w: &[u8]) {
        for &b in w {
            self.put(b);
        }
        self.put(b' ');
    }

    // A number in decimal.
    pub fn number(&mut self, n: u64) {
        self.word(decimal(n, &mut [0; 20]));
    }

    pub fn size(&mut self, n: usize) {
        self.number(n as u64);
    }

    pub fn byte(&mut self, b: u8) {
        self.number(u64::from(b));
    }

    pub fn flag(&mut self, yes: bool) {
        self.word(if yes { b"yes" } else { b"no" });
    }

    fn hex(&mut self, b: u8) {
        self.put(DIGITS[(b / 16) as usize]);
        self.put(DIGITS[(b % 16) as usize]);
    }

    // A string of bytes: up to 12 in full, a longer one by its length and its sum.
    pub fn bytes(&mut self, s: &[u8]) {
        if s.len() > 12 {
            self.put(b'#');
            self.size(s.len());
            self.number(mix_bytes(0, s));
            return;
        }
        self.put(b'.');
        for &b in s {
            self.hex(b);
        }
        self.put(b' ');
    }

    // A refusal: its number and the values that it carries.
    pub fn refusal(&mut self, r: Refusal) {
        self.word(b"refused");
        self.byte(r.number());
        match r {
            Refusal::BadEscapee(b) => self.byte(b),
            Refusal::BadChecksum { declared, computed } => {
                self.byte(declared);
                self.byte(computed);
            }
            Refusal::LengthMismatch { declared, actual } => {
                self.size(declared);
                self.size(actual);
            }
            _ => {}
        }
    }

    // What there is, as the closure prints it, or `-` for none.
    pub fn option<T: Drop, F: FnOnce(&mut Self, T) + Drop>(&mut self, o: Option<T>, print: F)
        requires { F.IsAlwaysCallable print }
    {
        match o {
            Some(x) => print(self, x),
            None => self.word(b"-"),
        }
    }

    // What is answered, as the closure prints it, or the refusal.
    pub fn answer<T: Drop, F: FnOnce(&mut Self, T) + Drop>(
        &mut self,
        a: Result<T, Refusal>,
        print: F,
    )
        requires { F.IsAlwaysCallable print }
    {
        match a {
            Ok(x) => print(self, x),
            Err(r) => self.refusal(r),
        }
    }

    // Puts a byte in the place of the last word's blank.
    pub fn end_with(&mut self, b: u8) {
        self.len = self.len.saturating_sub(1);
        self.put(b);
    }

    // Ends an answer's line; a text that has grown long is written out.
    pub fn end_line(&mut self, rt: &impl Print) {
        self.end_with(b'\n');
        if self.len >= 32768 {
            self.flush(rt);
        }
    }

    // Writes out the text, which is empty then.
    pub fn flush(&mut self, rt: &impl Print) {
        write_all(rt, self.written());
        self.clear();
    }
}

// A number's decimal digits, at the end of twenty bytes, which hold those of any.
fn decimal(n: u64, digits: &mut [u8; 20]) -> &[u8] {
    let mut rest = n;
    for at in (0..20).rev() {
        digits[at] = DIGITS[(rest % 10) as usize];
        rest /= 10;
        if rest == 0 {
            return &digits[at..];
        }
    }
    digits
}

// Writes out bytes. Where that fails, the rest of them is dropped.
pub fn write_all(rt: &impl Print, bytes: &[u8]) {
    let _ = rt.write_all(bytes);
}
