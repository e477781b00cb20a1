// What is known of a body while the bytes between a frame's markers go by, so that no copy of it has to be made.
ghost use Rattle.std.specs.Prelude.{◌≡◌, OnErr};
ghost use Rattle.heading.specs.Pass.{begun, with_byte, step_of, end_of};
ghost use Rattle.base.specs.Outcome.{on_accepted};
ghost use Rattle.base.specs.Refusal.{outcome_of};

use base::{DataType, Refusal};
use escaping::SENTRY;
use framing::Header;

#[derive(Clone, Copy, Debug, PartialEq, Eq)]
pub struct Pass {
    // the byte before was a SENTRY, and the next one is its escapee
    pub sentry: bool,
    // the body's bytes so far
    pub count: usize,
    // its header
    pub kind: u8,
    pub seq: u8,
    pub len0: u8,
    pub len1: u8,
    pub len2: u8,
    pub len3: u8,
    // the sum of all but the last, and the last
    pub sum: u8,
    pub last: u8,
}

impl Pass {
    pub fn begin() -> Pass
        ensures { result ≡ begun }
    {
        Pass {
            sentry: false,
            count: 0,
            kind: 0,
            seq: 0,
            len0: 0,
            len1: 0,
            len2: 0,
            len3: 0,
            sum: 0,
            last: 0,
        }
    }

    // One byte of the body more: the first six are the header's.
    fn add(&mut self, b: u8)
        ensures { self.new ≡ with_byte self.old b }
    {
        match self.count {
            0 => self.kind = b,
            1 => self.seq = b,
            2 => self.len0 = b,
            3 => self.len1 = b,
            4 => self.len2 = b,
            5 => self.len3 = b,
            _ => {}
        }
        self.sentry = false;
        self.count = self.count.wrapping_add(1);
        self.sum = self.sum.wrapping_add(self.last);
        self.last = b;
    }

    // One byte of the frame more, in place: a pass that is handed on by value is copied for each byte.
    #[tactic(auto, unfolding(crate::specs::Pass::step_of))]
    pub fn take(&mut self, b: u8) -> Result<(), Refusal>
        ensures stepped { on_accepted (λ _. self.new) (outcome_of result) ≡ step_of self.old b }
        ensures kept { OnErr result (self.new ≡ self.old) }
    {
        match (self.sentry, b) {
            (true, 0x2C..=0x2E) => self.add(b + 16),
            (true, _) => return Err(Refusal::BadEscapee(b)),
            (false, SENTRY) => self.sentry = true,
            (false, _) => self.add(b),
        }
        Ok(())
    }

    // One byte of the frame more.
    pub fn step(mut self, b: u8) -> Result<Pass, Refusal>
        ensures { outcome_of result ≡ step_of self b }
    {
        self.take(b)?;
        Ok(self)
    }

    // What the body comes to when no byte follows, the checksum tested before the length is believed.
    #[tactic(auto, unfolding(crate::specs::Pass::end_of))]
    pub fn end(self) -> Result<Header, Refusal>
        ensures { outcome_of result ≡ end_of self }
    {
        if self.sentry {
            return Err(Refusal::TrailingSentry);
        }
        let n = self.count;
        if n < 7 {
            return Err(Refusal::BodyTooShort);
        }
        let declared = self.last;
        let computed = self.sum;
        if declared != computed {
            return Err(Refusal::BadChecksum { declared, computed });
        }
        let len = u32::from_be_bytes([self.len0, self.len1, self.len2, self.len3]) as usize;
        if len != n - 7 {
            return Err(Refusal::LengthMismatch {
                declared: len,
                actual: n - 7,
            });
        }
        Ok(Header {
            data_type: DataType::from_wire(self.kind),
            seq: self.seq,
            len,
        })
    }
}
