// Why something is refused: the number as the log prints it, and the rule in words.
use base::Refusal;
use std::fmt;

// The number and the rule.
#[derive(Clone, Copy)]
pub struct Refused(pub Refusal);

impl fmt::Display for Refused {
    fn fmt<W: fmt::Write>(&self, f: &mut fmt::Formatter<W>) -> fmt::Result {
        write!(f, "refused {:02}: {}", self.0.number(), Rule(self.0))
    }
}

#[derive(Clone, Copy)]
pub struct Rule(pub Refusal);

impl fmt::Display for Rule {
    fn fmt<W: fmt::Write>(&self, f: &mut fmt::Formatter<W>) -> fmt::Result {
        let words = match self.0 {
            Refusal::BadEscapee(b) => {
                return write!(
                    f,
                    "a 3D stands before {b:02X}, which is none of 2C, 2D and 2E"
                );
            }
            Refusal::BadChecksum { declared, computed } => {
                return write!(
                    f,
                    "it carries the checksum {declared:02X}, its bytes add up to {computed:02X}"
                );
            }
            Refusal::LengthMismatch { declared, actual } => {
                return write!(f, "the length says {declared}, the payload has {actual}");
            }
            Refusal::LimitOutOfRange => "the limit is below 9 or above 65536",
            Refusal::StoreTooShort => "the store has not more bytes than the limit",
            Refusal::HeldBeyondStore => "more is held than the store has room for",
            Refusal::StoreFull => "the store has no room for the bytes",
            Refusal::BadPlan => "the plan has not 512 bytes, or an entry above 8",
            Refusal::WorkTooShort => "the work area is shorter than the store",
            Refusal::LineTooLong => "the line is longer than the output",
            Refusal::TooShort => "fewer than 9 bytes",
            Refusal::NoStart => "the first byte is not 3E",
            Refusal::NoEnd => "the last byte is not 3C",
            Refusal::NoRoom => "the work area is too short for the frame",
            Refusal::TrailingSentry => "a 3D stands before the END with no byte to unescape",
            Refusal::BodyTooShort => "fewer than 7 bytes between START and END, unescaped",
            Refusal::PayloadTooLong => "the payload has more than 4294967295 bytes",
            Refusal::OutputTooShort => "the output is too short",
            Refusal::OtherMessage =>
                "kind and length are those of its messages, the contents are not",
            Refusal::TooFewRecords => "the list is longer than the records",
            Refusal::NoSuchDevice => "the list has no such device",
            Refusal::StepZero => "the range has the step 0",
            Refusal::NotText => "a text is not UTF-8 (RFC 3629)",
            Refusal::NotALine => "not a line of a log",
            Refusal::WrongKind => "under two bytes, or a kind that it does not read",
            Refusal::WrongLength => "the bytes run out, are too many or do not match the count",
            Refusal::CountFull => "a count of bytes would pass 18446744073709551615",
            Refusal::BillOutOfRange => "a tax above 1000 or a line count above 4294967295",
            Refusal::LevelTooHigh => "a battery level above 100",
        };
        f.write_str(words)
    }
}

// Why a decoder refuses a payload.
#[derive(Clone, Copy)]
pub struct Cause<'a> {
    pub refusal: Refusal,
    pub payload: &'a [u8],
}

impl fmt::Display for Cause<'_> {
    fn fmt<W: fmt::Write>(&self, f: &mut fmt::Formatter<W>) -> fmt::Result {
        let Cause { refusal, payload } = *self;
        match refusal {
            Refusal::WrongKind => match payload.get(1) {
                Some(kind) => write!(f, "it does not read the kind {kind:02X}"),
                None => f.write_str("the payload ends before its kind"),
            },
            Refusal::WrongLength => {
                let n = payload.len();
                write!(
                    f,
                    "the {n} bytes of the payload run out, are too many or do not match the count"
                )
            }
            Refusal::LevelTooHigh => {
                let level = high_level(payload);
                write!(f, "the level {level} is above 100")
            }
            _ => write!(f, "{}", Rule(refusal)),
        }
    }
}

// A second level is looked at only where the first is not above 100, and then it is there.
fn high_level(payload: &[u8]) -> u8 {
    match payload {
        [_, _, first, ..] if *first > 100 => *first,
        [_, _, _, _, second, ..] => *second,
        _ => 0,
    }
}
