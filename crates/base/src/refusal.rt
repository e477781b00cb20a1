// Why an entry point refuses. One enum for the whole list, in the list's order; the names of the Rust's `FrameError` are kept.
ghost use Rattle.std.specs.Prelude.{◌≡◌};
ghost use Rattle.base.specs.Refusal.{number_of};

#[derive(Clone, Copy, Debug, PartialEq, Eq)]
pub enum Refusal {
    LimitOutOfRange,
    StoreTooShort,
    HeldBeyondStore,
    StoreFull,
    BadPlan,
    WorkTooShort,
    LineTooLong,
    TooShort,
    NoStart,
    NoEnd,
    NoRoom,
    TrailingSentry,
    BadEscapee(u8),
    BodyTooShort,
    BadChecksum { declared: u8, computed: u8 },
    LengthMismatch { declared: usize, actual: usize },
    PayloadTooLong,
    OutputTooShort,
    OtherMessage,
    TooFewRecords,
    NoSuchDevice,
    StepZero,
    NotText,
    NotALine,
    WrongKind,
    WrongLength,
    CountFull,
    BillOutOfRange,
    LevelTooHigh,
}

impl Refusal {
    // The number in the refusal list.
    pub fn number(self) -> u8
        ensures { result ≡ number_of self }
    {
        match self {
            Refusal::LimitOutOfRange => 1,
            Refusal::StoreTooShort => 2,
            Refusal::HeldBeyondStore => 3,
            Refusal::StoreFull => 4,
            Refusal::BadPlan => 5,
            Refusal::WorkTooShort => 6,
            Refusal::LineTooLong => 7,
            Refusal::TooShort => 8,
            Refusal::NoStart => 9,
            Refusal::NoEnd => 10,
            Refusal::NoRoom => 11,
            Refusal::TrailingSentry => 12,
            Refusal::BadEscapee(_) => 13,
            Refusal::BodyTooShort => 14,
            Refusal::BadChecksum { .. } => 15,
            Refusal::LengthMismatch { .. } => 16,
            Refusal::PayloadTooLong => 17,
            Refusal::OutputTooShort => 18,
            Refusal::OtherMessage => 19,
            Refusal::TooFewRecords => 20,
            Refusal::NoSuchDevice => 21,
            Refusal::StepZero => 22,
            Refusal::NotText => 23,
            Refusal::NotALine => 24,
            Refusal::WrongKind => 25,
            Refusal::WrongLength => 26,
            Refusal::CountFull => 27,
            Refusal::BillOutOfRange => 28,
            Refusal::LevelTooHigh => 29,
        }
    }
}
