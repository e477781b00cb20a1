// The number that decimal digits stand for.
ghost use Rattle.std.specs.Prelude.{◌≡◌, ◌<◌};
ghost use Rattle.decimal.specs.Decimal.{capped, with_digit, number_of, told_number, argument_of};

use digits::decimal;

// The number with one more digit, or the greatest that there is.
fn with_digit(n: u64, digit: u16) -> u64
    requires { digit < 10 }
    ensures { result ≡ capped (with_digit n digit) }
{
    n.saturating_mul(10).saturating_add(digit as u64)
}

// Digits only, at least one, and as many as one likes. A number above 18446744073709551615 is told as that one.
#[tactic(auto, using(crate::proofs::LawsDecimal::none_told, crate::proofs::LawsDecimal::told_first, crate::proofs::LawsDecimal::told_digit, crate::proofs::LawsDecimal::told_other, crate::proofs::LawsDecimal::told_end))]
pub fn read_decimal(text: &[u8]) -> Option<u64>
    ensures { result ≡ told_number (number_of text.now) }
{
    if text.is_empty() {
        return None;
    }
    let mut n = 0;
    for &c in text {
        let digit = decimal(c);
        if digit > 9 {
            return None;
        }
        n = with_digit(n, digit);
    }
    Some(n)
}

// Why the arguments of a program are not one number.
#[derive(Clone, Copy, Debug, PartialEq, Eq)]
pub enum ArgumentError {
    Missing,
    NotANumber,
    TooMany,
}

// `count` is how many arguments there are, the program's name being the first, and `text` is the second.
#[tactic(auto, unfolding(crate::specs::Decimal::argument_of))]
pub fn number_argument(count: usize, text: &[u8]) -> Result<u64, ArgumentError>
    ensures { result ≡ argument_of count text.now }
{
    match count {
        0 | 1 => Err(ArgumentError::Missing),
        2 => read_decimal(text).ok_or(ArgumentError::NotANumber),
        _ => Err(ArgumentError::TooMany),
    }
}
