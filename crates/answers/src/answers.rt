// A call's answer, told: its status, 0 or the refusal's number, and the numbers of what was accepted or the refusal's values.
ghost use Rattle.std.specs.Prelude.{◌≡◌, ℕ, List};
ghost use Rattle.base.specs.Refusal.{outcome_of};
ghost use Rattle.telling.specs.Told.{status_of, numbers_of, told};

use base::Refusal;
use telling::refuse;

// A value that an exported call tells as numbers.
pub trait Told {
    ghost numbers: { Self → List ℕ };

    fn tell(self, values: &mut [u64])
        ensures { values.new ≡ told (numbers self) values.old };
}

// In place at each export: a call would pass the answer through memory.
#[inline(always)]
pub fn answer_told<T: Told>(answer: Result<T, Refusal>, values: &mut [u64]) -> u8
    ensures value { result ≡ status_of (outcome_of answer) }
    ensures values_after { values.new ≡ told (numbers_of T.numbers (outcome_of answer)) values.old }
{
    match answer {
        Ok(value) => {
            value.tell(values);
            0
        }
        Err(r) => refuse(r, values),
    }
}

// The status alone, of a call that accepts without a value.
pub fn status(answer: Result<(), Refusal>) -> u8
    ensures { result ≡ status_of (outcome_of answer) }
{
    match answer {
        Ok(()) => 0,
        Err(r) => r.number(),
    }
}
