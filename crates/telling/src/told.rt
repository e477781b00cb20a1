// What every call tells: a status, and numbers at the front of `values`, as many as fit.
ghost use Rattle.std.specs.Prelude.{◌≡◌, [], ◌∷◌};
ghost use Rattle.base.specs.Refusal.{listed, number_of};
ghost use Rattle.telling.specs.Told.{told};

use frame::Refusal;

#[tactic(auto, using(crate::proofs::LawsTold::told_front))]
pub fn tell(numbers: &[u64], values: &mut [u64])
    ensures { values.new ≡ told numbers.now values.old }
{
    // no `copy_from_slice`, which is slower for so few numbers
    for i in 0..numbers.len().min(values.len()) {
        values[i] = numbers[i];
    }
}

// Two numbers, as by `tell`, without a loop over as many as fit: for calls that do little else.
#[tactic(auto, using(crate::proofs::LawsTold::none_told, crate::proofs::LawsTold::one_told, crate::proofs::LawsTold::two_told))]
pub fn tell_two(first: u64, second: u64, values: &mut [u64])
    ensures { values.new ≡ told (first ∷ second ∷ []) values.old }
{
    if values.is_empty() {
        return;
    }
    values[0] = first;
    if values.len() > 1 {
        values[1] = second;
    }
}

// The refusal's number, and its values told.
pub fn refuse(r: Refusal, values: &mut [u64]) -> u8
    ensures value { result ≡ number_of r }
    ensures values_after { values.new ≡ told (listed r).1 values.old }
{
    match r {
        Refusal::BadEscapee(b) => tell(&[b as u64], values),
        Refusal::BadChecksum { declared, computed } => {
            tell(&[declared as u64, computed as u64], values);
        }
        Refusal::LengthMismatch { declared, actual } => {
            tell(&[declared as u64, actual as u64], values);
        }
        _ => {}
    }
    r.number()
}
