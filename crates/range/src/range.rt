// The levels that an ambient sound mode has.
ghost use Rattle.std.specs.Prelude.{◌≡◌};
ghost use Prim.Native.Nat.{◌<◌, ◌+◌, ◌-◌, ◌*◌, ◌/◌, max};
ghost use Rattle.range.specs.Range.{admits_of, within_of, first_from};
ghost use Rattle.base.specs.Refusal.{outcome_of};

use frame::Refusal;

#[derive(Clone, Copy)]
pub struct AmbientRange {
    pub voice: bool,
    pub min: u8,
    pub max: u8,
    pub step: u8,
}

// The first level at or above `lo` on the steps from `min`.
fn first_from(min: u32, step: u32, lo: u32) -> u32
    requires { (min < 256) × (0 < step) × (step < 256) × (lo < 256) }
    ensures { result ≡ first_from min step lo }
{
    if min >= lo {
        return min;
    }
    min + (lo - min + (step - 1)) / step * step
}

fn at_least_one(step: u8) -> u32
    ensures { result ≡ max 1 step }
{
    u32::from(step.max(1))
}

fn lower(a: u8, b: u8) -> u32
    ensures { result ≡ Prim.Native.Nat.min a b }
{
    u32::from(a.min(b))
}

impl AmbientRange {
    // Whether a headset with this range takes `level`.
    pub fn admits(self, level: i32) -> Result<bool, Refusal>
        ensures { outcome_of result ≡ admits_of self level }
    {
        if level < 0 {
            return Ok(false);
        }
        let at = level as u32;
        let min = self.min as u32;
        let max = self.max as u32;
        let step = self.step as u32;
        if at < min {
            return Ok(false);
        }
        if at > max {
            return Ok(false);
        }
        if step == 0 {
            return Err(Refusal::StepZero);
        }
        if (at - min) % step == 0 {
            Ok(true)
        } else {
            Ok(false)
        }
    }

    // The levels of this range that lie in `lo..=hi`, on the same steps.
    pub fn within(self, lo: u8, hi: u8) -> Option<AmbientRange>
        ensures { result ≡ within_of self lo hi }
    {
        let min = self.min as u32;
        let step = at_least_one(self.step);
        let top = lower(self.max, hi);
        if top < min {
            return None;
        }
        let first = first_from(min, step, lo as u32);
        let last = min + (top - min) / step * step;
        if last < first {
            return None;
        }
        Some(AmbientRange {
            voice: self.voice,
            min: first as u8,
            max: last as u8,
            step: self.step,
        })
    }
}
