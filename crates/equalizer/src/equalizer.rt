// The equalizer's preset and steps, and what a step means.
ghost use Rattle.std.specs.Prelude.{◌≡◌, pos, negsuc, ◌≤ℤ◌};
ghost use Rattle.equalizer.specs.Equalizer.{equalizer_of, steps_of, shape_of, bias_of, gain_of};
ghost use Rattle.base.specs.Refusal.{outcome_of};

use frame::Refusal;

#[derive(Clone, Copy)]
pub struct EqReport {
    pub preset: u8,
    pub count: usize,
}

#[derive(Clone, Copy)]
pub enum EqShape {
    ClearBassAndFive,
    TenBands,
    Unknown,
}

pub fn decode_equalizer(payload: &[u8]) -> Result<EqReport, Refusal>
    ensures { outcome_of result ≡ equalizer_of payload.now }
{
    if payload.len() < 2 {
        return Err(Refusal::WrongKind);
    }
    if payload[1] != 0x00 {
        return Err(Refusal::WrongKind);
    }
    if payload.len() < 4 {
        return Err(Refusal::WrongLength);
    }
    let count = payload[3] as usize;
    if payload.len() - 4 != count {
        return Err(Refusal::WrongLength);
    }
    Ok(EqReport {
        preset: payload[2],
        count,
    })
}

// The steps, or nothing where the decoder refuses.
pub fn equalizer_steps(payload: &[u8]) -> &[u8]
    ensures { result.now ≡ steps_of payload.now }
{
    match decode_equalizer(payload) {
        Ok(
            EqReport {
                preset: _,
                count: _,
            },
        ) => &payload[4..],
        Err(_) => &payload[..0],
    }
}

impl EqShape {
    #[tactic(auto, unfolding(crate::specs::Equalizer::shape_of))]
    pub fn of(steps: usize) -> EqShape
        ensures { result ≡ shape_of steps }
    {
        match steps {
            6 => EqShape::ClearBassAndFive,
            10 => EqShape::TenBands,
            _ => EqShape::Unknown,
        }
    }

    // What a step on the wire lies above the gain.
    pub fn bias(self) -> i32
        ensures { result ≡ bias_of self }
    {
        match self {
            EqShape::TenBands => 6,
            EqShape::ClearBassAndFive => 10,
            EqShape::Unknown => 10,
        }
    }
}

// A band's gain, in a report of so many steps: -10 to 249.
pub fn gain(steps: usize, step: u8) -> i32
    ensures value { result ≡ gain_of steps step }
    ensures lower_bound { (negsuc 9 ≤ℤ result) × (result ≤ℤ pos 249) }
{
    step as i32 - EqShape::of(steps).bias()
}
