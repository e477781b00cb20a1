// The ambient ranges that a headset states, at most one for each voice value.
ghost use Rattle.std.specs.Prelude.{◌≡◌, ◌+◌, ◌*◌, ◌≤◌, length};
ghost use Rattle.base.specs.Refusal.{refusal_told};
ghost use Rattle.capability.specs.Capability.{Reported, capability_told, capability_of, capability_report, capability_kind, ranges_of, element_of};

use frame::Refusal;
use range::AmbientRange;

// The first `count` places of `ranges` are the headset's, the others are zero.
#[derive(Clone, Copy)]
pub struct CapabilityReport {
    pub ranges: [AmbientRange; 2],
    pub count: usize,
}

#[derive(Clone, Copy)]
pub struct NoiseCapability {
    pub answer: Result<u8, Refusal>,
    pub report: CapabilityReport,
}

// The element that starts at `at`.
#[tactic(auto, unfolding(crate::specs::Capability::element_of))]
fn element_at(payload: &[u8], at: usize) -> Option<AmbientRange>
    requires { at + 4 ≤ length payload.now }
    ensures { result ≡ element_of payload.now at }
{
    let voice = payload[at];
    let min = payload[at + 1];
    let max = payload[at + 2];
    let step = payload[at + 3];
    if voice > 0x01 || max < min || step == 0 {
        return None;
    }
    Some(AmbientRange {
        voice: voice == 0x01,
        min,
        max,
        step,
    })
}

const UNSET: AmbientRange = AmbientRange {
    voice: false,
    min: 0,
    max: 0,
    step: 0,
};

fn refuse(refusal: Refusal) -> NoiseCapability
    ensures { Reported result (refusal_told refusal) }
{
    NoiseCapability {
        answer: Err(refusal),
        report: CapabilityReport {
            ranges: [UNSET; 2],
            count: 0,
        },
    }
}

// The ranges of the `count` elements that fill the payload from byte 3 on. There are two voice values, so a third element repeats one and
// is never stored.
fn ranges_of(payload: &[u8], kind: u8, count: usize) -> NoiseCapability
    requires { length payload.now ≡ 3 + 4 * count }
    ensures { Reported result (ranges_of payload.now kind count) }
{
    let mut ranges = [UNSET; 2];
    let mut i = 0;
    // 01 names this form, nested loops left by label; a `while`, since `i` tells behind it whether it was left, and a `for` would need a flag.
    'outer: while i < count {
        let Some(range) = element_at(payload, 3 + 4 * i) else {
            return refuse(Refusal::OtherMessage);
        };
        for seen in &ranges[..i] {
            if seen.voice == range.voice {
                break 'outer;
            }
        }
        ranges[i] = range;
        i += 1;
    }
    if i < count {
        return refuse(Refusal::OtherMessage);
    }
    NoiseCapability {
        answer: Ok(kind),
        report: CapabilityReport { ranges, count },
    }
}

fn has_ranges(kind: u8) -> bool
    ensures { result ≡ capability_kind kind }
{
    matches!(kind, 0x13..=0x19 | 0x22)
}

pub fn decode_noise_capability(payload: &[u8]) -> NoiseCapability
    ensures result_value { capability_told result ≡ capability_of payload.now }
    ensures report_value { result.report ≡ capability_report (capability_of payload.now) }
{
    if payload.len() < 2 || !has_ranges(payload[1]) {
        return refuse(Refusal::WrongKind);
    }
    if payload.len() < 3 {
        return refuse(Refusal::WrongLength);
    }
    let count = payload[2] as usize;
    if payload.len() - 3 != 4 * count {
        return refuse(Refusal::WrongLength);
    }
    if count == 0 {
        return refuse(Refusal::OtherMessage);
    }
    ranges_of(payload, payload[1], count)
}
