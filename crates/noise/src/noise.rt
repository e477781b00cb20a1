// Layouts with a mode byte, with a switch for cancelling, or with neither; most have the ambient bytes too.
ghost use Rattle.std.specs.Prelude.{◌≡◌, ◌≤◌, length};
ghost use Rattle.noise.specs.Noise.{noise_of, noise_report, full_of, ambient_only_of, switch_and_ambient_of, switch_only_of, cancelling_of, mode_of, flag_of};
ghost use Rattle.base.specs.Outcome.{accepted};
ghost use Rattle.base.specs.Refusal.{outcome_of};

use frame::Refusal;

#[derive(Clone, Copy, Debug, PartialEq, Eq)]
pub enum NoiseMode {
    Off,
    Anc,
    Ambient,
}

#[derive(Clone, Copy, Debug, PartialEq, Eq)]
pub struct NoiseReport {
    pub mode: NoiseMode,
    // kept, since `mode` is Off whenever the effect is off
    pub mode_byte: Option<u8>,
    pub ambient_level: Option<u8>,
    pub focus_on_voice: Option<bool>,
    pub settled: bool,
    pub adaptive: Option<bool>,
    pub adaptive_sensitivity: Option<u8>,
}

// The bytes that a layout has beside settled and effect.
#[derive(Clone, Copy)]
struct Fields {
    mode: Option<u8>,
    switch: Option<u8>,
    ambient: Option<u8>,
    level: Option<u8>,
    adaptive: Option<u8>,
    sensitivity: Option<u8>,
}

const NO_FIELDS: Fields = Fields {
    mode: None,
    switch: None,
    ambient: None,
    level: None,
    adaptive: None,
    sensitivity: None,
};

fn is_cancelling(mode: Option<u8>, switch: Option<u8>) -> bool
    ensures { result ≡ cancelling_of mode switch }
{
    match mode {
        Some(b) => b == 0x00,
        None => switch == Some(0x01),
    }
}

fn noise_mode(effect: u8, cancelling: bool, ambient: Option<u8>) -> NoiseMode
    ensures { result ≡ mode_of effect cancelling ambient }
{
    if effect != 0x01 {
        NoiseMode::Off
    } else if cancelling {
        NoiseMode::Anc
    } else if ambient.is_some() {
        NoiseMode::Ambient
    } else {
        NoiseMode::Off
    }
}

fn flag_of(b: Option<u8>) -> Option<bool>
    ensures { result ≡ flag_of b }
{
    b.map(|value| value == 0x01)
}

fn noise_report(payload: &[u8], f: Fields) -> NoiseReport
    requires { 4 ≤ length payload.now }
    ensures { accepted result ≡ noise_report payload.now f }
{
    NoiseReport {
        mode: noise_mode(payload[3], is_cancelling(f.mode, f.switch), f.ambient),
        mode_byte: f.mode,
        ambient_level: f.level,
        focus_on_voice: flag_of(f.ambient),
        settled: payload[2] == 0x01,
        adaptive: flag_of(f.adaptive),
        adaptive_sensitivity: f.sensitivity,
    }
}

fn full(payload: &[u8], adaptive: Option<u8>, sensitivity: Option<u8>) -> NoiseReport
    requires { 7 ≤ length payload.now }
    ensures { accepted result ≡ full_of payload.now adaptive sensitivity }
{
    let fields = Fields {
        mode: Some(payload[4]),
        ambient: Some(payload[5]),
        level: Some(payload[6]),
        adaptive,
        sensitivity,
        ..NO_FIELDS
    };
    noise_report(payload, fields)
}

fn ambient_only(payload: &[u8]) -> NoiseReport
    requires { 6 ≤ length payload.now }
    ensures { accepted result ≡ ambient_only_of payload.now }
{
    let fields = Fields {
        ambient: Some(payload[4]),
        level: Some(payload[5]),
        ..NO_FIELDS
    };
    noise_report(payload, fields)
}

fn switch_and_ambient(payload: &[u8]) -> NoiseReport
    requires { 7 ≤ length payload.now }
    ensures { accepted result ≡ switch_and_ambient_of payload.now }
{
    let fields = Fields {
        switch: Some(payload[4]),
        ambient: Some(payload[5]),
        level: Some(payload[6]),
        ..NO_FIELDS
    };
    noise_report(payload, fields)
}

fn switch_only(payload: &[u8]) -> NoiseReport
    requires { 5 ≤ length payload.now }
    ensures { accepted result ≡ switch_only_of payload.now }
{
    let fields = Fields {
        switch: Some(payload[4]),
        ..NO_FIELDS
    };
    noise_report(payload, fields)
}

#[tactic(auto, unfolding(crate::specs::Noise::noise_of, crate::specs::Noise::noise_layout, reading::specs::Reading::reading_of, reading::specs::Items::walk))]
pub fn decode_noise(payload: &[u8]) -> Result<NoiseReport, Refusal>
    ensures { outcome_of result ≡ noise_of payload.now }
{
    let len = payload.len();
    if len < 2 {
        return Err(Refusal::WrongKind);
    }
    // An arm that returns writes its answer in place.
    match (payload[1], len) {
        (0x15 | 0x17, 7) => return Ok(full(payload, None, None)),
        (0x19, 9) => return Ok(full(payload, Some(payload[7]), Some(payload[8]))),
        (0x22, 6) => return Ok(ambient_only(payload)),
        (0x13, 7) => return Ok(switch_and_ambient(payload)),
        (0x01, 5) => return Ok(switch_only(payload)),
        (0x01 | 0x13 | 0x15 | 0x17 | 0x19 | 0x22, _) => return Err(Refusal::WrongLength),
        _ => return Err(Refusal::WrongKind),
    }
}
