// Kinds with one cell, of the headset or its case, or with a cell at each side; some kinds carry thresholds too.
ghost use Rattle.std.specs.Prelude.{◌≡◌, ◌+◌, ◌<◌, length};
ghost use Rattle.battery.specs.Battery.{battery_of, charging_of, cell_at, cell_tried, levels_tried, main_only, sides, case_only};
ghost use Rattle.base.specs.Refusal.{outcome_of};

use frame::Refusal;

// A headset that is starting may send more, which is no level.
const HIGHEST_LEVEL: u8 = 100;

#[derive(Clone, Copy, Debug, PartialEq, Eq)]
pub enum Charging {
    No,
    Yes,
    Unknown,
    Charged,
    Other(u8),
}

impl From<u8> for Charging {
    ghost from_gives = { λ byte r. r ≡ charging_of byte };

    #[tactic(auto, unfolding(crate::specs::Battery::charging_of))]
    fn from(byte: u8) -> Charging {
        match byte {
            0x00 => Charging::No,
            0x01 => Charging::Yes,
            0x02 => Charging::Unknown,
            0x03 => Charging::Charged,
            other => Charging::Other(other),
        }
    }
}

#[derive(Clone, Copy, Debug, PartialEq, Eq)]
pub struct Cell {
    pub level: u8,
    pub charging: Charging,
    // below it the headset warns
    pub threshold: Option<u8>,
}

#[derive(Clone, Copy, Debug, PartialEq, Eq)]
pub struct BatteryReport {
    pub main: Option<Cell>,
    pub left: Option<Cell>,
    pub right: Option<Cell>,
    pub case: Option<Cell>,
}

const NO_CELLS: BatteryReport = BatteryReport {
    main: None,
    left: None,
    right: None,
    case: None,
};

impl Cell {
    // The cell whose level stands at an offset of the body, its charging byte next.
    fn at(payload: &[u8], offset: usize, threshold: Option<u8>) -> Result<Cell, Refusal>
        requires { offset + 3 < length payload.now }
        ensures { outcome_of result ≡ cell_tried payload.now offset threshold }
    {
        let level = payload[2 + offset];
        if level > HIGHEST_LEVEL {
            return Err(Refusal::LevelTooHigh);
        }
        Ok(Cell {
            level,
            charging: Charging::from(payload[2 + (offset + 1)]),
            threshold,
        })
    }
}

fn main_only(payload: &[u8], threshold: Option<u8>) -> Result<BatteryReport, Refusal>
    requires { 3 < length payload.now }
    ensures { outcome_of result ≡ levels_tried (main_only (cell_at payload.now 0 threshold)) }
{
    Ok(BatteryReport {
        main: Some(Cell::at(payload, 0, threshold)?),
        ..NO_CELLS
    })
}

fn sides(
    payload: &[u8],
    left_threshold: Option<u8>,
    right_threshold: Option<u8>,
) -> Result<BatteryReport, Refusal>
    requires { 5 < length payload.now }
    ensures { outcome_of result ≡ levels_tried (sides (cell_at payload.now 0 left_threshold) (cell_at payload.now 2 right_threshold)) }
{
    Ok(BatteryReport {
        left: Some(Cell::at(payload, 0, left_threshold)?),
        right: Some(Cell::at(payload, 2, right_threshold)?),
        ..NO_CELLS
    })
}

fn case_only(payload: &[u8], threshold: Option<u8>) -> Result<BatteryReport, Refusal>
    requires { 3 < length payload.now }
    ensures { outcome_of result ≡ levels_tried (case_only (cell_at payload.now 0 threshold)) }
{
    Ok(BatteryReport {
        case: Some(Cell::at(payload, 0, threshold)?),
        ..NO_CELLS
    })
}

#[tactic(auto, unfolding(crate::specs::Battery::battery_of, crate::specs::Battery::any_level_of, crate::specs::Battery::battery_layout, reading::specs::Reading::reading_of, reading::specs::Items::walk))]
pub fn decode_battery(payload: &[u8]) -> Result<BatteryReport, Refusal>
    ensures { outcome_of result ≡ battery_of payload.now }
{
    let len = payload.len();
    if len < 2 {
        return Err(Refusal::WrongKind);
    }
    // An arm that returns writes its answer in place.
    match (payload[1], len) {
        (0x00, 4) => return main_only(payload, None),
        (0x01, 6) => return sides(payload, None, None),
        (0x02, 4) => return case_only(payload, None),
        (0x08, 5) => return main_only(payload, Some(payload[4])),
        (0x09, 8) => return sides(payload, Some(payload[6]), Some(payload[7])),
        (0x0A, 5) => return case_only(payload, Some(payload[4])),
        (0x00..=0x02 | 0x08..=0x0A, _) => return Err(Refusal::WrongLength),
        _ => return Err(Refusal::WrongKind),
    }
}
