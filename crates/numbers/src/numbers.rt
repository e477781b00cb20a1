// A reading as numbers, in the order in which an exported call tells them.
ghost use Rattle.std.specs.Prelude.{◌≡◌};
ghost use Rattle.line_reader.specs.LineReader.{read_told};
ghost use Rattle.numbers.specs.Numbers.{bit, byte_or256, characters_or256, flag_or2, charging_number, cell_numbers, battery_numbers, mode_number, noise_numbers, report_numbers, device_numbers, info_numbers, read_numbers};

use base::Refusal;
use capability::CapabilityReport;
use line_reader::LineRead;
use paired::PairedDevice;
use payload::{BatteryReport, Cell, Charging, NoiseMode, NoiseReport};
use setting_info::GeneralSetting;

const ABSENT: u64 = 256;

pub fn byte_or(b: Option<u8>) -> u64
    ensures { result ≡ byte_or256 b }
{
    match b {
        Some(value) => value as u64,
        None => ABSENT,
    }
}

pub fn flag(on: bool) -> u64
    ensures { result ≡ bit on }
{
    if on { 1 } else { 0 }
}

fn flag_or(f: Option<bool>) -> u64
    ensures { result ≡ flag_or2 f }
{
    f.map_or(2, flag)
}

fn charging(c: Charging) -> u64
    ensures { result ≡ charging_number c }
{
    match c {
        Charging::No => 0,
        Charging::Yes => 1,
        Charging::Unknown => 2,
        Charging::Charged => 3,
        Charging::Other(b) => 256 + b as u64,
    }
}

fn cell(c: Option<Cell>) -> [u64; 3]
    ensures { result ≡ cell_numbers c }
{
    match c {
        Some(there) => {
            let status = there.charging;
            let threshold = there.threshold;
            [there.level as u64, charging(status), byte_or(threshold)]
        }
        None => [ABSENT, ABSENT, ABSENT],
    }
}

pub fn battery(report: BatteryReport) -> [u64; 12]
    ensures { result ≡ battery_numbers report }
{
    let main = report.main;
    let left = report.left;
    let right = report.right;
    let case = report.case;
    let m = cell(main);
    let l = cell(left);
    let r = cell(right);
    let c = cell(case);
    [
        m[0], m[1], m[2], l[0], l[1], l[2], r[0], r[1], r[2], c[0], c[1], c[2],
    ]
}

fn noise_mode(m: NoiseMode) -> u64
    ensures { result ≡ mode_number m }
{
    match m {
        NoiseMode::Off => 0,
        NoiseMode::Anc => 1,
        NoiseMode::Ambient => 2,
    }
}

pub fn noise(report: NoiseReport) -> [u64; 7]
    ensures { result ≡ noise_numbers report }
{
    let mode = report.mode;
    let mode_byte = report.mode_byte;
    let level = report.ambient_level;
    let focus = report.focus_on_voice;
    let adaptive = report.adaptive;
    let sensitivity = report.adaptive_sensitivity;
    [
        noise_mode(mode),
        byte_or(mode_byte),
        byte_or(level),
        flag_or(focus),
        flag(report.settled),
        flag_or(adaptive),
        byte_or(sensitivity),
    ]
}

pub fn ranges(kind: u8, report: CapabilityReport) -> [u64; 10]
    ensures { result ≡ report_numbers kind report }
{
    let ranges = report.ranges;
    let a = ranges[0];
    let b = ranges[1];
    [
        kind as u64,
        report.count as u64,
        flag(a.voice),
        a.min as u64,
        a.max as u64,
        a.step as u64,
        flag(b.voice),
        b.min as u64,
        b.max as u64,
        b.step as u64,
    ]
}

// A name has at most 255 bytes, so that no number of its characters is 256.
fn characters_or(c: Option<usize>) -> u64
    ensures { result ≡ characters_or256 c }
{
    c.map_or(ABSENT, |n| n as u64)
}

pub fn device(d: PairedDevice) -> [u64; 8]
    ensures { result ≡ device_numbers d }
{
    let characters = d.characters;
    [
        d.address as u64,
        d.status as u64,
        d.detail0 as u64,
        d.detail1 as u64,
        d.detail2 as u64,
        d.name as u64,
        d.len as u64,
        characters_or(characters),
    ]
}

pub fn setting_info(s: GeneralSetting) -> [u64; 7]
    ensures { result ≡ info_numbers s }
{
    let name = s.name;
    let summary = s.summary;
    [
        s.slot as u64,
        name.offset as u64,
        name.len as u64,
        summary.offset as u64,
        summary.len as u64,
        name.characters as u64,
        summary.characters as u64,
    ]
}

fn accepted_line(line: LineRead) -> [u64; 5]
    ensures { result ≡ read_numbers (read_told (Ok line)) }
{
    match line {
        LineRead::Unread(number) => [b'R' as u64, number as u64, 0, 0, ABSENT],
        LineRead::Header {
            data_type,
            seq,
            len,
            command,
        } => [
            b'H' as u64,
            data_type.to_wire() as u64,
            seq as u64,
            len as u64,
            byte_or(command),
        ],
        LineRead::Masked {
            data_type,
            seq,
            len,
        } => [
            b'S' as u64,
            data_type.to_wire() as u64,
            seq as u64,
            len as u64,
            ABSENT,
        ],
        LineRead::Full {
            data_type,
            seq,
            len,
        } => [
            b'F' as u64,
            data_type.to_wire() as u64,
            seq as u64,
            len as u64,
            ABSENT,
        ],
    }
}

pub fn line(read: Result<LineRead, Refusal>) -> [u64; 5]
    ensures { result ≡ read_numbers (read_told read) }
{
    match read {
        Ok(line) => accepted_line(line),
        Err(_) => [0, 0, 0, 0, ABSENT],
    }
}
