// Each reading, as text.
use crate::places::place_of;
use crate::records::in_records;
use capability::{AmbientRange, NoiseCapability};
use lists::{EqShape, SupportList, Table};
use paired::PairedDevice;
use payload::{
    BatteryReport, Cell, Charging, GeneralSettingParam, Message, NoiseMode, NoiseReport,
};
use replay::{Text, fill, mix_bytes};
use setting_info::{GeneralSetting, SettingText};
use text::count_characters;

// The reading of a letter. The support list has a record for each two of the bytes `records`.
pub fn reading(op: u8, table: Table, payload: &[u8], records: &mut [u8], text: &mut Text) {
    match op {
        b'm' => {
            text.answer(Message::split(payload), message);
            text.bytes(Message::body(payload));
        }
        b'b' => text.answer(payload::decode_battery(payload), battery),
        b'n' => text.answer(payload::decode_noise(payload), noise),
        b'c' => capability(text, payload),
        b'e' => equalizer(text, payload),
        b'p' => paired(text, payload),
        b'f' => support(text, table, payload, records),
        b'g' => text.answer(payload::decode_general_setting_param(payload), setting),
        b'i' => text.answer(
            setting_info::decode_general_setting_info(payload),
            setting_info,
        ),
        b'y' => text.option(count_characters(payload), Text::size),
        _ => text.word(b"unknown"),
    }
}

fn message(text: &mut Text, m: Message) {
    text.byte(m.command);
    text.option(m.kind, Text::byte);
    text.size(m.len);
}

fn battery(text: &mut Text, r: BatteryReport) {
    for c in [r.main, r.left, r.right, r.case] {
        text.option(c, cell);
    }
}

fn cell(text: &mut Text, c: Cell) {
    text.byte(c.level);
    match c.charging {
        Charging::No => text.word(b"no"),
        Charging::Yes => text.word(b"yes"),
        Charging::Unknown => text.word(b"unknown"),
        Charging::Charged => text.word(b"charged"),
        Charging::Other(b) => text.byte(b),
    }
    text.option(c.threshold, Text::byte);
}

fn noise(text: &mut Text, r: NoiseReport) {
    text.word(match r.mode {
        NoiseMode::Off => b"off",
        NoiseMode::Anc => b"anc",
        NoiseMode::Ambient => b"ambient",
    });
    text.option(r.mode_byte, Text::byte);
    text.option(r.ambient_level, Text::byte);
    text.option(r.focus_on_voice, Text::flag);
    text.flag(r.settled);
    text.option(r.adaptive, Text::flag);
    text.option(r.adaptive_sensitivity, Text::byte);
}

// The kind, the count and both ranges; those behind the count are zero.
fn capability(text: &mut Text, payload: &[u8]) {
    let NoiseCapability { answer, report } = capability::decode_noise_capability(payload);
    text.answer(answer, Text::byte);
    text.size(report.count);
    for r in report.ranges {
        range(text, r);
    }
}

fn range(text: &mut Text, r: AmbientRange) {
    text.flag(r.voice);
    text.byte(r.min);
    text.byte(r.max);
    text.byte(r.step);
}

fn equalizer(text: &mut Text, payload: &[u8]) {
    let steps = lists::equalizer_steps(payload);
    match lists::decode_equalizer(payload) {
        Ok(r) => {
            text.byte(r.preset);
            text.size(r.count);
            text.bytes(steps);
            shape(text, EqShape::of(r.count));
            text.number(gains(steps, r.count));
        }
        Err(r) => {
            text.refusal(r);
            text.bytes(steps);
        }
    }
}

fn shape(text: &mut Text, s: EqShape) {
    text.word(match s {
        EqShape::ClearBassAndFive => b"six",
        EqShape::TenBands => b"ten",
        EqShape::Unknown => b"unknown",
    });
    text.number(u64::from(place_of(s.bias())));
}

// The sum of the places of the gains.
fn gains(steps: &[u8], count: usize) -> u64 {
    let mut sum = 0;
    for &step in steps {
        sum = mix_bytes(sum, &place_of(lists::gain(count, step)).to_be_bytes());
    }
    sum
}

// The lookup of every index up to the count, or of the first.
fn paired(text: &mut Text, payload: &[u8]) {
    match paired::decode_paired_devices(payload) {
        Ok(count) => {
            text.byte(count);
            for i in 0..=usize::from(count) {
                lookup(text, payload, i);
            }
        }
        Err(r) => {
            text.refusal(r);
            lookup(text, payload, 0);
        }
    }
}

pub fn lookup(text: &mut Text, payload: &[u8], index: usize) {
    text.answer(paired::paired_device(payload, index), device);
}

fn device(text: &mut Text, d: PairedDevice) {
    text.size(d.address);
    for b in [d.status, d.detail0, d.detail1, d.detail2] {
        text.byte(b);
    }
    text.size(d.name);
    text.size(d.len);
    text.option(d.characters, Text::size);
}

fn support(text: &mut Text, table: Table, payload: &[u8], records: &mut [u8]) {
    fill(records, 84);
    text.answer(in_records(table, payload, records), support_list);
    text.bytes(records);
    text.answer(lists::check_support_functions(payload), Text::size);
}

fn support_list(text: &mut Text, list: SupportList) {
    text.word(match list.table {
        Table::One => b"one",
        Table::Two => b"two",
    });
    text.size(list.count);
}

fn setting(text: &mut Text, p: GeneralSettingParam) {
    text.byte(p.slot);
    text.flag(p.enabled);
}

// The slot, and offset, length and characters of both texts.
fn setting_info(text: &mut Text, s: GeneralSetting) {
    text.byte(s.slot);
    for SettingText {
        offset,
        len,
        characters,
    } in [s.name, s.summary] {
        text.size(offset);
        text.size(len);
        text.size(characters);
    }
}
