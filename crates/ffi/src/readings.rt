// The readings of a payload, and what stands beside them.
ghost use Rattle.std.specs.Prelude.{◌≡◌, length};
ghost use Rattle.reading.specs.Message.{split_of};
ghost use Rattle.battery.specs.Battery.{battery_of};
ghost use Rattle.noise.specs.Noise.{noise_of};
ghost use Rattle.payload.specs.Setting.{setting_of};
ghost use Rattle.setting_info.specs.SettingInfo.{info_of};
ghost use Rattle.paired.specs.Paired.{paired_of, lookup_of};
ghost use Rattle.masking.specs.Masked.{masked_of, masked_in};
ghost use Rattle.text.specs.Text.{characters_of};
ghost use Rattle.capability.specs.Capability.{capability_of};
ghost use Rattle.range.specs.Range.{admits_of, within_of};
ghost use Rattle.equalizer.specs.Equalizer.{equalizer_of, steps_of, shape_of, bias_of, gain_of};
ghost use Rattle.support.specs.Support.{check_of, support_call};
ghost use Rattle.telling.specs.Told.{status_of, numbers_of, told, only};
ghost use Rattle.numbers.specs.Numbers.{bit_numbers, message_numbers, battery_numbers, noise_numbers, capability_numbers, equalizer_numbers, character_numbers, device_numbers, setting_numbers, info_numbers, list_numbers, table_of, unvoiced, within_numbers, shape_number};

use answers::{Told, answer_told, characters_told};
use capability::AmbientRange;
use lists::{EqReport, EqShape, SupportFunction, Table, decode_support_functions};
use numbers::ranges;
use payload::Message;
use telling::{refuse, tell};

#[unsafe(no_mangle)]
pub extern "C" fn mdr_message(payload: &[u8], values: &mut [u64]) -> u8
    ensures value { result ≡ status_of (split_of payload.now) }
    ensures values_after { values.new ≡ told (numbers_of message_numbers (split_of payload.now)) values.old }
{
    answer_told(Message::split(payload), values)
}

#[unsafe(no_mangle)]
pub extern "C" fn mdr_battery(payload: &[u8], values: &mut [u64]) -> u8
    ensures value { result ≡ status_of (battery_of payload.now) }
    ensures values_after { values.new ≡ told (numbers_of battery_numbers (battery_of payload.now)) values.old }
{
    answer_told(payload::decode_battery(payload), values)
}

#[unsafe(no_mangle)]
pub extern "C" fn mdr_noise(payload: &[u8], values: &mut [u64]) -> u8
    ensures value { result ≡ status_of (noise_of payload.now) }
    ensures values_after { values.new ≡ told (numbers_of noise_numbers (noise_of payload.now)) values.old }
{
    answer_told(payload::decode_noise(payload), values)
}

#[unsafe(no_mangle)]
pub extern "C" fn mdr_noise_capability(payload: &[u8], values: &mut [u64]) -> u8
    ensures value { result ≡ status_of (capability_of payload.now) }
    ensures values_after { values.new ≡ told (numbers_of capability_numbers (capability_of payload.now)) values.old }
{
    let c = capability::decode_noise_capability(payload);
    let answer = c.answer;
    let report = c.report;
    match answer {
        Ok(kind) => {
            let numbers = ranges(kind, report);
            tell(&numbers, values);
            0
        }
        Err(r) => refuse(r, values),
    }
}

#[unsafe(no_mangle)]
pub extern "C" fn mdr_equalizer(payload: &[u8], values: &mut [u64]) -> u8
    ensures value { result ≡ status_of (equalizer_of payload.now) }
    ensures values_after { values.new ≡ told (numbers_of (equalizer_numbers (length (steps_of payload.now))) (equalizer_of payload.now)) values.old }
{
    match lists::decode_equalizer(payload) {
        Ok(EqReport { preset, count }) => {
            let steps = lists::equalizer_steps(payload);
            let numbers = [preset as u64, count as u64, steps.len() as u64];
            tell(&numbers, values);
            0
        }
        Err(r) => refuse(r, values),
    }
}

#[unsafe(no_mangle)]
pub extern "C" fn mdr_paired_devices(payload: &[u8], values: &mut [u64]) -> u8
    ensures value { result ≡ status_of (paired_of payload.now) }
    ensures values_after { values.new ≡ told (numbers_of only (paired_of payload.now)) values.old }
{
    answer_told(paired::decode_paired_devices(payload), values)
}

#[unsafe(no_mangle)]
pub extern "C" fn mdr_paired_device(payload: &[u8], index: usize, values: &mut [u64]) -> u8
    ensures value { result ≡ status_of (lookup_of payload.now index) }
    ensures values_after { values.new ≡ told (numbers_of device_numbers (lookup_of payload.now index)) values.old }
{
    answer_told(paired::paired_device(payload, index), values)
}

#[unsafe(no_mangle)]
pub extern "C" fn mdr_mask_paired(payload: &mut [u8]) -> usize
    ensures value { result ≡ length (masked_of payload.old) }
    ensures payload_after { payload.new ≡ masked_in payload.old }
{
    masking::mask_paired(payload)
}

#[unsafe(no_mangle)]
pub extern "C" fn mdr_support_check(payload: &[u8], values: &mut [u64]) -> u8
    ensures value { result ≡ status_of (check_of payload.now) }
    ensures values_after { values.new ≡ told (numbers_of only (check_of payload.now)) values.old }
{
    answer_told(lists::check_support_functions(payload), values)
}

fn table_of(n: u8) -> Table
    ensures { result ≡ table_of n }
{
    if n == 1 { Table::One } else { Table::Two }
}

#[unsafe(no_mangle)]
pub extern "C" fn mdr_support_functions(
    table: u8,
    payload: &[u8],
    records: &mut [SupportFunction],
    values: &mut [u64],
) -> u8
    ensures value { result ≡ status_of (support_call (table_of table) payload.now records.old).answer }
    ensures values_after { values.new ≡ told (numbers_of list_numbers (support_call (table_of table) payload.now records.old).answer) values.old }
    ensures records_after { records.new ≡ (support_call (table_of table) payload.now records.old).records }
{
    answer_told(
        decode_support_functions(table_of(table), payload, records),
        values,
    )
}

#[unsafe(no_mangle)]
pub extern "C" fn mdr_general_setting(payload: &[u8], values: &mut [u64]) -> u8
    ensures value { result ≡ status_of (setting_of payload.now) }
    ensures values_after { values.new ≡ told (numbers_of setting_numbers (setting_of payload.now)) values.old }
{
    answer_told(payload::decode_general_setting_param(payload), values)
}

#[unsafe(no_mangle)]
pub extern "C" fn mdr_general_setting_info(payload: &[u8], values: &mut [u64]) -> u8
    ensures value { result ≡ status_of (info_of payload.now) }
    ensures values_after { values.new ≡ told (numbers_of info_numbers (info_of payload.now)) values.old }
{
    answer_told(setting_info::decode_general_setting_info(payload), values)
}

#[unsafe(no_mangle)]
pub extern "C" fn mdr_count_characters(bytes: &[u8], values: &mut [u64]) -> u8
    ensures value { result ≡ 0 }
    ensures values_after { values.new ≡ told (character_numbers (characters_of bytes.now)) values.old }
{
    characters_told(text::count_characters(bytes), values);
    0
}

// No range's answer depends on its voice value, so none is asked for.
fn range(min: u8, max: u8, step: u8) -> AmbientRange
    ensures { result ≡ unvoiced min max step }
{
    AmbientRange {
        voice: false,
        min,
        max,
        step,
    }
}

#[unsafe(no_mangle)]
pub extern "C" fn mdr_admits(min: u8, max: u8, step: u8, level: i32, values: &mut [u64]) -> u8
    ensures value { result ≡ status_of (admits_of (unvoiced min max step) level) }
    ensures values_after { values.new ≡ told (numbers_of bit_numbers (admits_of (unvoiced min max step) level)) values.old }
{
    answer_told(range(min, max, step).admits(level), values)
}

#[unsafe(no_mangle)]
pub extern "C" fn mdr_within(
    min: u8,
    max: u8,
    step: u8,
    low: u8,
    high: u8,
    values: &mut [u64],
) -> u8
    ensures value { result ≡ 0 }
    ensures values_after { values.new ≡ told (within_numbers (within_of (unvoiced min max step) low high)) values.old }
{
    range(min, max, step).within(low, high).tell(values);
    0
}

#[unsafe(no_mangle)]
pub extern "C" fn mdr_eq_shape(count: usize) -> u8
    ensures { result ≡ shape_number (shape_of count) }
{
    match EqShape::of(count) {
        EqShape::ClearBassAndFive => 0,
        EqShape::TenBands => 1,
        EqShape::Unknown => 2,
    }
}

#[unsafe(no_mangle)]
pub extern "C" fn mdr_eq_bias(count: usize) -> i32
    ensures { result ≡ bias_of (shape_of count) }
{
    EqShape::of(count).bias()
}

#[unsafe(no_mangle)]
pub extern "C" fn mdr_gain(count: usize, step: u8) -> i32
    ensures { result ≡ gain_of count step }
{
    lists::gain(count, step)
}
