// What a span is, by the plan and the decoders by which the log goes.
use crate::counts::{Devices, Equalizer, Functions};
use crate::levels::{Battery, Capability, Noise};
use crate::rules::{Cause, Refused};
use crate::say::part;
use crate::settings::{Setting, SettingTexts};
use base::Refusal;
use lists::{SupportFunction, Table};
use std::fmt;

// A span's frame, or why it is none.
#[derive(Clone, Copy)]
pub struct Unpacked<'a>(Result<Reading<'a>, Refusal>);

impl<'a> Unpacked<'a> {
    // The frame's body goes to the work area.
    pub fn new(span: &[u8], plan: &'a [u8], work: &'a mut [u8]) -> Self {
        match frame::unpack(span, work) {
            Ok(header) => Unpacked(Ok(Reading {
                kind: header.data_type.to_wire(),
                payload: part(work, 6, header.len),
                plan,
            })),
            Err(r) => Unpacked(Err(r)),
        }
    }
}

impl fmt::Display for Unpacked<'_> {
    fn fmt<W: fmt::Write>(&self, f: &mut fmt::Formatter<W>) -> fmt::Result {
        match self.0 {
            Ok(reading) => write!(f, "a frame of type {:02X}: {reading}", reading.kind),
            Err(r) => write!(f, "{}", Refused(r)),
        }
    }
}

#[derive(Clone, Copy)]
struct Reading<'a> {
    kind: u8,
    payload: &'a [u8],
    plan: &'a [u8],
}

impl fmt::Display for Reading<'_> {
    fn fmt<W: fmt::Write>(&self, f: &mut fmt::Formatter<W>) -> fmt::Result {
        let Reading {
            kind,
            payload,
            plan,
        } = *self;
        let table = match kind {
            0x0C => Table::One,
            0x0E => Table::Two,
            _ => return f.write_str("withheld, the plan has no table for this type"),
        };
        let Some(&command) = payload.first() else {
            return f.write_str("withheld, the payload is empty");
        };
        match plan::entry(plan, kind, command) {
            1 => told(
                f,
                "battery",
                payload,
                payload::decode_battery(payload).map(Battery),
            ),
            2 => told(
                f,
                "noise control",
                payload,
                payload::decode_noise(payload).map(Noise),
            ),
            3 => {
                let c = capability::decode_noise_capability(payload);
                let report = c.report;
                let answer = c.answer.map(|kind| Capability { kind, report });
                told(f, "capability", payload, answer)
            }
            4 => {
                let steps = lists::equalizer_steps(payload);
                let answer = lists::decode_equalizer(payload).map(|r| Equalizer {
                    preset: r.preset,
                    steps,
                });
                told(f, "equalizer", payload, answer)
            }
            5 => {
                let count = paired::decode_paired_devices(payload);
                told(
                    f,
                    "paired device",
                    payload,
                    count.map(|count| Devices { count, payload }),
                )?;
                match count {
                    Ok(_) => Ok(()),
                    Err(_) => f.write_str("; its length is not told"),
                }
            }
            6 => {
                let none = SupportFunction {
                    code: 0,
                    priority: 0,
                };
                let mut records = [none; 512];
                let list = lists::decode_support_functions(table, payload, &mut records);
                let answer = list.map(|list| Functions {
                    table: list.table,
                    records: first_records(&records, list.count),
                });
                told(f, "support function", payload, answer)
            }
            7 => told(
                f,
                "setting",
                payload,
                payload::decode_general_setting_param(payload).map(Setting),
            ),
            8 => {
                let answer = setting_info::decode_general_setting_info(payload).map(
                    |setting| SettingTexts { setting, payload },
                );
                told(f, "setting text", payload, answer)
            }
            _ => write!(
                f,
                "withheld, the table of this type has no entry for command {command:02X}"
            ),
        }
    }
}

fn first_records(records: &[SupportFunction], n: usize) -> &[SupportFunction] {
    &records[..n.min(records.len())]
}

// What a decoder reads, or why the log withholds the payload.
fn told<T: fmt::Display + Drop, W: fmt::Write>(
    f: &mut fmt::Formatter<W>,
    decoder: &str,
    payload: &[u8],
    answer: Result<T, Refusal>,
) -> fmt::Result {
    match answer {
        Ok(reading) => write!(f, "{reading}"),
        Err(refusal) => {
            let number = refusal.number();
            let cause = Cause { refusal, payload };
            write!(
                f,
                "withheld, refused {number:02} by the {decoder} decoder: {cause}"
            )
        }
    }
}
