// The readings of the counted lists in words: an equalizer's steps, a headset's functions, its paired devices.
use crate::rules::Refused;
use crate::say::{Counted, ROW, gap, part};
use crate::shown::{Address, Name};
use lists::{EqShape, SupportFunction, Table};
use paired::PairedDevice;
use std::fmt;

#[derive(Clone, Copy)]
pub struct Equalizer<'a> {
    pub preset: u8,
    pub steps: &'a [u8],
}

impl fmt::Display for Equalizer<'_> {
    fn fmt<W: fmt::Write>(&self, f: &mut fmt::Formatter<W>) -> fmt::Result {
        let Equalizer { preset, steps } = *self;
        let n = steps.len();
        let shape = match EqShape::of(n) {
            EqShape::ClearBassAndFive => "clear bass and five bands",
            EqShape::TenBands => "ten bands",
            EqShape::Unknown => "of no known shape",
        };
        write!(
            f,
            "equalizer preset {preset:02X}, {}, {shape}",
            Counted(n, "step")
        )?;
        if steps.is_empty() {
            return Ok(());
        }
        write!(f, "{ROW}steps ")?;
        for (i, step) in steps.iter().enumerate() {
            write!(f, "{}{step}", gap(i))?;
        }
        write!(f, "{ROW}gains ")?;
        for (i, step) in steps.iter().enumerate() {
            write!(f, "{}{}", gap(i), lists::gain(n, *step))?;
        }
        Ok(())
    }
}

#[derive(Clone, Copy)]
pub struct Functions<'a> {
    pub table: Table,
    pub records: &'a [SupportFunction],
}

impl fmt::Display for Functions<'_> {
    fn fmt<W: fmt::Write>(&self, f: &mut fmt::Formatter<W>) -> fmt::Result {
        let Functions { table, records } = *self;
        let table = match table {
            Table::One => "One",
            Table::Two => "Two",
        };
        write!(
            f,
            "{} of table {table}",
            Counted(records.len(), "supported function")
        )?;
        if !records.is_empty() {
            write!(f, ", code and priority:{ROW}")?;
        }
        for (i, function) in records.iter().enumerate() {
            let before = match i {
                0 => "",
                _ if i % 8 == 0 => ",\n       ",
                _ => ", ",
            };
            let SupportFunction { code, priority } = *function;
            write!(f, "{before}{code:02X} {priority:02X}")?;
        }
        Ok(())
    }
}

#[derive(Clone, Copy)]
pub struct Devices<'a> {
    pub count: u8,
    pub payload: &'a [u8],
}

impl fmt::Display for Devices<'_> {
    fn fmt<W: fmt::Write>(&self, f: &mut fmt::Formatter<W>) -> fmt::Result {
        let count = self.count as usize;
        write!(f, "{}", Counted(count, "paired device"))?;
        for i in 0..count {
            match paired::paired_device(self.payload, i) {
                Ok(at) => write!(
                    f,
                    "{ROW}{}",
                    Device {
                        at,
                        payload: self.payload
                    }
                )?,
                Err(r) => write!(f, "{ROW}{}", Refused(r))?,
            }
        }
        Ok(())
    }
}

#[derive(Clone, Copy)]
struct Device<'a> {
    at: PairedDevice,
    payload: &'a [u8],
}

impl fmt::Display for Device<'_> {
    fn fmt<W: fmt::Write>(&self, f: &mut fmt::Formatter<W>) -> fmt::Result {
        let d = self.at;
        let address = Address(part(self.payload, d.address, 17));
        let name = Name {
            bytes: part(self.payload, d.name, d.len),
            characters: d.characters,
        };
        write!(f, "address {address}, status {:02X}", d.status)?;
        write!(
            f,
            ", details {:02X} {:02X} {:02X}",
            d.detail0, d.detail1, d.detail2
        )?;
        write!(f, ", name {name}")
    }
}
