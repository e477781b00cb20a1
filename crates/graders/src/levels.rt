// The readings of battery, noise control and its capability in words.
use crate::say::{Counted, ROW, yes_or_no};
use capability::{AmbientRange, CapabilityReport};
use payload::{BatteryReport, Cell, Charging, NoiseMode, NoiseReport};
use std::fmt;

#[derive(Clone, Copy)]
pub struct Battery(pub BatteryReport);

impl fmt::Display for Battery {
    fn fmt<W: fmt::Write>(&self, f: &mut fmt::Formatter<W>) -> fmt::Result {
        let BatteryReport {
            main,
            left,
            right,
            case,
        } = self.0;
        f.write_str("battery")?;
        for (name, cell) in [
            (" ", main),
            (" left ", left),
            ("; right ", right),
            (" case ", case),
        ] {
            if let Some(cell) = cell {
                write!(f, "{name}{}", Level(cell))?;
            }
        }
        Ok(())
    }
}

#[derive(Clone, Copy)]
struct Level(Cell);

impl fmt::Display for Level {
    fn fmt<W: fmt::Write>(&self, f: &mut fmt::Formatter<W>) -> fmt::Result {
        let Cell {
            level,
            charging,
            threshold,
        } = self.0;
        write!(f, "{level}")?;
        match charging {
            Charging::No => f.write_str(", not charging")?,
            Charging::Yes => f.write_str(", charging")?,
            Charging::Unknown => f.write_str(", charging not known")?,
            Charging::Charged => f.write_str(", charged")?,
            Charging::Other(b) => write!(f, ", charging byte {b:02X}")?,
        }
        match threshold {
            Some(threshold) => write!(f, ", threshold {threshold}"),
            None => Ok(()),
        }
    }
}

// The fields in the order of their bytes.
#[derive(Clone, Copy)]
pub struct Noise(pub NoiseReport);

impl fmt::Display for Noise {
    fn fmt<W: fmt::Write>(&self, f: &mut fmt::Formatter<W>) -> fmt::Result {
        let r = self.0;
        let mode = match r.mode {
            NoiseMode::Off => "off",
            NoiseMode::Anc => "cancelling",
            NoiseMode::Ambient => "ambient",
        };
        write!(f, "noise control {mode}; settled {}", yes_or_no(r.settled))?;
        if let Some(b) = r.mode_byte {
            write!(f, ", mode byte {b:02X}")?;
        }
        if let Some(on) = r.focus_on_voice {
            write!(f, ", focus on voice {}", yes_or_no(on))?;
        }
        if let Some(level) = r.ambient_level {
            write!(f, ", level {level}")?;
        }
        if let Some(on) = r.adaptive {
            write!(f, ", adaptive {}", yes_or_no(on))?;
        }
        if let Some(sensitivity) = r.adaptive_sensitivity {
            write!(f, ", sensitivity {sensitivity}")?;
        }
        Ok(())
    }
}

#[derive(Clone, Copy)]
pub struct Capability {
    pub kind: u8,
    pub report: CapabilityReport,
}

impl fmt::Display for Capability {
    fn fmt<W: fmt::Write>(&self, f: &mut fmt::Formatter<W>) -> fmt::Result {
        let Capability { kind, report } = *self;
        let count = report.count;
        write!(
            f,
            "noise control capability of kind {kind:02X}, {}",
            Counted(count, "range")
        )?;
        for range in report.ranges.iter().take(count) {
            let AmbientRange {
                voice,
                min,
                max,
                step,
            } = *range;
            let focus = yes_or_no(voice);
            write!(
                f,
                "{ROW}focus on voice {focus}: level {min} to {max} by {step}"
            )?;
        }
        Ok(())
    }
}
