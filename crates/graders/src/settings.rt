// The readings of a setting in words: whether it is on, and what the headset calls it.
use crate::say::{ROW, part};
use crate::shown::Name;
use payload::GeneralSettingParam;
use setting_info::{GeneralSetting, SettingText};
use std::fmt;

#[derive(Clone, Copy)]
pub struct Setting(pub GeneralSettingParam);

impl fmt::Display for Setting {
    fn fmt<W: fmt::Write>(&self, f: &mut fmt::Formatter<W>) -> fmt::Result {
        let GeneralSettingParam { slot, enabled } = self.0;
        let state = if enabled { "on" } else { "off" };
        write!(f, "setting of slot {slot:02X} {state}")
    }
}

#[derive(Clone, Copy)]
pub struct SettingTexts<'a> {
    pub setting: GeneralSetting,
    pub payload: &'a [u8],
}

impl<'a> SettingTexts<'a> {
    // The decoder takes none that is no text.
    fn text(&self, t: SettingText) -> Name<'a> {
        Name {
            bytes: part(self.payload, t.offset, t.len),
            characters: Some(t.characters),
        }
    }
}

impl fmt::Display for SettingTexts<'_> {
    fn fmt<W: fmt::Write>(&self, f: &mut fmt::Formatter<W>) -> fmt::Result {
        let GeneralSetting {
            slot,
            name,
            summary,
        } = self.setting;
        write!(f, "setting of slot {slot:02X}")?;
        write!(f, "{ROW}name {}", self.text(name))?;
        write!(f, "{ROW}summary {}", self.text(summary))
    }
}
