// Of the readings of a payload.
ghost use Rattle.std.specs.Prelude.{◌≡◌};
ghost use Rattle.telling.specs.Told.{told, only};
ghost use Rattle.numbers.specs.Numbers.{message_numbers, battery_numbers, noise_numbers, device_numbers, setting_numbers, info_numbers, list_numbers, within_numbers, character_numbers};

use crate::answers::Told;
use numbers::{battery, byte_or, device, flag, noise, setting_info};
use paired::PairedDevice;
use payload::{BatteryReport, GeneralSettingParam, Message, NoiseReport};
use range::AmbientRange;
use setting_info::GeneralSetting;
use support::SupportList;
use telling::{tell, tell_two};

impl Told for Message {
    ghost numbers = { message_numbers };

    fn tell(self, values: &mut [u64]) {
        let numbers = [self.command as u64, byte_or(self.kind), self.len as u64];
        tell(&numbers, values);
    }
}

impl Told for BatteryReport {
    ghost numbers = { battery_numbers };

    fn tell(self, values: &mut [u64]) {
        tell(&battery(self), values);
    }
}

impl Told for NoiseReport {
    ghost numbers = { noise_numbers };

    fn tell(self, values: &mut [u64]) {
        tell(&noise(self), values);
    }
}

// How many devices there are.
impl Told for u8 {
    ghost numbers = { only };

    fn tell(self, values: &mut [u64]) {
        tell(&[self as u64], values);
    }
}

impl Told for PairedDevice {
    ghost numbers = { device_numbers };

    fn tell(self, values: &mut [u64]) {
        tell(&device(self), values);
    }
}

impl Told for SupportList {
    ghost numbers = { list_numbers };

    fn tell(self, values: &mut [u64]) {
        tell(&[self.count as u64], values);
    }
}

impl Told for GeneralSettingParam {
    ghost numbers = { setting_numbers };

    fn tell(self, values: &mut [u64]) {
        tell(&[self.slot as u64, flag(self.enabled)], values);
    }
}

impl Told for GeneralSetting {
    ghost numbers = { info_numbers };

    fn tell(self, values: &mut [u64]) {
        tell(&setting_info(self), values);
    }
}

impl Told for Option<AmbientRange> {
    ghost numbers = { within_numbers };

    fn tell(self, values: &mut [u64]) {
        match self {
            Some(r) => tell(&[1, r.min as u64, r.max as u64, r.step as u64], values),
            None => tell(&[0], values),
        }
    }
}

const NO_TEXT: [u64; 1] = [0];

// Of bytes of any length, which are never refused.
pub fn characters_told(characters: Option<usize>, values: &mut [u64])
    ensures { values.new ≡ told (character_numbers characters) values.old }
{
    match characters {
        Some(n) => tell_two(1, n as u64, values),
        None => tell(&NO_TEXT, values),
    }
}
