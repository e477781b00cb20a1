// Whether the setting in a slot is on.
ghost use Rattle.std.specs.Prelude.{◌≡◌};
ghost use Rattle.payload.specs.Setting.{setting_of};
ghost use Rattle.base.specs.Refusal.{outcome_of};

use frame::Refusal;
use reading::GS_BOOLEAN_TYPE;

// On is zero.
const GS_ON: u8 = 0x00;

const GS_OFF: u8 = 0x01;

#[derive(Clone, Copy, Debug, PartialEq, Eq)]
pub struct GeneralSettingParam {
    pub slot: u8,
    pub enabled: bool,
}

#[tactic(auto, unfolding(crate::specs::Setting::setting_of, crate::specs::Setting::setting_contents, reading::specs::Reading::reading_of, reading::specs::Items::walk))]
pub fn decode_general_setting_param(payload: &[u8]) -> Result<GeneralSettingParam, Refusal>
    ensures { outcome_of result ≡ setting_of payload.now }
{
    match *payload {
        [_, slot, GS_BOOLEAN_TYPE, GS_ON] => Ok(GeneralSettingParam {
            slot,
            enabled: true,
        }),
        [_, slot, GS_BOOLEAN_TYPE, GS_OFF] => Ok(GeneralSettingParam {
            slot,
            enabled: false,
        }),
        [_, _, _, _] => Err(Refusal::OtherMessage),
        [_, _, ..] => Err(Refusal::WrongLength),
        _ => Err(Refusal::WrongKind),
    }
}
