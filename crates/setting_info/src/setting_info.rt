// The name and the summary of the setting in a slot.
ghost use Rattle.std.specs.Prelude.{◌≡◌};
ghost use Rattle.setting_info.specs.SettingInfo.{info_of};
ghost use Rattle.base.specs.Refusal.{outcome_of};

use frame::Refusal;
use text::count_characters;

const GS_BOOLEAN_TYPE: u8 = 0x00;
// The last of the two string formats.
const GS_ENUM_NAME: u8 = 0x01;

// A text by its offset in the payload, its length in bytes and its characters.
#[derive(Clone, Copy)]
pub struct SettingText {
    pub offset: usize,
    pub len: usize,
    pub characters: usize,
}

#[derive(Clone, Copy)]
pub struct GeneralSetting {
    pub slot: u8,
    pub name: SettingText,
    pub summary: SettingText,
}

pub fn decode_general_setting_info(payload: &[u8]) -> Result<GeneralSetting, Refusal>
    ensures { outcome_of result ≡ info_of payload.now }
{
    let len = payload.len();
    if len < 2 {
        return Err(Refusal::WrongKind);
    }
    if len < 6 {
        return Err(Refusal::WrongLength);
    }
    let name_len = payload[4] as usize;
    let name_end = 5 + name_len;
    if len <= name_end {
        return Err(Refusal::WrongLength);
    }
    let summary_len = payload[name_end] as usize;
    let summary = name_end + 1;
    if len - summary != summary_len {
        return Err(Refusal::WrongLength);
    }
    if payload[2] != GS_BOOLEAN_TYPE {
        return Err(Refusal::OtherMessage);
    }
    if payload[3] > GS_ENUM_NAME {
        return Err(Refusal::OtherMessage);
    }
    let name_characters = count_characters(&payload[5..name_end]).ok_or(Refusal::NotText)?;
    let summary_characters = count_characters(&payload[summary..len]).ok_or(Refusal::NotText)?;
    Ok(GeneralSetting {
        slot: payload[1],
        name: SettingText {
            offset: 5,
            len: name_len,
            characters: name_characters,
        },
        summary: SettingText {
            offset: summary,
            len: summary_len,
            characters: summary_characters,
        },
    })
}
