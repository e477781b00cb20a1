// What a headset calls a setting: its name and a summary, both as text.
#![tactic(auto)]

mod setting_info;

pub use setting_info::{GeneralSetting, SettingText, decode_general_setting_info};
