// The payload of a frame: its message, and the readings of fixed length.
#![tactic(auto)]

mod setting;

pub use battery::{BatteryReport, Cell, Charging, decode_battery};
pub use noise::{NoiseMode, NoiseReport, decode_noise};
pub use reading::Message;
pub use setting::{GeneralSettingParam, decode_general_setting_param};
