// The battery levels that a message reports.
#![tactic(auto)]

mod battery;

pub use battery::{BatteryReport, Cell, Charging, decode_battery};
