// What a payload is, and the walk over its counted items: under every reading.
#![tactic(auto)]

mod items;
mod message;

pub use items::items_end;
pub use message::Message;

// The type of a setting that is on or off, both where its value is told and where its texts are.
pub const GS_BOOLEAN_TYPE: u8 = 0x00;
