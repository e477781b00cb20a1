// What the exported calls tell of an answer: a status, and numbers.
#![tactic(auto)]

mod answers;
mod frames;
mod logs;
mod readings;

pub use answers::{Told, answer_told, status};
pub use logs::line_read_told;
pub use readings::characters_told;
