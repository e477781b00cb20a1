// What the replay programs share: reading the fields of a case, making bytes by a rule, and printing an answer.
// Every place is tested where it is used, so that nothing here asks of its caller more than a closure that may be called.
#![tactic(auto)]

mod input;
mod printing;
mod rule;

pub use input::{Case, answer_all, behind, behind_mut, first, first_mut, read_full, room, set};
pub use printing::{Text, write_all};
pub use rule::{fill, mix, mix_bytes};
