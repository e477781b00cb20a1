// Splits a byte stream into frames: the caller lends the store; the state goes by value, or is lent too.
#![tactic(auto)]

mod going;
mod lent;
mod scanner;
mod skipping;
mod taking;

pub use cutting::Moved;
pub use held::{Sight, seek};
pub use scanner::{Opened, Pushed, Scanner, advance, check, fresh, open, push};
pub use skipping::{Skipped, skip};
pub use taking::{Taken, take};
