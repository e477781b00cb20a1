// What everything else stands on: refusals, data types, the checksum, blocks of bytes, and writing to a lent output.
#![tactic(auto)]

mod block;
mod data_type;
mod refusal;
mod sum;
mod writing;

pub use block::block_end;
pub use data_type::DataType;
pub use refusal::Refusal;
pub use sum::checksum;
pub use writing::{wipe, wipe_from};
