// What can be said of held bytes without the scanner's state: their first span, and letting bytes go.
#![tactic(auto)]

mod going;
mod search;

pub use going::let_go;
pub use search::{Sight, Spot, seek};
