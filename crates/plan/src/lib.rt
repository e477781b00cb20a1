// Plans: which decoder reads a payload.
#![tactic(auto)]

mod plan;

pub use plan::{entry, house_plan, plan_fine};
