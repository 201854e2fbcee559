//! What single instructions want on the operand stack and leave on it, where they lead, and which rules they violate by themselves.
#![tactic(auto)]

mod effect;
mod scan;
mod ways;

pub use effect::{broken_rule, following, operands_at};
pub use scan::first_broken;
pub use ways::{way, way_count};
