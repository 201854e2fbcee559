//! Pauses: plans that let a goroutine wait before one of its requests, or try a clause of a select first; their files, and the kind
//! of goroutine that keeps to a plan.
#![tactic(auto)]

mod checksum;
mod error;
mod header;
mod laws;
mod line;
mod lookup;
mod number;
mod plan;
mod reading;
mod select;
mod validity;
mod way;
mod writing;

pub use checksum::Checksum;
pub use error::PlanError;
pub use header::PlanHeader;
pub use laws::{
    headed_plans_are_read_again, headers_are_read_again, paused_goroutines_keep_requests,
    plans_are_read_again,
};
pub use plan::{Change, Pause, Plan};
pub use select::{alone, thinned};
pub use way::{way_in, way_to, with_way};
