//! What needs no code: the run of a program by the interpreter, with and without pauses, and the report on its end.
#![tactic(auto)]

mod agreement;
mod explanation;
mod interpretation;
mod noting;
mod pausing;

pub use agreement::runs_agree;
pub use explanation::{explain_end, explain_end_by_plan};
pub use interpretation::reference_bytes;
pub use noting::{paused_bytes_noting, traced_bytes_noting};
pub use pausing::{paused_bytes, traced_bytes};
