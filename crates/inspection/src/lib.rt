//! What is shown of a moment of a run: each goroutine with its calls and variables, and each channel that is in use.
#![tactic(auto)]

mod calls;
mod channels;
mod doing;
mod moment;
mod rows;
mod scene;
pub mod values;

pub use moment::shown_moment;
pub use rows::{Row, paused_rows, plain_rows};
pub use scene::Scene;
