//! The one-thread run of goroutines of any kind: the awake goroutine of least clock, and at one clock of least number,
//! always moves.
#![tactic(auto)]

mod ending;
mod goroutine;
mod history;
mod interpreter;
mod move_kind;
mod places;
mod running;
mod snapshot;

pub use ending::{Ended, last_moment};
pub use goroutine::Goroutine;
pub use history::{OpenRun, next_event, open_run};
pub use interpreter::{Interpreter, Step};
pub use running::run;
pub use snapshot::{Snapshot, Until, run_until};
