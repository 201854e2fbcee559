//! The parts of a pool's workers that don't depend on a book.
#![tactic(auto)]

mod ends;
mod gate;
mod pace;
mod signals;
mod trace_writer;
mod turn;
mod work_queues;

pub use gate::Gate;
pub use pace::Pace;
pub use signals::Signals;
pub use trace_writer::TraceWriter;
pub use turn::{Back, Turn};
pub use work_queues::{CAPACITY, WorkQueues};
