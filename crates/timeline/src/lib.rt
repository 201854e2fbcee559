//! Pictures of a run: its events as a drawing, and as a trace that viewers of traces open.
#![tactic(auto)]

mod arrows;
mod drawing;
mod format;
mod json;
mod key;
mod label;
mod lane_drawing;
mod lanes;
mod marks;
mod moves;
mod names;
mod pauses;
mod recording;
mod scale;
mod waits;
mod window;
mod writing;

pub use format::Format;
pub use lanes::Lanes;
pub use moves::{Transfer, transfer_of};
pub use names::{ItemForm, Mention};
pub use recording::{Notes, Pause, Recording, Site};
pub use window::Window;
