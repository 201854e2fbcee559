//! The machine of one goroutine.
#![tactic(auto)]

ghost use Rattle.std.specs.Prelude.{ℕ};
ghost use Rattle.bytecode.specs.Code.{Code};
ghost use Rattle.bytecode.specs.Machine.{Frames};
ghost use Rattle.bytecode.specs.Rules.{IsVerified};
ghost use Rattle.goroutine_vm.specs.Advance.{IsAsk, IsStateOf};
ghost use Rattle.word.specs.Kinds.{Clocked};

mod chosen;
mod frames;
mod sleeping;
mod state;
mod step;
mod talks;
mod told;

pub use call_frame::frame::Frame;
pub use goroutine_vm_request::{RequestLists, Talk};
pub use sleeping::{Room, Sleeping};
pub use state::{GoState, Stop, spawn_state};

/// From every state of verified code local steps alone lead to a request.
pub fn requests_are_reached()
    ensures { (code : Code) (limit : ℕ) (s : Clocked Frames) → IsVerified code → IsStateOf code limit s → (clock : ℕ) × IsAsk code limit s clock }
{}
