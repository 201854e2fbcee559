//! What the run needs of a kind of goroutine.

ghost use Rattle.std.specs.Prelude.{◌≡◌, ℕ, List, IfOk, OnOk};
ghost use Rattle.word.specs.Related.{Falls, Parts};
ghost use Rattle.word.specs.Views.{reply_of};
ghost use Rattle.one_thread.specs.Steps.{Moves};

use go_text::Memory;
use std::alloc::Global;
use word::request::{Reply, Request};
use word::value::Word;

/// What a goroutine does next.
#[derive(Drop)]
pub enum Step {
    /// A step that costs nothing.
    Slides,
    /// A step that costs one.
    Ticks,
    /// A request.
    Asks(Request),
}

/// A kind of goroutine, and how its states are kept in memory.
pub trait Interpreter {
    type State: Drop;

    // The states as the definitions have them.
    ghost Held: { Type 0 };

    // The kind.
    ghost parts: { Self → Parts Held };

    // The state that is kept so.
    ghost held: { Self → Self.State → Held };

    // What a state weighs: less after each step that costs nothing.
    ghost weight: { Self → Held → ℕ };

    /// The next step of a goroutine. One that makes a request stays as it is.
    fn step(&self, alloc: Global, state: &mut Self::State) -> Result<Step, Memory>
        ensures { IfOk result (λ step. Moves ((parts self.now).next (held self.now state.old)) step (held self.now state.new) (held self.now state.old)) };

    /// Gives a goroutine the reply to its request.
    fn answer(&self, alloc: Global, state: &mut Self::State, reply: Reply) -> Result<(), Memory>
        ensures { OnOk result (held self.now state.new ≡ (parts self.now).answer (held self.now state.old) (reply_of reply)) };

    /// A goroutine at the beginning of the function of this number.
    fn begin(&self, alloc: Global, function: u32, arguments: &[Word]) -> Result<Self::State, Memory>
        ensures { IfOk result (λ state. held self.now state ≡ (parts self.now).begin function arguments.now) };

    /// The number of `main`.
    fn main(&self) -> u32
        ensures { result ≡ (parts self.now).main };

    ghost falls: { (program : Self) (state : Held) → Falls (weight program) (weight program state) ((parts program).next state) };
}
