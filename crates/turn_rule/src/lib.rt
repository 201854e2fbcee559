//! The rule of the turn, for any kind of goroutine: whoever runs ahead of its turn, what is performed is performed in
//! the order of the run in which the awake goroutine of least key always moves.
#![tactic(auto)]

ghost use Rattle.std.specs.Prelude.{List, ℕ};
ghost use Rattle.turn_rule.specs.Schedule.{IsPrefixOf, Laws, Records, Stable};
ghost use Rattle.turn_rule.specs.Turns.{Rules, World, run};

mod standing;

use logical_clock::Clock;
pub use standing::{Standing, has_turn, least};

/// What is known of a goroutine that is lent.
#[derive(Drop)]
pub struct Lease<S> {
    pub present: S,
    pub published: Clock,
}

/// An awake goroutine.
#[derive(Drop)]
pub struct Row<S> {
    pub state: S,
    pub floor: Clock,
    pub lease: Option<Lease<S>>,
    pub parked: bool,
}

/// A step of a schedule, on the goroutine of this number.
#[derive(Clone, Copy)]
pub enum Step {
    Lend(u64),
    Local(u64),
    Publish(u64),
    Look(u64),
    Return(u64),
    Settle,
}

/// Whatever the schedule, what is shared is what the one-thread run shares after some number of moves.
pub fn turns_are_stable<S, W>()
    ensures { (r : Rules S W) → Laws r → Stable r }
{}

/// The events after some number of moves begin the events after more moves.
pub fn events_only_grow<S, W, E>()
    ensures { (r : Rules S W) (events : W → List E) → Records r events → (n : ℕ) (w : World S W) → IsPrefixOf (events w.shared) (events (run r n w).shared) }
{}
