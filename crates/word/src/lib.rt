//! Words, requests and what each of them does; worlds of goroutines of any kind; and writers that remember a failure.
#![tactic(auto)]

ghost use Rattle.std.specs.Prelude.{List, ℕ};
ghost use Rattle.turn_rule.specs.Schedule.{Laws};
ghost use Rattle.word.specs.Closing.{IsShut};
ghost use Rattle.word.specs.Flow.{InOrder};
ghost use Rattle.word.specs.Kinds.{Next};
ghost use Rattle.word.specs.Related.{IsKept, Parts, kind_of};
ghost use Rattle.word.specs.Rising.{IsRising};
ghost use Rattle.word.specs.Values.{Reply, Word};
ghost use Rattle.word.specs.Worlds.{Equal, moment, rules};
ghost use Rattle.word.specs.Zeros.{IsZeroLast};

pub mod apply;
pub mod end;
pub mod limits;
pub mod offer;
pub mod panic;
pub mod request;
pub mod text;
pub mod value;
pub mod write;

pub use write::{Flagged, ShortWrite, Write, WriteFault, write_all};

/// The laws that make a turn stable hold of every kind of state: a local step lowers no clock, and a state that makes a
/// request has no local step.
pub fn kinds_have_laws<S>()
    ensures { (next : S → Next S) (answer : S → Reply → S) (begin : ℕ → List Word → S) (main limit : ℕ) → Laws (rules (record { State = S; next = next; answer = answer; begin = begin; main = main }) limit) }
{}

/// Two kinds whose states are related step by step, a pair of related states being a P, have the same events, outputs and ends.
pub fn related_kinds_are_equal<S, T, P>()
    ensures { (K : Parts S) (M : Parts T) (left : P → S) (right : P → T) → IsKept K M left right → Equal (kind_of K) (kind_of M) }
{}

/// At every moment each channel has delivered what it accepted, once and in order, but for what is in its buffer; one
/// sender's items in the order in which they were offered; nothing is accepted after a close; and zero with false is
/// given only in or after a close, when all that was accepted was received.
pub fn channels_deliver_in_order<S>()
    ensures order { (K : Parts S) (limit n : ℕ) → InOrder (moment (kind_of K) limit n).shared.shared }
    ensures rising { (K : Parts S) (limit n : ℕ) → IsRising (moment (kind_of K) limit n).shared.shared }
    ensures shut { (K : Parts S) (limit n : ℕ) → IsShut (moment (kind_of K) limit n).shared.shared }
    ensures zero { (K : Parts S) (limit n : ℕ) → IsZeroLast (moment (kind_of K) limit n).shared.shared }
{}
