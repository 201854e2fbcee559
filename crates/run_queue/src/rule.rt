//! The rule of the queue, and the steps that keep it.

use crate::view::View;
use crossbeam_queue::protocol::{Join, Lesson, Outcome, Protocol, Split};

/// What was put is what was taken and what the queue holds.
pub struct InTurn;

impl<T> Protocol<T, View<T>> for InTurn {
    ghost use Rattle.run_queue.specs.Turns.{Kept, whole};

    ghost holds = { Kept };

    ghost first = { whole };
}

/// One push, or none at a full queue.
pub struct Puts;

impl<T> Outcome<T, View<T>> for Puts {
    ghost use Rattle.run_queue.specs.Turns.{PutsOne};

    ghost then = { PutsOne };
}

impl<T> Lesson<T, View<T>> for Puts {
    ghost use Rattle.run_queue.specs.Turns.{PutsAfter};

    ghost fact = { PutsAfter };
}

/// One pop, or none at an empty queue.
pub struct Takes;

impl<T> Outcome<T, View<T>> for Takes {
    ghost use Rattle.run_queue.specs.Turns.{TakesOne};

    ghost then = { TakesOne };
}

impl<T> Lesson<T, View<T>> for Takes {
    ghost use Rattle.run_queue.specs.Turns.{TakesBefore};

    ghost fact = { TakesBefore };
}

/// The first pass, which may do all, is cut into the one that puts and one that takes.
pub struct Ends;

impl<T> Split<View<T>> for Ends {
    ghost use Rattle.run_queue.specs.Turns.{putting, taking};

    ghost left = { putting };

    ghost right = { taking };
}

/// A further pass that takes.
pub struct Further;

impl<T> Split<View<T>> for Further {
    ghost use Rattle.run_queue.specs.Turns.{shared, further};

    ghost left = { shared };

    ghost right = { further };
}

/// What a pass knows, for another one.
pub struct Told;

impl<T> Split<View<T>> for Told {
    ghost use Rattle.run_queue.specs.Turns.{note};

    ghost left = { λ v. v };

    ghost right = { note };
}

impl<T> Join<View<T>> for Told {
    ghost use Rattle.run_queue.specs.Turns.{told_put, spent};

    ghost both = { told_put };

    ghost spent = { spent };
}

/// What a pass that takes knows, for the one that puts.
pub struct Gone;

impl<T> Join<View<T>> for Gone {
    ghost use Rattle.run_queue.specs.Turns.{told_gone, spent};

    ghost both = { told_gone };

    ghost spent = { spent };
}
