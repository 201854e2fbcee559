//! Whether a plan can be read again from its file.

ghost use Rattle.std.specs.Prelude.{◌≡◌, ◌↔◌, [], IsTrue};
ghost use Rattle.pauses.specs.Files.{IsPlan};
ghost use Rattle.pauses.specs.Plans.{pause_of, pauses_of};
ghost use Rattle.pauses.specs.Tests.{are_numbers, are_pauses, is_change, is_number, is_pause, is_way};

use crate::number::BOUND;
use crate::plan::{Change, Pause, Plan};
use crate::reading::has_rival;

impl Plan {
    /// Whether `read` reads this plan again from what `bytes` and `bytes_with` write: its numbers are from 1 on and have at most 18
    /// digits, none of its ways is empty, and no two pauses change the same thing of one request.
    pub fn is_valid(&self) -> bool
        ensures { IsTrue result ↔ IsPlan (pauses_of self.now.pauses.items) }
    {
        are_pauses(self.pauses.as_slice())
    }
}

/// Whether each can be written, and none changes the same thing as one before it.
fn are_pauses(pauses: &[Pause]) -> bool
    ensures { result ≡ are_pauses [] (pauses_of pauses.now) }
{
    for (index, pause) in pauses.iter().enumerate() {
        if !is_pause(pause) || has_rival(&pauses[..index], pause) {
            return false;
        }
    }
    true
}

/// Whether a plan's file can have this pause.
fn is_pause(pause: &Pause) -> bool
    ensures { result ≡ is_pause (pause_of pause.now) }
{
    is_way(pause.way.as_slice()) && is_number(pause.request) && is_change(pause.change)
}

/// Whether a plan's file can have this way.
fn is_way(way: &[u64]) -> bool
    ensures { result ≡ is_way way.now }
{
    !way.is_empty() && are_numbers(way)
}

/// Whether a plan's file can have these numbers.
fn are_numbers(numbers: &[u64]) -> bool
    ensures { result ≡ are_numbers numbers.now }
{
    for number in numbers {
        if !is_number(*number) {
            return false;
        }
    }
    true
}

/// Whether a plan's file can have this change.
fn is_change(change: Change) -> bool
    ensures { result ≡ is_change change }
{
    match change {
        Change::Wait(ticks) => is_number(ticks),
        Change::Clause(clause) => is_number(clause),
    }
}

/// Whether a plan's file can have this number.
fn is_number(number: u64) -> bool
    ensures { result ≡ is_number number }
{
    0 < number && number < BOUND
}
