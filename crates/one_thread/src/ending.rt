//! The state of all goroutines at the end of a run.

ghost use Rattle.std.specs.Prelude.{◌≡◌, ◌<◌, ◌^◌, ◌≤◌, ℕ, IfNone, IfOk, IfSome, None, Some};
ghost use Rattle.word.specs.Related.{kind_of};
ghost use Rattle.word.specs.Worlds.{end_of, moment};
ghost use Rattle.one_thread.specs.Worlds.{IsLast};
ghost use Rattle.whole_run.specs.Runs.{IsWhole};

use crate::goroutine::Goroutine;
use crate::interpreter::Interpreter;
use crate::running::{one_move, opening};
use go_text::Fault;
use logical_clock::Key;
use reference_world::Shared;
use std::alloc::Global;
use word::Write;
use word::end::End;

/// A run that has ended.
#[derive(Drop)]
pub struct Ended<S: Drop> {
    /// How it ended.
    pub end: End,
    /// The goroutine that had the last turn, and at which clock; none if no goroutine was awake.
    pub turn: Option<Key>,
    /// All goroutines that had not ended, goroutine n at index n.
    pub goroutines: Vec<Option<Goroutine<S>>>,
}

/// Like `run`, but makes at most `most` moves, and returns the state of all goroutines at the end of the run; none if it does not end
/// in fewer moves.
///
/// Errors: `Write`; `Memory`.
pub fn last_moment<P: Interpreter, W: Write>(
    alloc: Global,
    program: &P,
    limit: u64,
    most: u64,
    output: &mut W,
) -> Result<Option<Ended<P::State>>, Fault>
    requires { limit ≤ 2 ^ 62 }
    ensures whole { IfOk result (λ seen. IfSome seen (λ last. IsWhole (kind_of (P.parts program.now)) limit (W.contents output.old) (W.contents output.new) last.end)) }
    ensures lasts { IfOk result (λ seen. IfNone seen ((n : ℕ) → n < most → end_of (moment (kind_of (P.parts program.now)) limit n) ≡ None)) }
    ensures last { IfOk result (λ seen. IfSome seen (λ last. IsLast (kind_of (P.parts program.now)) (P.held program.now) limit last.turn last.goroutines.items)) }
{
    let mut goroutines = opening(alloc, program)?;
    let mut shared = Shared::new(alloc)?;
    for count in 0..most {
        let _so_far = count;
        let Some(turn) = goroutines.least() else {
            return Ok(Some(deserted(goroutines.into_all())));
        };
        let made = one_move(alloc, program, &mut goroutines, &mut shared, limit, output)?;
        if let Some(end) = made.ending() {
            return Ok(Some(stopped(end, turn, goroutines.into_all())));
        }
    }
    Ok(None)
}

/// No goroutine is awake.
fn deserted<S: Drop>(goroutines: Vec<Option<Goroutine<S>>>) -> Ended<S>
    ensures end { result.end ≡ End.Deadlock }
    ensures turn { result.turn ≡ None }
    ensures goroutines { result.goroutines ≡ goroutines }
{
    Ended {
        end: End::Deadlock,
        turn: None,
        goroutines,
    }
}

/// The run has ended so, in this turn.
fn stopped<S: Drop>(end: End, turn: Key, goroutines: Vec<Option<Goroutine<S>>>) -> Ended<S>
    ensures end { result.end ≡ end }
    ensures turn { result.turn ≡ Some turn }
    ensures goroutines { result.goroutines ≡ goroutines }
{
    Ended {
        end,
        turn: Some(turn),
        goroutines,
    }
}
