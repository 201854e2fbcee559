//! How an end may be reproduced in real Go.

use crate::runner::Runner;
use crate::scene::Scene;
use crate::shrink::Wanted;
use go_text::Memory;
use local_states::Wish;
use pauses::Change;
use program_states::Space;
use schedule::{Delay, Lateness, late_delays, plan_of};

/// What may reproduce an end that one pause leads to in real Go.
#[derive(Clone, Copy, PartialEq, Eq)]
pub(crate) enum Hint {
    /// Nothing is known.
    Nothing,
    /// A `time.Sleep` before this line: a run in which each goroutine that comes there is late ends in the same way.
    Sleep(u32),
    /// The goroutine of the pause has to be late there, and not each that comes there.
    Alone,
}

/// The goroutines that come to a request in this line are late.
#[derive(Clone, Copy)]
struct AtLine<'s> {
    scene: Scene<'s>,
    line: u32,
    /// Whether only the first time counts, since the line is that of a loop.
    is_loop: bool,
}

impl Lateness for AtLine<'_> {
    fn is_late(&self, space: &Space<'_>, local: u32, is_first: bool) -> bool {
        let frames = space.locals().frames(local);
        let line = frames.last().map(|frame| self.scene.position(frame).line);
        line == Some(self.line) && (is_first || !self.is_loop)
    }
}

/// What may reproduce an end that a run of about `length` events and ticks with these delays shows: a sleep before the line of the only
/// delay, if a run in which each goroutine that comes there waits ends as it is wanted.
///
/// Errors: out of memory.
pub(crate) fn hint_for(
    runner: &Runner<'_>,
    scene: Scene<'_>,
    space: &mut Space<'_>,
    wanted: &Wanted,
    delays: &[Delay],
    length: u64,
) -> Result<Hint, Memory> {
    let [delay] = delays else {
        return Ok(Hint::Nothing);
    };
    let Change::Wait(_) = delay.change else {
        return Ok(Hint::Nothing);
    };
    let Some(late) = line_of(scene, space, *delay) else {
        return Ok(Hint::Alone);
    };
    let wait = length.saturating_mul(4).saturating_add(1_000);
    let Some(delays) = late_delays(scene.alloc, space, &late, wait)? else {
        return Ok(Hint::Alone);
    };
    let plan = plan_of(scene.alloc, space.locals().goroutines(), delays.as_slice())?;
    match runner.run(&plan)? {
        Some(run) if run.ran.is(space, wanted.ending, wanted.output)? => Ok(Hint::Sleep(late.line)),
        _ => Ok(Hint::Alone),
    }
}

/// The line of a delay, if a statement can stand before it.
fn line_of<'s>(scene: Scene<'s>, space: &Space<'_>, delay: Delay) -> Option<AtLine<'s>> {
    let local = space.locals().local(delay.local)?;
    if matches!(local.wish, Wish::End) {
        return None;
    }
    let frame = space.locals().frames(delay.local).last()?;
    let line = scene.position(frame).line;
    let text = scene.line(line)?.trim();
    let is_inner = ["}", "case ", "default:"]
        .iter()
        .any(|word| text.starts_with(*word));
    if is_inner {
        return None;
    }
    Some(AtLine {
        scene,
        line,
        is_loop: text.starts_with("for "),
    })
}
