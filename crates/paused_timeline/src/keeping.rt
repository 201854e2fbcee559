//! The events that are kept of a run.

ghost use Rattle.std.specs.Prelude.{◌≡◌, ◌≤◌, ◌⊎◌, [], IfNone, IfOk, IfSome, IsTrue, length, map};
ghost use Rattle.std.specs.Option.{is_some};
ghost use Rattle.event_window.specs.Windows.{AreNext, AreRest, Shows};
ghost use Rattle.one_thread.specs.Histories.{HasHad, IsReady};
ghost use Rattle.word.specs.Related.{kind_of};
ghost use Rattle.word.specs.Views.{event_of};

use crate::sited::{Noting, Sited};
use event_window::{Kept, Latest};
use go_text::Memory;
use one_thread::{Interpreter, OpenRun, next_event};
use std::alloc::Global;
use timeline::Window;

/// The events of a window of a run that has had none, and its end if it has no more after them. What else a picture shows is noted.
pub(crate) fn keep<'t, P: Interpreter>(
    alloc: Global,
    program: &P,
    noting: &mut Noting<'_, 't>,
    run: &mut OpenRun<P::State>,
    window: Window,
    most: usize,
) -> Result<Kept, Memory>
where
    P::State: Sited<'t>,
    requires ready { IsReady run.old }
    requires opened { HasHad (kind_of (P.parts program.now)) (P.held program.now) run.old [] [] }
    ensures next { IfOk result (λ kept. AreNext (kind_of (P.parts program.now)) run.old.limit kept.before (map event_of kept.events.items)) }
    ensures rest { IfOk result (λ kept. IfSome kept.end (AreRest (kind_of (P.parts program.now)) run.old.limit kept.before (map event_of kept.events.items))) }
    ensures shows { IfOk result (λ kept. Shows window most kept.before (length kept.events.items) kept.end) }
    ensures few { IfOk result (λ kept. length kept.events.items ≤ most) }
    ensures cut { IfOk result (λ kept. IfNone kept.end (most ≤ length kept.events.items)) }
{
    match window {
        Window::First => keep_from(alloc, program, noting, run, 0, most),
        Window::From(number) => {
            let skip = number.saturating_sub(1);
            keep_from(alloc, program, noting, run, skip, most)
        }
        Window::Last(number) => {
            let most = most.min(number as usize);
            keep_last(alloc, program, noting, run, most)
        }
    }
}

/// The events after the first `skip` of a run that has had none, at most `most`.
fn keep_from<'t, P: Interpreter>(
    alloc: Global,
    program: &P,
    noting: &mut Noting<'_, 't>,
    run: &mut OpenRun<P::State>,
    skip: u64,
    most: usize,
) -> Result<Kept, Memory>
where
    P::State: Sited<'t>,
    requires ready { IsReady run.old }
    requires opened { HasHad (kind_of (P.parts program.now)) (P.held program.now) run.old [] [] }
    ensures next { IfOk result (λ kept. AreNext (kind_of (P.parts program.now)) run.old.limit kept.before (map event_of kept.events.items)) }
    ensures rest { IfOk result (λ kept. IfSome kept.end (AreRest (kind_of (P.parts program.now)) run.old.limit kept.before (map event_of kept.events.items))) }
    ensures begins { IfOk result (λ kept. (kept.before ≡ skip) ⊎ ((kept.before ≤ skip) × (length kept.events.items ≡ 0) × IsTrue (is_some kept.end))) }
    ensures few { IfOk result (λ kept. length kept.events.items ≤ most) }
    ensures cut { IfOk result (λ kept. IfNone kept.end (most ≤ length kept.events.items)) }
{
    let mut kept = Kept::new(alloc)?;
    // Each event leaves fewer of the 2^62 that a run can have.
    'events: loop {
        if kept.before >= skip && kept.events.len() >= most {
            return Ok(kept);
        }
        let Some(event) = next_event(alloc, program, run)? else {
            return Ok(kept.ended(run.ending()));
        };
        let site = noting.follow(run, &event)?;
        kept.take(event, site, skip)?;
    }
}

/// The last events of a run that has had none, at most `most`, and its end.
fn keep_last<'t, P: Interpreter>(
    alloc: Global,
    program: &P,
    noting: &mut Noting<'_, 't>,
    run: &mut OpenRun<P::State>,
    most: usize,
) -> Result<Kept, Memory>
where
    P::State: Sited<'t>,
    requires ready { IsReady run.old }
    requires opened { HasHad (kind_of (P.parts program.now)) (P.held program.now) run.old [] [] }
    ensures next { IfOk result (λ kept. AreNext (kind_of (P.parts program.now)) run.old.limit kept.before (map event_of kept.events.items)) }
    ensures rest { IfOk result (λ kept. IfSome kept.end (AreRest (kind_of (P.parts program.now)) run.old.limit kept.before (map event_of kept.events.items))) }
    ensures begins { IfOk result (λ kept. (kept.before ≡ 0) ⊎ (length kept.events.items ≡ most)) }
    ensures few { IfOk result (λ kept. length kept.events.items ≤ most) }
    ensures ends { IfOk result (λ kept. IsTrue (is_some kept.end)) }
{
    let mut latest = Latest::new(alloc)?;
    // Each event leaves fewer of the 2^62 that a run can have.
    'events: loop {
        let Some(event) = next_event(alloc, program, run)? else {
            return Ok(latest.ended(run.ending()));
        };
        let site = noting.follow(run, &event)?;
        latest.push(event, site, most)?;
    }
}
