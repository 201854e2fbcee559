//! Where goroutines are, in lines.

use crate::cycle::push_cycles;
use crate::explanation::Report;
use crate::goroutine::{Call, Goroutine};
use crate::notes::Misuse;
use crate::wish::{push_asked, push_clauses, push_in_clause, push_wish};
use diagnostic_words::words::Words;
use go_text::Memory;
use inspection::Scene;
use logical_clock::limits::MAX_GOROUTINES;
use std::alloc::Global;
use word::limits::{MAX_CAPACITY, MAX_CHANNELS, MAX_DEPTH};
use word::panic::Panic;

/// The most lines for the calls of one goroutine.
const MOST_CALLS: usize = 20;

/// The most calls of which a repetition is found: functions that call one another in turn.
const MOST_PERIOD: usize = 4;

/// The units of the groups of three digits of a number, the largest first.
const UNITS: [u64; 7] = [
    1_000_000_000_000_000_000,
    1_000_000_000_000_000,
    1_000_000_000_000,
    1_000_000_000,
    1_000_000,
    1_000,
    1,
];

/// Appends the goroutines of a deadlock: cycles first, and then each one.
pub(crate) fn push_deadlock(said: &mut Words, report: Report<'_, '_>) {
    push_cycles(said, report);
    push_all_waiting(said, report);
    push_more(
        said,
        report.shown.left,
        " more goroutine waits\n",
        " more goroutines wait\n",
    );
}

/// Appends the goroutines that wait forever when `main` has returned.
pub(crate) fn push_forever(said: &mut Words, report: Report<'_, '_>) {
    let count = report.shown.count();
    if count == 0 {
        return;
    }
    said.number(count as i128);
    said.text(if count == 1 {
        " goroutine waits forever\n"
    } else {
        " goroutines wait forever\n"
    });
    push_all_waiting(said, report);
    push_more(
        said,
        report.shown.left,
        " more goroutine\n",
        " more goroutines\n",
    );
}

/// Appends the goroutines that are printed, all of which wait.
fn push_all_waiting(said: &mut Words, report: Report<'_, '_>) {
    for index in report.shown.indices.iter() {
        if let Some(goroutine) = report.moment.goroutines.get(*index) {
            push_waiting(said, report, goroutine);
        }
    }
}

/// The goroutine of an end that one goroutine brought about.
fn acting<'a>(report: Report<'a, '_>) -> Option<&'a Goroutine> {
    let index = report.shown.indices.first()?;
    report.moment.goroutines.get(*index)
}

/// Appends the goroutine that panicked, with the cause; of the misuse of a closed channel also where it was closed.
pub(crate) fn push_panic(said: &mut Words, report: Report<'_, '_>, cause: &str, panic: Panic) {
    let Some(goroutine) = acting(report) else {
        return;
    };
    push_timed(said, report, " panics at clock ", goroutine);
    said.text(": ");
    said.text(cause);
    push_bound(said, panic);
    let misuse = report.moment.notes.misuse();
    if let Some(misuse) = misuse {
        said.text(": ");
        push_misused(said, report, goroutine, misuse);
    }
    said.text("\n");
    push_place(said, report, goroutine);
    if let Some(misuse) = misuse {
        push_close(said, report, misuse);
    }
}

/// Appends the channel that a goroutine sent to or closed although it was closed.
fn push_misused(said: &mut Words, report: Report<'_, '_>, goroutine: &Goroutine, misuse: Misuse) {
    let channel = Some(misuse.channel);
    if misuse.clause == 0 {
        push_asked(said, report, goroutine, channel);
    } else {
        push_in_clause(said, report, goroutine, misuse.clause, channel);
    }
}

/// Appends where a channel was closed, and by whom, with the line of the source.
fn push_close(said: &mut Words, report: Report<'_, '_>, misuse: Misuse) {
    let Some(closer) = report.moment.notes.closer(misuse.channel) else {
        return;
    };
    let Some(call) = closer.call else {
        return;
    };
    said.text(if misuse.waited {
        "closed while it waited, by goroutine "
    } else {
        "closed before by goroutine "
    });
    said.number(i128::from(closer.number));
    said.text(" (");
    report.scene.push_function(said, call.function);
    said.text(") at ");
    report.scene.push_location(said, call.node);
    said.text("\n");
    report.scene.push_excerpt(said, call.node);
}

/// Appends the goroutine that came to the clock limit first.
pub(crate) fn push_exhausted(said: &mut Words, report: Report<'_, '_>, limit: u64) {
    let Some(goroutine) = acting(report) else {
        return;
    };
    push_timed(said, report, " has reached clock ", goroutine);
    said.text(": logical time exhausted (the limit is ");
    push_thousands(said, limit);
    said.text("; --limit sets another one)\n");
    push_place(said, report, goroutine);
}

/// Appends a goroutine that waits, and what for.
fn push_waiting(said: &mut Words, report: Report<'_, '_>, goroutine: &Goroutine) {
    push_timed(said, report, " waits since clock ", goroutine);
    said.text(": ");
    push_wish(said, report, goroutine);
    said.text("\n");
    push_place(said, report, goroutine);
}

/// Appends the line of the source that a goroutine is at, with marks, the clauses of the `select` that it waits at, if it does, its variables
/// and its calls.
fn push_place(said: &mut Words, report: Report<'_, '_>, goroutine: &Goroutine) {
    if let Some(call) = goroutine.last() {
        report.scene.push_excerpt(said, call.node);
    }
    push_clauses(said, report, goroutine);
    said.bytes(goroutine.variables.as_slice());
    push_calls(said, report.scene, goroutine);
}

/// Appends `goroutine N (FUNCTION, started at LINE:COLUMN) DOES C: FILE:LINE:COLUMN`, where C is the goroutine's clock.
fn push_timed(said: &mut Words, report: Report<'_, '_>, does: &str, goroutine: &Goroutine) {
    push_goroutine(said, report, goroutine);
    said.text(does);
    said.number(i128::from(goroutine.clock));
    said.text(": ");
    if let Some(call) = goroutine.last() {
        report.scene.push_location(said, call.node);
    }
}

/// Appends `goroutine N (FUNCTION, started at LINE:COLUMN)`.
fn push_goroutine(said: &mut Words, report: Report<'_, '_>, goroutine: &Goroutine) {
    said.text("goroutine ");
    said.number(i128::from(goroutine.number));
    said.text(" (");
    if let Some(call) = goroutine.last() {
        report.scene.push_function(said, call.function);
    }
    if let Some(started) = report.moment.notes.started(goroutine.number) {
        said.text(", started at ");
        report.scene.push_position(said, started.node);
    }
    said.text(")");
}

/// Appends which bound of a run a panic has met, if it has met one.
fn push_bound(said: &mut Words, panic: Panic) {
    match panic {
        Panic::ChannelSize => push_number_between(said, " (sizes are 0 to ", MAX_CAPACITY, ")"),
        Panic::CallDepth => {
            push_number_between(said, " (at most ", MAX_DEPTH as u64, " calls deep)");
        }
        Panic::TooManyGoroutines => {
            push_number_between(said, " (at most ", MAX_GOROUTINES, " are alive at once)");
        }
        Panic::TooManyChannels => {
            push_number_between(said, " (a run makes at most ", MAX_CHANNELS as u64, ")");
        }
        Panic::DivideByZero
        | Panic::SendOnClosed
        | Panic::CloseOfClosed
        | Panic::CloseOfNil
        | Panic::NegativeShift => {}
    }
}

/// Appends a number between two texts.
fn push_number_between(said: &mut Words, before: &str, number: u64, after: &str) {
    said.text(before);
    push_thousands(said, number);
    said.text(after);
}

/// Appends a number, with commas between thousands.
fn push_thousands(said: &mut Words, number: u64) {
    let mut has_begun = false;
    for unit in UNITS.iter() {
        let group = number.checked_div(*unit).unwrap_or(0) % 1_000;
        if has_begun {
            push_group(said, group);
        } else if group > 0 || *unit == 1 {
            said.number(i128::from(group));
            has_begun = true;
        }
    }
}

/// Appends a comma and three digits.
fn push_group(said: &mut Words, group: u64) {
    said.text(",");
    said.number(i128::from(group / 100));
    said.number(i128::from(group / 10 % 10));
    said.number(i128::from(group % 10));
}

/// Appends the calls that led a goroutine to where it is, the last one first. Calls that repeat are printed once.
fn push_calls(said: &mut Words, scene: Scene<'_, '_>, goroutine: &Goroutine) {
    let Ok(callers) = callers_of(scene.alloc, goroutine) else {
        said.refuse();
        return;
    };
    let mut rest = callers.as_slice();
    let mut lines: usize = 0;
    for _ in 0..MOST_CALLS {
        if rest.is_empty() || lines >= MOST_CALLS {
            break;
        }
        let repetition = Repetition::first(rest);
        lines = lines.saturating_add(repetition.period);
        repetition.push(said, scene, rest);
        rest = rest.get(repetition.length()..).unwrap_or(&[]);
    }
    push_more(said, rest.len(), " more call\n", " more calls\n");
}

/// The functions that wait for one that they called, the last one first.
fn callers_of(alloc: Global, goroutine: &Goroutine) -> Result<Vec<Call>, Memory> {
    let mut callers = Vec::new(alloc);
    for call in goroutine.calls.iter().rev().skip(1) {
        callers.push(*call)?;
    }
    Ok(callers)
}

/// Calls that repeat: `period` of them, `times` times in a row.
#[derive(Clone, Copy)]
struct Repetition {
    period: usize,
    times: usize,
}

impl Repetition {
    /// The repetition with which calls begin that covers most of them; the first call alone if nothing repeats.
    fn first(calls: &[Call]) -> Repetition {
        let mut best = Repetition {
            period: 1,
            times: 1,
        };
        for period in 1..=MOST_PERIOD {
            let times = times_of(calls, period);
            let other = Repetition { period, times };
            if times > 1 && other.length() > best.length() {
                best = other;
            }
        }
        best
    }

    /// How many calls these are.
    fn length(self) -> usize {
        self.period.saturating_mul(self.times)
    }

    /// Appends the first calls, as many as repeat, and how many times they do.
    fn push(self, said: &mut Words, scene: Scene<'_, '_>, calls: &[Call]) {
        for call in calls.iter().take(self.period) {
            push_call(said, scene, *call);
            if self.period == 1 && self.times > 1 {
                said.text(", ");
                push_thousands(said, self.times as u64);
                said.text(" times");
            }
            said.text("\n");
        }
        if self.period > 1 {
            said.text("  these ");
            said.number(self.period as i128);
            said.text(" calls ");
            push_thousands(said, self.times as u64);
            said.text(" times in a row\n");
        }
    }
}

/// How many times in a row the first `period` calls occur.
fn times_of(calls: &[Call], period: usize) -> usize {
    let first = calls.get(..period).unwrap_or(&[]);
    let mut times: usize = 0;
    for (index, call) in calls.iter().enumerate() {
        let place = index.checked_rem(period).unwrap_or(0);
        match first.get(place) {
            Some(same) if same.node == call.node => {}
            _ => break,
        }
        if place.saturating_add(1) == period {
            times = times.saturating_add(1);
        }
    }
    times
}

/// Appends the location that a function was called from.
fn push_call(said: &mut Words, scene: Scene<'_, '_>, call: Call) {
    said.text("  called from ");
    scene.push_function(said, call.function);
    said.text(" at ");
    scene.push_location(said, call.node);
}

/// Appends that there are `left` more, if any.
fn push_more(said: &mut Words, left: usize, one: &str, many: &str) {
    if left > 0 {
        said.text("and ");
        said.number(left as i128);
        said.text(if left == 1 { one } else { many });
    }
}
