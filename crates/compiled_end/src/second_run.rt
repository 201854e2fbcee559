//! The run that is made once more.

ghost use Rattle.std.specs.Prelude.{◌≡◌, ◌≤◌, ◌^◌};
ghost use Rattle.std.specs.Arc.{arc_value};
ghost use Rattle.clock_table.specs.Seats.{table_of};

use crate::compiled::Compiled;
use crate::goroutine::{goroutines_of, variables_of};
use book::{Blank, Book, BookName, Reached};
use end_explanation::{Call, Moment, Notes, Shown};
use go_text::Memory;
use std::alloc::Global;
use std::marker::Brand;
use std::sync::Arc;
use verifier::Verified;
use word::end::End;
use word::request::{Event, Request};

/// How many local steps a goroutine makes before the next event is requested from the book.
const QUANTUM: u32 = 65_536;

/// How many prints there are between two times at which the output is dropped.
const PRINTS: u32 = 1_024;

/// How a run ended.
#[derive(Clone, Copy)]
struct SecondRun {
    end: End,
    /// The number of the goroutine whose event was the last one.
    last: u64,
}

/// The last moment of a run, and which of its goroutines are printed.
#[derive(Drop)]
pub(crate) struct LastMoment {
    pub moment: Moment,
    pub shown: Shown,
}

/// The last moment of the run of a program up to the clock limit (1 to 2^62).
///
/// Errors: out of memory, or 2^128 rounds that come to no end.
pub(crate) fn last_moment(
    alloc: Global,
    compiled: &Compiled<'_>,
    limit: u64,
) -> Result<LastMoment, Memory>
    requires { (1 ≤ limit) × (limit ≤ 2 ^ 62) }
{
    let blank = Blank::new(alloc)?;
    let program = Arc::try_clone(&compiled.code)?;
    last_named::<Brand>(alloc, compiled, blank, program, limit)
}

/// Like `last_moment`, of a program whose book has this name.
fn last_named<B: BookName>(
    alloc: Global,
    compiled: &Compiled<'_>,
    blank: Blank,
    program: Arc<Verified>,
    limit: u64,
) -> Result<LastMoment, Memory>
    requires name { (arc_value program ≡ B.code) × (limit ≡ B.limit) × (table_of blank.table ≡ B.table) }
    requires limit { (1 ≤ limit) × (limit ≤ 2 ^ 62) }
{
    let Ok(opened) = Book::<B>::open_tracing(blank, program, limit, false) else {
        return Err(Memory);
    };
    let mut book = opened;
    let moment = moment_of(alloc, compiled, &mut book);
    // A book that goes out of scope is proved to be dropped at each exit, part by part.
    drop(book);
    moment
}

/// The last moment of the run of a program whose book is open.
fn moment_of<B: BookName>(
    alloc: Global,
    compiled: &Compiled<'_>,
    book: &mut Book<B>,
) -> Result<LastMoment, Memory> {
    let mut notes = Notes::new(alloc);
    let run = run_again(compiled, book, &mut notes)?;
    let mut moment = Moment {
        end: run.end,
        acting: run.last,
        notes,
        goroutines: goroutines_of(alloc, compiled, book)?,
    };
    let shown = moment.shown(alloc)?;
    for index in shown.indices.iter() {
        if let Some(goroutine) = moment.goroutines.get_mut(*index) {
            goroutine.variables = variables_of(alloc, compiled, book, goroutine)?;
        }
    }
    Ok(LastMoment { moment, shown })
}

/// Runs a program whose book is open to its end, on this thread, and notes what an explanation needs. What it prints is dropped.
///
/// Errors: out of memory, or 2^128 rounds that come to no end.
fn run_again<B: BookName>(
    compiled: &Compiled<'_>,
    book: &mut Book<B>,
    notes: &mut Notes,
) -> Result<SecondRun, Memory> {
    let mut event = book.blank_event();
    let mut prints = 0;
    'rounds: for _ in 0..u128::MAX {
        match book.settle_into(&mut event)? {
            Reached::Committed => {
                note(compiled, book, notes, &event)?;
                prints = dropped(book, &event, prints)?;
            }
            Reached::Waiting(_) => {
                let _asks = book.work(QUANTUM)?;
            }
            Reached::Ended(end) => {
                let last = event.number;
                return Ok(SecondRun { end, last });
            }
        }
    }
    Err(Memory)
}

/// Drops the output if `prints` prints before the event make it time to, and returns how many prints there were since.
fn dropped<B: BookName>(book: &mut Book<B>, event: &Event, prints: u32) -> Result<u32, Memory> {
    let Request::Print(_) = &event.request else {
        return Ok(prints);
    };
    if prints < PRINTS {
        return Ok(prints.saturating_add(1));
    }
    let piece = book.take_output()?;
    drop(piece);
    Ok(0)
}

/// Notes an event that the book has just committed.
fn note<B: BookName>(
    compiled: &Compiled<'_>,
    book: &Book<B>,
    notes: &mut Notes,
    event: &Event,
) -> Result<(), Memory> {
    let site = if Notes::keeps_site(event) {
        site_of(compiled, book, event.number)
    } else {
        None
    };
    notes.take(event, site)
}

/// Where a goroutine is that has just done a request.
fn site_of<B: BookName>(compiled: &Compiled<'_>, book: &Book<B>, number: u64) -> Option<Call> {
    let frame = book.awake(number)?.frames().last()?;
    Some(compiled.call_of(frame, true))
}
