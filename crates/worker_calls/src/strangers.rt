//! Pieces that a book hands out, and the outputs for which they are.

ghost use Rattle.std.specs.Prelude.{◌≡◌, ◌^◌};
ghost use Rattle.std.specs.Arc.{arc_value};
ghost use Rattle.clock_table.specs.Seats.{table_of};

use crate::books::{LIMIT, Start, begin, skip};
use book::{Book, BookName};
use go_text::{Fault, Memory};
use machine_calls::Checks;
use machine_calls::made::{Body, program};
use machine_calls::programs::{HANDS_OVER, MEETS_TWICE};
use output::{DrainFault, Kind, Piece, Progress, drain};
use std::alloc::Global;
use std::marker::Brand;
use std::sync::Arc;
use word::Flagged;

/// A piece of the run of `MEETS_TWICE`, whose output is `1` and `2` in lines of their own.
#[derive(Clone, Copy)]
enum Taken {
    /// The output up to the first line.
    First,
    /// The rest of it.
    Second,
    /// The trace.
    Trace,
}

/// The output for which a piece is to be the next one, of which nothing is written yet: the program, the limit, and whether it is
/// the trace.
type Target = (&'static [Body<'static>], u64, Kind);

/// A piece, an output, and the result: the fault, and how many bytes are written.
const DRAINED: [(&str, Taken, Target, Option<DrainFault>, usize); 6] = [
    (
        "a run's first piece is written",
        Taken::First,
        (&MEETS_TWICE, LIMIT, Kind::Output),
        None,
        2,
    ),
    (
        "a piece of a run is none of another program's",
        Taken::First,
        (&HANDS_OVER, LIMIT, Kind::Output),
        Some(DrainFault::NotYours),
        0,
    ),
    (
        "a piece of a run is none at another limit",
        Taken::First,
        (&MEETS_TWICE, LIMIT - 1, Kind::Output),
        Some(DrainFault::NotYours),
        0,
    ),
    (
        "a piece of a run's output is none of its trace",
        Taken::First,
        (&MEETS_TWICE, LIMIT, Kind::Trace),
        Some(DrainFault::NotYours),
        0,
    ),
    (
        "a piece of a run's trace is none of its output",
        Taken::Trace,
        (&MEETS_TWICE, LIMIT, Kind::Output),
        Some(DrainFault::NotYours),
        0,
    ),
    (
        "a run's second piece is not the first",
        Taken::Second,
        (&MEETS_TWICE, LIMIT, Kind::Output),
        Some(DrainFault::NotYours),
        0,
    ),
];

/// Whether pieces of a run are written to the output whose next bytes they are, and to no other.
pub(crate) fn check(alloc: Global, checks: &mut Checks) -> Result<(), Memory> {
    for (name, taken, target, fault, count) in &DRAINED {
        checks.see(name, is_drained(alloc, *taken, *target, *fault, *count))?;
    }
    Ok(())
}

/// Whether a piece has this result.
fn is_drained(
    alloc: Global,
    taken: Taken,
    (bodies, limit, kind): Target,
    fault: Option<DrainFault>,
    count: usize,
) -> Result<bool, Fault> {
    let piece = piece_of_run(alloc, taken)?;
    let mut progress = Progress::new(Arc::new(alloc, program(alloc, bodies)?)?, limit, kind);
    let mut out = Flagged::new(Vec::new(alloc));
    let found = drain(&mut progress, piece, &mut out).err();
    let written = out.into_inner().len();
    Ok((found, written, progress.place()) == (fault, count, count as u128))
}

/// A piece of a new run.
fn piece_of_run(alloc: Global, taken: Taken) -> Result<Piece, Fault> {
    piece_as::<Brand>(begin(alloc, &MEETS_TWICE)?, taken)
}

/// A piece of the run that begins so.
fn piece_as<B: BookName>(start: Start, taken: Taken) -> Result<Piece, Fault>
    requires { (arc_value start.program ≡ B.code) × (2 ^ 40 ≡ B.limit) × (table_of start.blank.table ≡ B.table) }
{
    let Start { blank, program } = start;
    let mut book: Book<B> = Book::open(blank, program, LIMIT)?;
    Ok(taken_from(&mut book, taken)?)
}

/// A piece of the run of this book, which has no event yet.
fn taken_from<B: BookName>(book: &mut Book<B>, taken: Taken) -> Result<Piece, Memory> {
    // The fifth event prints the first line.
    skip(book, 5);
    let first = book.take_output()?;
    skip(book, 9);
    match taken {
        Taken::First => Ok(first),
        Taken::Second => book.take_output(),
        Taken::Trace => book.take_trace(),
    }
}
