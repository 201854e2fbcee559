//! Runs that books settle.

ghost use Rattle.std.specs.Prelude.{◌≡◌, ◌^◌};
ghost use Rattle.std.specs.Arc.{arc_value};
ghost use Rattle.clock_table.specs.Seats.{table_of};

use book::{Blank, Book, BookName, Lease, Settled};
use go_text::{Fault, Memory};
use machine_calls::made::{Body, program};
use machine_calls::programs::{HANDS_OVER, STARTS_MORE, WAITS_FOR_GOOD};
use machine_calls::{Checks, is_refused};
use output::Piece;
use std::alloc::Global;
use std::marker::Brand;
use std::sync::Arc;
use verifier::Verified;
use word::end::End;
use word::panic::Panic;
use word::request::{Event, EventOutcome};

/// A clock limit that is not reached.
pub(crate) const LIMIT: u64 = 1 << 40;

/// The part of a settling's result that is compared: the clock and the number of its event, and whether it sleeps.
#[derive(Clone, Copy, PartialEq, Eq)]
enum Seen {
    Event(u64, u64, bool),
    Waiting(u64),
    Ended(End),
    NoMemory,
}

/// What is done with a book, and the expected result.
#[derive(Clone, Copy)]
enum Move {
    /// All goroutines that may be lent are lent and work, until all are parked; then the next settling has this result.
    Next(Seen),
    /// Like `Next`, this many times, whatever the result.
    Skip(u32),
    /// A settling has this result.
    Settle(Seen),
    /// Waits for the lent goroutine that stands before the next event, until it has published a later clock.
    WaitForFloors,
    /// No goroutine may be lent.
    LendNobody,
    /// This number of events is settled.
    Events(u64),
    /// The output so far is this text.
    Write(&'static str),
    /// The trace so far is this text.
    Trace(&'static str),
}

/// The trace of a hand-over.
const HAND_OVER_TRACE: &str =
    "0 1 make 1\n2 1 go 2\n3 1 receive 1 sleeps\n3 2 send 1 to 1\n4 2 end\n5 1 print 2\n6 1 exit\n";

/// Each event of a hand-over.
const HAND_OVER: [Move; 11] = [
    Move::Next(Seen::Event(0, 1, false)),
    Move::Next(Seen::Event(2, 1, false)),
    Move::Next(Seen::Event(3, 1, true)),
    Move::Next(Seen::Event(3, 2, false)),
    Move::Next(Seen::Event(4, 2, false)),
    Move::Next(Seen::Event(5, 1, false)),
    Move::Next(Seen::Event(6, 1, false)),
    Move::Next(Seen::Ended(End::Finished)),
    Move::Events(7),
    Move::Write("7\n"),
    Move::Trace(HAND_OVER_TRACE),
];

/// A deadlock.
const DEADLOCK: [Move; 4] = [
    Move::Next(Seen::Event(0, 1, false)),
    Move::Next(Seen::Event(2, 1, true)),
    Move::LendNobody,
    Move::Settle(Seen::Ended(End::Deadlock)),
];

/// One goroutine too many.
const TOO_MANY: [Move; 5] = [
    Move::Skip(49_146),
    Move::Next(Seen::Event(16_383, 16_383, false)),
    Move::Next(Seen::Event(16_383, 16_384, false)),
    Move::Settle(Seen::Ended(End::Panicked(Panic::TooManyGoroutines))),
    Move::Events(49_148),
];

/// Whether books settle what they must.
pub(crate) fn check(alloc: Global, checks: &mut Checks) -> Result<(), Memory> {
    for (name, bodies, moves) in [
        (
            "a book hands over an item",
            HANDS_OVER.as_slice(),
            HAND_OVER.as_slice(),
        ),
        (
            "a smaller floor is waited for",
            &HANDS_OVER,
            &[Move::Skip(2), Move::WaitForFloors],
        ),
        ("a book finds nobody awake", &WAITS_FOR_GOOD, &DEADLOCK),
        ("goroutine 16385 is one too many", &STARTS_MORE, &TOO_MANY),
    ] {
        checks.see(name, holds(alloc, bodies, moves))?;
    }
    checks.see("steps are made in the book", works_in_place(alloc))
}

/// Whether books settle what they must, also if a call is refused memory and made again.
pub(crate) fn check_refused(alloc: Global, checks: &mut Checks) -> Result<(), Memory> {
    let moves = HAND_OVER.as_slice();
    let mut found = holds(alloc, &HANDS_OVER, moves);
    if is_refused(&found) {
        found = holds(alloc, &HANDS_OVER, moves);
    }
    checks.see("a book hands over an item", found)?;
    let mut found = works_in_place(alloc);
    if is_refused(&found) {
        found = works_in_place(alloc);
    }
    checks.see("steps are made in the book", found)
}

/// What a run begins with.
#[derive(Drop)]
pub(crate) struct Start {
    pub blank: Blank,
    pub program: Arc<Verified>,
}

/// The beginning of this program's run.
pub(crate) fn begin(alloc: Global, bodies: &[Body]) -> Result<Start, Fault> {
    let program = Arc::new(alloc, program(alloc, bodies)?)?;
    let blank = Blank::new(alloc)?;
    Ok(Start { blank, program })
}

/// Whether a book of this program moves so.
fn holds(alloc: Global, bodies: &[Body], moves: &[Move]) -> Result<bool, Fault> {
    let start = begin(alloc, bodies)?;
    moves_as::<Brand>(start, moves)
}

/// Whether the book of this run moves so.
fn moves_as<B: BookName>(start: Start, moves: &[Move]) -> Result<bool, Fault>
    requires { (arc_value start.program ≡ B.code) × (2 ^ 40 ≡ B.limit) × (table_of start.blank.table ≡ B.table) }
{
    let Start { blank, program } = start;
    let mut book: Book<B> = Book::open(blank, program, LIMIT)?;
    Ok(makes_all(&mut book, moves))
}

fn makes_all<B: BookName>(book: &mut Book<B>, moves: &[Move]) -> bool {
    for step in moves {
        if !makes(book, *step) {
            return false;
        }
    }
    true
}

fn makes<B: BookName>(book: &mut Book<B>, step: Move) -> bool {
    match step {
        Move::Next(seen) => next(book) == seen,
        Move::Skip(count) => skip(book, count),
        Move::Settle(seen) => settled(book) == seen,
        Move::WaitForFloors => waits_for_floors(book),
        Move::LendNobody => is_nobody(book.lend()),
        Move::Events(count) => book.events() == count,
        Move::Write(text) => has_written(book, text),
        Move::Trace(text) => has_traced(book, text),
    }
}

/// Whether a hand-over has its output, its trace and its end if no goroutine is lent, but steps are made in the book.
fn works_in_place(alloc: Global) -> Result<bool, Fault> {
    works_as::<Brand>(begin(alloc, &HANDS_OVER)?)
}

/// Whether the book of this run, a hand-over, comes to its end by steps that are made in it.
fn works_as<B: BookName>(start: Start) -> Result<bool, Fault>
    requires { (arc_value start.program ≡ B.code) × (2 ^ 40 ≡ B.limit) × (table_of start.blank.table ≡ B.table) }
{
    let Start { blank, program } = start;
    let mut book: Book<B> = Book::open(blank, program, LIMIT)?;
    Ok(ends_in_place(&mut book))
}

/// Whether a hand-over of seven events ends by steps that are made in the book.
fn ends_in_place<B: BookName>(book: &mut Book<B>) -> bool {
    for _ in 0..7 {
        park_in_place(book);
        if !matches!(settled(book), Seen::Event(_, _, _)) {
            return false;
        }
    }
    let ended = settled(book) == Seen::Ended(End::Finished);
    ended && has_written(book, "7\n") && has_traced(book, HAND_OVER_TRACE)
}

/// Makes steps in the book until all are parked, also if a call is refused memory.
fn park_in_place<B: BookName>(book: &mut Book<B>) {
    for _ in 0..10_000 {
        if matches!(book.work(100), Ok(None)) {
            return;
        }
    }
}

/// The result of the next settling once all are parked.
fn next<B: BookName>(book: &mut Book<B>) -> Seen {
    park_all(book);
    settled(book)
}

/// Settles `count` times, each time once all are parked.
pub(crate) fn skip<B: BookName>(book: &mut Book<B>, count: u32) -> bool {
    for _ in 0..count {
        if next(book) == Seen::NoMemory {
            return false;
        }
    }
    true
}

/// Lends the goroutines that may be lent, one by one, until each of them is parked.
fn park_all<B: BookName>(book: &mut Book<B>) {
    for _ in 0..10_000 {
        match lent(book) {
            Ok(Some(lease)) => work(book, lease),
            _ => return,
        }
    }
}

/// Lends a goroutine, if there is one to be lent. The call is made again if it is refused memory.
fn lent<B: BookName>(book: &mut Book<B>) -> Result<Option<Lease<B>>, Memory> {
    match book.lend() {
        Err(Memory) => book.lend(),
        lent => lent,
    }
}

/// Works on a lease, again if that is refused memory, and brings it back.
fn work<B: BookName>(book: &mut Book<B>, lease: Lease<B>) {
    let mut lease = lease;
    if lease.work(100).is_err() {
        let _worked = lease.work(100).is_ok();
    }
    book.bring(lease);
}

/// Whether goroutines 1 and 2, which both may be lent, are waited for as they must.
fn waits_for_floors<B: BookName>(book: &mut Book<B>) -> bool {
    match (book.lend(), book.lend()) {
        (Ok(Some(first)), Ok(Some(second))) => {
            (first.number(), second.number()) == (1, 2) && waits_for(book, first)
        }
        _ => false,
    }
}

/// Whether goroutine 1, of which this is the lease, is waited for until it is brought back, and then the other.
fn waits_for<B: BookName>(book: &mut Book<B>, first: Lease<B>) -> bool {
    let waiting = settled(book);
    work(book, first);
    let event = settled(book);
    waiting == Seen::Waiting(1)
        && event == Seen::Event(3, 1, true)
        && settled(book) == Seen::Waiting(2)
}

/// The result of the next settling. The call is made again if it is refused memory.
fn settled<B: BookName>(book: &mut Book<B>) -> Seen {
    match seen_in(book.settle()) {
        Seen::NoMemory => seen_in(book.settle()),
        seen => seen,
    }
}

fn seen_in(settled: Result<Settled, Memory>) -> Seen {
    match settled {
        Ok(Settled::Committed(event)) => event_seen(&event),
        Ok(Settled::Waiting(number)) => Seen::Waiting(number),
        Ok(Settled::Ended(end)) => Seen::Ended(end),
        Err(Memory) => Seen::NoMemory,
    }
}

fn event_seen(event: &Event) -> Seen {
    let sleeps = matches!(&event.outcome, EventOutcome::Sleeps);
    Seen::Event(event.clock.time(), event.number, sleeps)
}

/// Whether no goroutine was lent.
fn is_nobody<B: BookName>(lent: Result<Option<Lease<B>>, Memory>) -> bool {
    matches!(&lent, Ok(None))
}

/// Whether the output so far is this text. It is taken again if that is refused memory.
fn has_written<B: BookName>(book: &mut Book<B>, text: &str) -> bool {
    match book.take_output() {
        Ok(piece) => is_text(&piece, text),
        Err(Memory) => match book.take_output() {
            Ok(piece) => is_text(&piece, text),
            Err(Memory) => false,
        },
    }
}

/// Whether the trace so far is this text. It is taken again if that is refused memory.
fn has_traced<B: BookName>(book: &mut Book<B>, text: &str) -> bool {
    match book.take_trace() {
        Ok(piece) => is_text(&piece, text),
        Err(Memory) => match book.take_trace() {
            Ok(piece) => is_text(&piece, text),
            Err(Memory) => false,
        },
    }
}

/// Whether these are the bytes of a piece.
fn is_text(piece: &Piece, text: &str) -> bool {
    piece.bytes.as_slice() == text.as_bytes()
}
