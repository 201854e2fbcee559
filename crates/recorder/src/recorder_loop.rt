//! A run on one thread that keeps some of its events.

ghost use Rattle.std.specs.Prelude.{◌≡◌, ◌≤◌, ◌^◌, [], IfErr, IfNone, IfOk, IfSome, length, map};
ghost use Rattle.std.specs.Arc.{arc_value};
ghost use Rattle.bytecode.specs.Machine.{code_kind};
ghost use Rattle.clock_table.specs.Seats.{table_of};
ghost use Rattle.word.specs.Views.{event_of};
ghost use Rattle.event_window.specs.Windows.{AreNext, AreRest, Shows};
ghost use Rattle.recorder.specs.Recorded.{HasRecorded};

use crate::kept::{keep_from, keep_last};
use book::{Blank, Book, BookName};
use bytecode::Code;
use event_window::Kept;
use go_text::{Fault, Memory};
use std::alloc::{AllocError, Global};
use std::marker::Brand;
use std::sync::Arc;
use timeline::{Recording, Window};
use verifier::Verified;

/// Runs a program up to the clock limit (1 to 2^62) on this thread, and keeps the events of a window, at most `most`; also how the
/// run ends, if it has no more events after these. Of the events before the window it keeps what they leave: the goroutines, and
/// the items on their way.
///
/// # Errors
///
/// `Memory`, also if 2^128 rounds of up to 65,536 steps come to no end.
pub fn record(
    alloc: Global,
    program: Arc<Verified>,
    limit: u64,
    window: Window,
    most: usize,
) -> Result<Recording, Fault>
    requires { (1 ≤ limit) × (limit ≤ 2 ^ 62) }
    ensures next { IfOk result (λ made. AreNext (code_kind (arc_value program)) limit made.before (map event_of made.events.items)) }
    ensures rest { IfOk result (λ made. IfSome made.end (AreRest (code_kind (arc_value program)) limit made.before (map event_of made.events.items))) }
    ensures shows { IfOk result (λ made. Shows window most made.before (length made.events.items) made.end) }
    ensures few { IfOk result (λ made. length made.events.items ≤ most) }
    ensures cut { IfOk result (λ made. IfNone made.end (most ≤ length made.events.items)) }
    ensures only { IfErr result (λ fault. fault ≡ Fault.Memory) }
{
    let blank = Blank::new(alloc)?;
    record_named::<Brand>(alloc, blank, program, limit, window, most)
}

/// Like `record`, of the book of this name.
fn record_named<B: BookName>(
    alloc: Global,
    blank: Blank,
    program: Arc<Verified>,
    limit: u64,
    window: Window,
    most: usize,
) -> Result<Recording, Fault>
    requires name { (arc_value program ≡ B.code) × (limit ≡ B.limit) × (table_of blank.table ≡ B.table) }
    requires limit { (1 ≤ limit) × (limit ≤ 2 ^ 62) }
    ensures next { IfOk result (λ made. AreNext (code_kind (arc_value program)) limit made.before (map event_of made.events.items)) }
    ensures rest { IfOk result (λ made. IfSome made.end (AreRest (code_kind (arc_value program)) limit made.before (map event_of made.events.items))) }
    ensures shows { IfOk result (λ made. Shows window most made.before (length made.events.items) made.end) }
    ensures few { IfOk result (λ made. length made.events.items ≤ most) }
    ensures cut { IfOk result (λ made. IfNone made.end (most ≤ length made.events.items)) }
    ensures only { IfErr result (λ fault. fault ≡ Fault.Memory) }
{
    let functions = names(alloc, program.code())?;
    let mut book = Book::<B>::open_tracing(blank, program, limit, false)?;
    let kept = keep(alloc, &mut book, window, most);
    // A book that goes out of scope is proved to be dropped at each exit, part by part.
    drop(book);
    let kept = kept?;
    Ok(kept.recording(alloc, functions))
}

/// The events of a window of the run of a book that has committed none, and its end if it has no more after them.
fn keep<B: BookName>(
    alloc: Global,
    book: &mut Book<B>,
    window: Window,
    most: usize,
) -> Result<Kept, Memory>
    requires { HasRecorded book.old.code book.old.limit book.old 0 [] }
    ensures next { IfOk result (λ kept. AreNext (code_kind book.old.code) book.old.limit kept.before (map event_of kept.events.items)) }
    ensures rest { IfOk result (λ kept. IfSome kept.end (AreRest (code_kind book.old.code) book.old.limit kept.before (map event_of kept.events.items))) }
    ensures shows { IfOk result (λ kept. Shows window most kept.before (length kept.events.items) kept.end) }
    ensures few { IfOk result (λ kept. length kept.events.items ≤ most) }
    ensures cut { IfOk result (λ kept. IfNone kept.end (most ≤ length kept.events.items)) }
{
    match window {
        Window::First => keep_from(alloc, book, 0, most),
        Window::From(number) => keep_from(alloc, book, number.saturating_sub(1), most),
        Window::Last(number) => keep_last(alloc, book, most.min(number as usize)),
    }
}

/// The names of the functions, each at its number.
fn names(alloc: Global, code: &Code) -> Result<Vec<String>, AllocError> {
    let mut names = Vec::new(alloc);
    for function in code.functions().iter() {
        let name = String::from_str(alloc, function.name())?;
        names.push(name).map_err(AllocError::from)?;
    }
    Ok(names)
}
