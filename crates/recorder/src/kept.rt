//! The events of a book's run.

ghost use Rattle.std.specs.Prelude.{◌≡◌, ◌≤◌, ◌⊎◌, [], IfNone, IfOk, IfSome, IsTrue, OnOk, length, map};
ghost use Rattle.std.specs.Option.{is_some};
ghost use Rattle.bytecode.specs.Machine.{code_kind};
ghost use Rattle.event_window.specs.Windows.{AreNext, AreRest};
ghost use Rattle.word.specs.Views.{event_of};
ghost use Rattle.recorder.specs.Recorded.{Comes, HasRecorded, IsLater};

use book::{Book, BookName, Settled};
use event_window::{Kept, Latest};
use go_text::Memory;
use std::alloc::Global;
use timeline::Site;
use word::request::{Event, EventOutcome, Request};

/// How many local steps a goroutine makes before it is checked whether the next event is there.
const QUANTUM: u32 = 65_536;

/// How many bytes of the output are kept at most between two steps. Nobody reads them.
const MOST_UNREAD: usize = 1 << 20;

/// Commits `skip` events of a book that has committed none, and keeps the next ones, at most `most`.
#[tactic(auto, using(crate::proofs::Books::taken, crate::proofs::Books::waiting, crate::proofs::Books::all_there))]
pub(crate) fn keep_from<B: BookName>(
    alloc: Global,
    book: &mut Book<B>,
    skip: u64,
    most: usize,
) -> Result<Kept, Memory>
    requires { HasRecorded book.old.code book.old.limit book.old 0 [] }
    ensures next { IfOk result (λ kept. AreNext (code_kind book.old.code) book.old.limit kept.before (map event_of kept.events.items)) }
    ensures rest { IfOk result (λ kept. IfSome kept.end (AreRest (code_kind book.old.code) book.old.limit kept.before (map event_of kept.events.items))) }
    ensures begins { IfOk result (λ kept. (kept.before ≡ skip) ⊎ ((kept.before ≤ skip) × (length kept.events.items ≡ 0) × IsTrue (is_some kept.end))) }
    ensures few { IfOk result (λ kept. length kept.events.items ≤ most) }
    ensures cut { IfOk result (λ kept. IfNone kept.end (most ≤ length kept.events.items)) }
{
    let mut kept = Kept::new(alloc)?;
    'rounds: for _ in 0..u128::MAX {
        if kept.before >= skip && kept.events.len() >= most {
            return Ok(kept);
        }
        match next(book)? {
            Settled::Committed(event) => {
                let site = site_of(book, &event);
                kept.take(event, site, skip)?;
            }
            Settled::Waiting(_) => {}
            Settled::Ended(end) => return Ok(kept.ended(end)),
        }
    }
    Err(Memory)
}

/// The last events of the run of a book that has committed none, at most `most`, and its end.
#[tactic(auto, using(crate::proofs::Books::taken, crate::proofs::Books::waiting, crate::proofs::Books::all_there))]
pub(crate) fn keep_last<B: BookName>(
    alloc: Global,
    book: &mut Book<B>,
    most: usize,
) -> Result<Kept, Memory>
    requires { HasRecorded book.old.code book.old.limit book.old 0 [] }
    ensures next { IfOk result (λ kept. AreNext (code_kind book.old.code) book.old.limit kept.before (map event_of kept.events.items)) }
    ensures rest { IfOk result (λ kept. IfSome kept.end (AreRest (code_kind book.old.code) book.old.limit kept.before (map event_of kept.events.items))) }
    ensures begins { IfOk result (λ kept. (kept.before ≡ 0) ⊎ (length kept.events.items ≡ most)) }
    ensures few { IfOk result (λ kept. length kept.events.items ≤ most) }
    ensures ends { IfOk result (λ kept. IsTrue (is_some kept.end)) }
{
    let mut latest = Latest::new(alloc)?;
    'rounds: for _ in 0..u128::MAX {
        match next(book)? {
            Settled::Committed(event) => {
                let site = site_of(book, &event);
                latest.push(event, site, most)?;
            }
            Settled::Waiting(_) => {}
            Settled::Ended(end) => return Ok(latest.ended(end)),
        }
    }
    Err(Memory)
}

/// The instruction that made the request of the event that the book has just committed; none of an end.
fn site_of<B: BookName>(book: &Book<B>, event: &Event) -> Option<Site> {
    if matches!(&event.request, Request::End | Request::Exit) {
        return None;
    }
    let frames = match book.asleep(event.number) {
        Some(sleeping) => sleeping.frames(),
        None => book.awake(event.number)?.frames(),
    };
    let frame = frames.last()?;
    let next = frame.place();
    // A goroutine whose request is done has gone on to the next instruction.
    let index = match &event.outcome {
        EventOutcome::Done(_) => next.saturating_sub(1),
        EventOutcome::Sleeps | EventOutcome::Panics(..) => next,
    };
    Some(Site {
        function: frame.function(),
        index,
    })
}

/// The next event of the run, or its end; or `Waiting`, after local steps of a goroutine that is before it.
fn next<B: BookName>(book: &mut Book<B>) -> Result<Settled, Memory>
    ensures { IfOk result (λ settled. Comes book.old settled book.new) }
{
    match book.settle()? {
        Settled::Waiting(number) => {
            drop_output(book)?;
            go_on(book)?;
            Ok(Settled::Waiting(number))
        }
        settled => Ok(settled),
    }
}

/// Drops the output that was committed, once it is much.
fn drop_output<B: BookName>(book: &mut Book<B>) -> Result<(), Memory>
    ensures { OnOk result (IsLater book.old book.new 0) }
{
    if book.unwritten() > MOST_UNREAD {
        let piece = book.take_output()?;
        drop(piece);
    }
    Ok(())
}

/// The goroutine of least key makes local steps, up to a request.
fn go_on<B: BookName>(book: &mut Book<B>) -> Result<(), Memory>
    ensures { OnOk result (IsLater book.old book.new 0) }
{
    let Some(lease) = book.lend()? else {
        return Ok(());
    };
    let mut lease = lease;
    lease.work(QUANTUM)?;
    book.bring(lease);
    Ok(())
}
