//! The requests of goroutines, and the events that result.

use crate::panic::Panic;
use crate::value::{Item, Word};
use logical_clock::Clock;

/// A clause of a select: a send if there is an item. A channel is named by its number; `None` is `nil`.
pub struct Case {
    pub chan: Option<u32>,
    pub item: Option<Item>,
}

impl Drop for Case {
    #[inline(always)]
    fn drop(self) {
        let Case { chan: _, item } = self;
        drop(item);
    }
}

/// A goroutine's request, its operands in source order. Requests are performed one by one, each in its turn. A channel
/// is named by its number, counted from 1; `None` is `nil`.
#[derive(Drop)]
pub enum Request {
    /// A new channel of this size, whose zero item is this one (Go: Making slices, maps and channels).
    Make(i64, Item),
    /// A new goroutine that runs the function of this number with these arguments (Go: Go statements).
    Go(u32, Vec<Word>),
    /// A send (Go: Send statements).
    Send(Option<u32>, Item),
    /// A receive (Go: Receive operator).
    Receive(Option<u32>),
    /// A close (Go: Close).
    Close(Option<u32>),
    /// A select of these clauses, and whether it has a default (Go: Select statements).
    Select(Vec<Case>, bool),
    /// How many items are in the channel's buffer (Go: Length and capacity).
    Len(Option<u32>),
    /// The channel's capacity (Go: Length and capacity).
    Cap(Option<u32>),
    /// These bytes are appended to the output.
    Print(Vec<u8>),
    /// A return from the goroutine's first function.
    End,
    /// Like `End`, for goroutine 1, which ends the program.
    Exit,
    /// A panic, found while operands were evaluated or at a call.
    Panic(Panic),
    /// At the clock limit, instead of a request or of a step that would tick.
    Exhausted,
}

/// The reply to a request.
pub enum Reply {
    /// The request is done.
    Nothing,
    /// This value: a new channel, a length, a capacity.
    Word(Word),
    /// This item was received; false if the channel is closed and empty.
    Received(Item, bool),
    /// The select did the clause of this number, counted from 1, which received this if it receives.
    Clause(usize, Option<(Item, bool)>),
    /// The select did its default.
    Default,
    /// To a sender that a close woke: its item was not accepted, and it panics next.
    Closed,
}

impl Drop for Reply {
    #[inline(always)]
    fn drop(self) {
        match self {
            Reply::Received(item, _) => drop(item),
            Reply::Clause(_, received) => drop(received),
            Reply::Nothing | Reply::Word(_) | Reply::Default | Reply::Closed => {}
        }
    }
}

/// The outcome of a request.
pub enum EventOutcome {
    /// It is done, and its goroutine goes on with this reply.
    Done(Reply),
    /// Its goroutine fell asleep.
    Sleeps,
    /// It panicked, and so the program ended; in the clause of this number, 0 outside a select.
    Panics(Panic, usize),
}

impl Drop for EventOutcome {
    #[inline(always)]
    fn drop(self) {
        match self {
            EventOutcome::Done(reply) => drop(reply),
            EventOutcome::Sleeps | EventOutcome::Panics(_, _) => {}
        }
    }
}

/// A request that was performed.
pub struct Event {
    /// The actor's clock before it.
    pub clock: Clock,
    /// The actor's number, counted from 1.
    pub number: u64,
    pub request: Request,
    pub outcome: EventOutcome,
    /// The numbers of those that were woken or started, in order.
    pub partners: Vec<u64>,
}

impl Drop for Event {
    #[inline(always)]
    fn drop(self) {
        let Event {
            clock: _,
            number: _,
            request,
            outcome,
            partners,
        } = self;
        drop(request);
        drop(outcome);
        drop(partners);
    }
}
