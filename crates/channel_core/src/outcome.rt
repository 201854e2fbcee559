//! The outcome of a request to a channel.

ghost use Rattle.std.specs.Prelude.{◌≡◌, ◌≢◌, ◌∷◌, [], None, OnOk, length, slice_index_or, slice_set, true};
ghost use Rattle.word.specs.Requests.{got, sent};
ghost use Rattle.word.specs.Values.{Clause, Done, Received};
ghost use Rattle.word.specs.Views.{outcome_of, reply_of};
ghost use Rattle.channel_core.specs.Channels.{came, given, nobody, with_item};

use go_text::Memory;
use item_queue::ItemQueue;
use std::alloc::Global;
use std::marker::Model;
use word::panic::Panic;
use word::request::{EventOutcome, Reply};
use word::value::Item;

/// A goroutine that was asleep, and the reply to its request.
#[derive(Drop)]
pub struct Woken {
    number: u64,
    reply: Reply,
}

impl Model for Woken {
    ghost use Rattle.std.specs.Prelude.{ℕ};
    ghost use Rattle.word.specs.Values.{Reply as AnyReply};
    ghost use Rattle.word.specs.Views.{reply_of};

    ghost Value = { ℕ × AnyReply };

    ghost view = { λ w. (w.number, reply_of w.reply) };
}

impl Woken {
    ghost use Rattle.std.specs.Prelude.{◌≡◌, true};
    ghost use Rattle.word.specs.Values.{Received};
    ghost use Rattle.word.specs.Views.{reply_of};
    ghost use Rattle.channel_core.specs.Channels.{with_item};

    /// Goroutine `number`, woken with this reply.
    #[inline(always)]
    pub fn new(number: u64, reply: Reply) -> Woken
        ensures { result ≡ (number, reply_of reply) }
    {
        Woken { number, reply }
    }

    /// The goroutine's number.
    pub fn number(&self) -> u64
        ensures { result ≡ self.now.0 }
    {
        self.number
    }

    /// The reply.
    pub fn reply(&self) -> &Reply
        ensures { reply_of result.now ≡ self.now.1 }
    {
        &self.reply
    }

    /// Sets the item of the reply to this one, if the reply has an item.
    #[inline(always)]
    fn give(&mut self, item: &Item)
        ensures { self.new ≡ with_item self.old item.now }
    {
        give(&mut self.reply, item);
    }

    /// Makes this goroutine `number`, which receives `item` outside of a select; false if the reply here was of another form.
    #[inline(always)]
    fn receives(&mut self, number: u64, item: &Item) -> bool
        ensures { result ≡ true → self.new ≡ (number, Received item.now true) }
    {
        let Woken {
            number: place,
            reply,
        } = self;
        match reply {
            Reply::Received(room, ok) => {
                room.set(item.words());
                *ok = true;
                *place = number;
                true
            }
            _ => false,
        }
    }

    /// The reply.
    pub fn into_reply(self) -> Reply
        ensures { reply_of result ≡ self.1 }
    {
        let Woken { reply, .. } = self;
        reply
    }
}

/// The outcome of a request to a channel.
#[derive(Drop)]
pub enum Outcome {
    /// It is done: its goroutine goes on with this reply, and these were woken, in the order in which they fell asleep.
    Done(Reply, Vec<Woken>),
    /// Its goroutine fell asleep.
    Sleeps,
    /// It panics, in the clause of this number; 0 outside a select.
    Panics(Panic, usize),
}

impl Outcome {
    /// The outcome of an event, if these goroutines were woken.
    pub fn of(fate: &EventOutcome, woken: Vec<Woken>) -> Outcome
        ensures { result ≡ came fate.now woken }
    {
        match fate {
            EventOutcome::Done(reply) => Outcome::Done(again(reply), woken),
            EventOutcome::Sleeps => Outcome::Sleeps,
            EventOutcome::Panics(cause, clause) => Outcome::Panics(*cause, *clause),
        }
    }
}

/// A reply once more.
fn again(reply: &Reply) -> Reply
    ensures { result ≡ reply.now }
{
    match reply {
        Reply::Nothing => Reply::Nothing,
        Reply::Word(word) => Reply::Word(*word),
        Reply::Received(item, ok) => Reply::Received(item.copy(), *ok),
        Reply::Clause(clause, None) => Reply::Clause(*clause, None),
        Reply::Clause(clause, Some((item, ok))) => Reply::Clause(*clause, Some((item.copy(), *ok))),
        Reply::Default => Reply::Default,
        Reply::Closed => Reply::Closed,
    }
}

/// The reply to a sender, in a clause of a select, or outside of one if `clause` is 0.
#[inline(always)]
pub(crate) fn sent(clause: usize) -> Reply
    ensures { reply_of result ≡ sent clause }
{
    if clause == 0 {
        return Reply::Nothing;
    }
    Reply::Clause(clause, None)
}

/// The reply to a receiver of this item, in a clause of a select, or outside of one if `clause` is 0.
pub(crate) fn got(clause: usize, item: &Item, ok: bool) -> Reply
    ensures { reply_of result ≡ got clause item.now ok }
{
    if clause == 0 {
        return Reply::Received(item.copy(), ok);
    }
    Reply::Clause(clause, Some((item.copy(), ok)))
}

/// Writes to `outcome` that a sender's item was accepted, in a clause of a select, or outside of one if `clause` is 0.
#[inline(always)]
pub(crate) fn tell_sent(outcome: &mut EventOutcome, clause: usize)
    ensures { outcome_of outcome.new ≡ Done (sent clause) }
{
    if clause == 0 {
        *outcome = EventOutcome::Done(Reply::Nothing);
    } else {
        tell_clause(outcome, clause);
    }
}

/// Writes to `outcome` that clause `clause` of a select, which sends, was done. It is a call, so that the reply to a
/// sender outside of a select reserves no stack space for an item.
#[inline(never)]
fn tell_clause(outcome: &mut EventOutcome, clause: usize)
    ensures { outcome_of outcome.new ≡ Done (Clause clause None) }
{
    *outcome = EventOutcome::Done(Reply::Clause(clause, None));
}

/// Writes to `outcome` that a receiver got `item`, in a clause of a select, or outside of one if `clause` is 0. A reply
/// with an empty item is written first, and then the item's words: so no item is moved.
#[tactic(auto, using(crate::proofs::Deeds::given_got))]
pub(crate) fn tell_got(
    alloc: Global,
    outcome: &mut EventOutcome,
    clause: usize,
    item: &Item,
    ok: bool,
)
    ensures { outcome_of outcome.new ≡ Done (got clause item.now ok) }
{
    tell_room(alloc, outcome, clause, ok);
    if let EventOutcome::Done(reply) = outcome {
        give(reply, item);
    }
}

/// Like `tell_got`, of the item at the front of these, if there is one.
#[tactic(auto, using(crate::proofs::Deeds::given_got))]
pub(crate) fn tell_front(
    alloc: Global,
    outcome: &mut EventOutcome,
    clause: usize,
    items: &ItemQueue,
)
    ensures { length items.now ≢ 0 → outcome_of outcome.new ≡ Done (got clause (slice_index_or items.now 0 []) true) }
{
    tell_room(alloc, outcome, clause, true);
    if let EventOutcome::Done(reply) = outcome {
        give_front(reply, items);
    }
}

/// Writes to `outcome` that a receiver got an item of no words.
#[inline(always)]
fn tell_room(alloc: Global, outcome: &mut EventOutcome, clause: usize, ok: bool)
    ensures { outcome_of outcome.new ≡ Done (got clause [] ok) }
{
    if clause == 0 {
        *outcome = EventOutcome::Done(Reply::Received(Item::empty(alloc), ok));
    } else {
        *outcome = EventOutcome::Done(Reply::Clause(clause, Some((Item::empty(alloc), ok))));
    }
}

/// The item that a reply hands over, if it hands one over, is the one at the front of these, if there is one.
#[inline(always)]
fn give_front(reply: &mut Reply, items: &ItemQueue)
    ensures { length items.now ≢ 0 → reply_of reply.new ≡ given (reply_of reply.old) (slice_index_or items.now 0 []) }
{
    match reply {
        Reply::Received(room, _) => items.copy_front(room),
        Reply::Clause(_, Some((room, _))) => items.copy_front(room),
        _ => {}
    }
}

/// The item that a reply hands over, if it hands one over, is this.
#[inline(always)]
fn give(reply: &mut Reply, item: &Item)
    ensures { reply_of reply.new ≡ given (reply_of reply.old) item.now }
{
    match reply {
        Reply::Received(room, _) => room.set(item.words()),
        Reply::Clause(_, Some((room, _))) => room.set(item.words()),
        _ => {}
    }
}

/// Wakes goroutine `number`, alone, with this reply. Earlier contents of `woken` are ignored.
#[inline(always)]
pub(crate) fn wake(woken: &mut Vec<Woken>, number: u64, reply: Reply) -> Result<(), Memory>
    ensures { OnOk result (woken.new.items ≡ (number, reply_of reply) ∷ []) }
{
    woken.clear();
    woken.reserve(1)?;
    woken.push_reserved(Woken::new(number, reply));
    Ok(())
}

/// Wakes a receiver, alone, with this item, in a clause of its select, or outside of one if that is 0. If a receiver
/// was woken before, alone, its item's buffer is used again.
#[inline(always)]
#[tactic(auto, using(crate::proofs::Deeds::one_is))]
pub(crate) fn wake_with(
    alloc: Global,
    woken: &mut Vec<Woken>,
    number: u64,
    clause: usize,
    item: &Item,
) -> Result<(), Memory>
    ensures { OnOk result (woken.new.items ≡ (number, got clause item.now true) ∷ []) }
{
    if clause == 0 && woken.len() == 1 && wake_first(woken.as_mut_slice(), number, item) {
        return Ok(());
    }
    wake_anew(alloc, woken, number, clause, item)
}

/// Like `wake_with`, with a new buffer for the item. It is a call, so that nothing else reserves stack space for an item.
#[inline(never)]
#[tactic(auto, using(crate::proofs::Deeds::given_got))]
fn wake_anew(
    alloc: Global,
    woken: &mut Vec<Woken>,
    number: u64,
    clause: usize,
    item: &Item,
) -> Result<(), Memory>
    ensures { OnOk result (woken.new.items ≡ (number, got clause item.now true) ∷ []) }
{
    wake_with_room(alloc, woken, number, clause)?;
    give_first(woken.as_mut_slice(), item);
    Ok(())
}

/// Wakes a receiver with this item, outside of a select, instead of the first that was woken; false if that one's
/// reply was of another form.
#[inline(always)]
fn wake_first(woken: &mut [Woken], number: u64, item: &Item) -> bool
    ensures { result ≡ true → woken.new ≡ slice_set woken.old 0 (number, Received item.now true) }
{
    if woken.is_empty() {
        return false;
    }
    woken[0].receives(number, item)
}

/// Wakes a receiver with an item of no words, alone, in a clause of its select, or outside of one if that is 0.
#[inline(always)]
fn wake_with_room(
    alloc: Global,
    woken: &mut Vec<Woken>,
    number: u64,
    clause: usize,
) -> Result<(), Memory>
    ensures { OnOk result (woken.new.items ≡ (number, got clause [] true) ∷ []) }
{
    if clause == 0 {
        return wake(woken, number, Reply::Received(Item::empty(alloc), true));
    }
    wake(
        woken,
        number,
        Reply::Clause(clause, Some((Item::empty(alloc), true))),
    )
}

/// Sets the item in the reply of the first woken goroutine to this one, if that reply has an item.
#[inline(always)]
fn give_first(woken: &mut [Woken], item: &Item)
    ensures { woken.new ≡ slice_set woken.old 0 (with_item (slice_index_or woken.old 0 nobody) item.now) }
{
    if !woken.is_empty() {
        woken[0].give(item);
    }
}
