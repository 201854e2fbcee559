//! What the calls of `Goroutines` do to the goroutine in a slot.

ghost use Rattle.std.specs.Prelude.{◌≡◌, ◌<◌, IfNone, IfOk, IfSome, IsSome, OnErr, OnOk, None, Some, length, true, slice_index_or, slice_set};
ghost use Rattle.std.specs.Option.{is_some};
ghost use Rattle.bytecode.specs.Machine.{code_kind};
ghost use Rattle.bytecode.specs.Rules.{IsFrameOf};
ghost use Rattle.goroutine_vm.specs.Advance.{IsQuiet};
ghost use Rattle.word.specs.Kinds.{told};
ghost use Rattle.word.specs.Views.{reply_of};
ghost use Rattle.awake_rows.specs.declared.goroutine.Goroutine.TheVariants as goroutines;
ghost use Rattle.awake_rows.specs.Living.{Grows, HaveGrown, HaveRoom, WorksAt, asleep_of, awake_of, lain_down, row_in, with_row, woken_up};
ghost use Rattle.awake_rows.specs.Slots.{FitsRow, IsUnlent, free_clock, free_row, is_asking, lent_row, raised_row, stepped_row, talk_of_row, word_reply};

use crate::goroutine::Goroutine;
use crate::orders::Orders;
use crate::replies::WordReply;
use crate::slot::Slot;
use go_text::Memory;
use goroutine_vm::{GoState, Room, Sleeping};
use goroutine_vm_request::Talk;
use logical_clock::Clock;
use std::alloc::{AllocError, Global};
use std::mem;
use turn_rule::Step;
use verifier::Verified;
use word::request::Reply;

/// The row in `slot`, if an awake goroutine has it.
#[inline(always)]
pub(crate) fn row_in(items: &[Option<Goroutine>], slot: usize) -> Option<&Slot>
    ensures none { IfNone result (row_in items.now slot ≡ None) }
    ensures some { IfSome result (λ row. row_in items.now slot ≡ Some row.now) }
{
    match items.get(slot) {
        Some(Some(Goroutine::Awake(row))) => Some(row),
        _ => None,
    }
}

/// The goroutine in `slot`, if it is asleep.
#[inline(always)]
pub(crate) fn bed_in(items: &[Option<Goroutine>], slot: usize) -> Option<&Sleeping>
    ensures none { IfNone result (asleep_of (slice_index_or items.now slot None) ≡ None) }
    ensures some { IfSome result (λ bed. asleep_of (slice_index_or items.now slot None) ≡ Some bed.now) }
{
    match items.get(slot) {
        Some(Some(Goroutine::Asleep(sleeping))) => Some(sleeping),
        _ => None,
    }
}

/// Takes the goroutine out of `slot`.
#[inline(always)]
pub(crate) fn take_at(items: &mut [Option<Goroutine>], slot: usize) -> Option<Goroutine>
    ensures item { result ≡ slice_index_or items.old slot None }
    ensures items { items.new ≡ slice_set items.old slot None }
{
    if slot < items.len() {
        return mem::replace(&mut items[slot], None);
    }
    None
}

/// Puts a goroutine into `slot`, if `items` has that index.
#[inline(always)]
pub(crate) fn put_at(items: &mut [Option<Goroutine>], slot: usize, item: Goroutine)
    ensures { items.new ≡ slice_set items.old slot (Some item) }
{
    if slot < items.len() {
        items[slot] = Some(item);
    }
}

/// A goroutine's request is done: it goes on with this reply, at this clock.
#[inline(always)]
pub(crate) fn answer_row(
    items: &mut [Option<Goroutine>],
    code: &Verified,
    slot: usize,
    reply: &Reply,
    clock: Clock,
)
    requires frame { IfSome (row_in items.old slot) (λ row. IsFrameOf code.now row.state.state) }
    requires unlent { IsUnlent (row_in items.old slot) }
    ensures { items.new ≡ slice_set items.old slot (with_row (λ row. free_row (told (code_kind code.now) row.state clock (reply_of reply.now))) (slice_index_or items.old slot None)) }
{
    if slot < items.len() {
        if let Some(Goroutine::Awake(row)) = &mut items[slot] {
            row.tell(code, reply, clock);
        }
    }
}

/// Like `answer_row`, with this reply.
#[inline(always)]
pub(crate) fn answer_word_row(
    items: &mut [Option<Goroutine>],
    code: &Verified,
    slot: usize,
    reply: WordReply,
    clock: Clock,
)
    requires frame { IfSome (row_in items.old slot) (λ row. IsFrameOf code.now row.state.state) }
    requires unlent { IsUnlent (row_in items.old slot) }
    ensures { items.new ≡ slice_set items.old slot (with_row (λ row. free_row (told (code_kind code.now) row.state clock (word_reply reply))) (slice_index_or items.old slot None)) }
{
    if slot < items.len() {
        if let Some(Goroutine::Awake(row)) = &mut items[slot] {
            row.tell_word(code, reply, clock);
        }
    }
}

/// A goroutine is as it was, though its request was performed: the run ends.
pub(crate) fn stay_row(items: &mut [Option<Goroutine>], slot: usize)
    requires { IsUnlent (row_in items.old slot) }
    ensures { items.new ≡ slice_set items.old slot (with_row (λ row. free_row row.state) (slice_index_or items.old slot None)) }
{
    if slot < items.len() {
        if let Some(Goroutine::Awake(row)) = &mut items[slot] {
            row.stay();
        }
    }
}

/// Lends a goroutine, if it may be lent: its state is moved out.
#[inline(always)]
pub(crate) fn lend_row(items: &mut [Option<Goroutine>], slot: usize) -> Option<GoState>
    ensures none { IfNone result ((free_clock (row_in items.old slot) ≡ None) × (items.new ≡ items.old)) }
    ensures some { IfSome result (λ s. (row_in items.old slot ≡ Some (free_row s)) × (items.new ≡ slice_set items.old slot (Some (goroutines.Awake (lent_row s))))) }
{
    if slot < items.len() {
        if let Some(Goroutine::Awake(row)) = &mut items[slot] {
            return row.lend();
        }
    }
    None
}

/// A goroutine that may be lent makes local steps in its slot. Returns whether it then makes a request.
#[inline(always)]
pub(crate) fn work_row(
    alloc: Global,
    items: &mut [Option<Goroutine>],
    code: &Verified,
    limit: u64,
    slot: usize,
    quantum: u32,
) -> Result<bool, Memory>
    requires fits { FitsRow code.now limit (row_in items.old slot) }
    requires free { is_some (free_clock (row_in items.old slot)) ≡ true }
    ensures ok { IfOk result (λ asking. WorksAt code.now limit quantum items.old slot (Some asking) items.new) }
    ensures memory { OnErr result (WorksAt code.now limit quantum items.old slot None items.new) }
{
    if slot < items.len() {
        if let Some(Goroutine::Awake(row)) = &mut items[slot] {
            return row.work(alloc, code, limit, quantum);
        }
    }
    unreachable!()
}

/// Like `work_row`, but returns the request that it then makes, as far as it is a send of one word or a receive.
#[inline(always)]
pub(crate) fn talk_row(
    alloc: Global,
    items: &mut [Option<Goroutine>],
    code: &Verified,
    limit: u64,
    slot: usize,
    quantum: u32,
) -> Result<Talk, Memory>
    requires fits { FitsRow code.now limit (row_in items.old slot) }
    requires free { is_some (free_clock (row_in items.old slot)) ≡ true }
    ensures ok { IfOk result (λ talk. WorksAt code.now limit quantum items.old slot (Some (is_asking talk)) items.new) }
    ensures talk { IfOk result (λ talk. talk ≡ talk_of_row code.now limit (row_in items.new slot)) }
    ensures memory { OnErr result (WorksAt code.now limit quantum items.old slot None items.new) }
{
    if slot < items.len() {
        if let Some(Goroutine::Awake(row)) = &mut items[slot] {
            return row.talk(alloc, code, limit, quantum);
        }
    }
    unreachable!()
}

/// One step of a goroutine, as a schedule names it.
pub(crate) fn step_row(
    alloc: Global,
    items: &mut [Option<Goroutine>],
    code: &Verified,
    limit: u64,
    slot: usize,
    step: Step,
) -> Result<(), Memory>
    requires { FitsRow code.now limit (row_in items.old slot) }
    ensures ok { OnOk result (items.new ≡ slice_set items.old slot (with_row (stepped_row code.now limit step) (slice_index_or items.old slot None))) }
    ensures memory { OnErr result (items.new ≡ items.old) }
    ensures fits { OnOk result (FitsRow code.now limit (awake_of (with_row (stepped_row code.now limit step) (slice_index_or items.old slot None)))) }
{
    if slot < items.len() {
        if let Some(Goroutine::Awake(row)) = &mut items[slot] {
            row.step(alloc, code, limit, step)?;
        }
    }
    Ok(())
}

/// The floor of a goroutine that is lent becomes the clock that a look found.
pub(crate) fn raise_row(items: &mut [Option<Goroutine>], slot: usize, clock: Clock)
    requires { IfSome (row_in items.old slot) (λ row. is_some row.lease ≡ true) }
    ensures { items.new ≡ slice_set items.old slot (with_row (raised_row clock) (slice_index_or items.old slot None)) }
{
    if slot < items.len() {
        if let Some(Goroutine::Awake(row)) = &mut items[slot] {
            row.raise(clock);
        }
    }
}

/// The goroutine in `slot`, which is awake, falls asleep in its state. Returns its `Room`.
#[inline(always)]
pub(crate) fn doze_at(items: &mut [Option<Goroutine>], slot: usize) -> Room
    requires awake { IsSome (row_in items.old slot) }
    requires unlent { IsUnlent (row_in items.old slot) }
    requires quiet { IfSome (row_in items.old slot) (λ row. IsQuiet row.state.state) }
    ensures { items.new ≡ slice_set items.old slot (lain_down (slice_index_or items.old slot None)) }
{
    let Some(Goroutine::Awake(row)) = take_at(items, slot) else {
        unreachable!()
    };
    let (sleeping, room) = row.into_state().fall_asleep();
    put_at(items, slot, Goroutine::Asleep(sleeping));
    room
}

/// Wakes the goroutine in `slot`, which is asleep, in `room`, with this reply and clock. It may be lent.
#[inline(always)]
pub(crate) fn wake_at(
    items: &mut [Option<Goroutine>],
    slot: usize,
    room: Room,
    code: &Verified,
    reply: &Reply,
    clock: Clock,
)
    requires asleep { IsSome (asleep_of (slice_index_or items.old slot None)) }
    requires frame { IfSome (asleep_of (slice_index_or items.old slot None)) (λ s. IsFrameOf code.now s.state) }
    ensures { items.new ≡ slice_set items.old slot (woken_up (λ s. told (code_kind code.now) s clock (reply_of reply.now)) (slice_index_or items.old slot None)) }
{
    let Some(Goroutine::Asleep(sleeping)) = take_at(items, slot) else {
        unreachable!()
    };
    let mut state = sleeping.get_up(room);
    state.tell(code, reply, clock);
    put_at(items, slot, Goroutine::Awake(Slot::free(state)));
}

/// Like `wake_at`, with this reply.
#[inline(always)]
pub(crate) fn wake_word_at(
    items: &mut [Option<Goroutine>],
    slot: usize,
    room: Room,
    code: &Verified,
    reply: WordReply,
    clock: Clock,
)
    requires asleep { IsSome (asleep_of (slice_index_or items.old slot None)) }
    requires frame { IfSome (asleep_of (slice_index_or items.old slot None)) (λ s. IsFrameOf code.now s.state) }
    ensures { items.new ≡ slice_set items.old slot (woken_up (λ s. told (code_kind code.now) s clock (word_reply reply)) (slice_index_or items.old slot None)) }
{
    let Some(Goroutine::Asleep(sleeping)) = take_at(items, slot) else {
        unreachable!()
    };
    let mut state = sleeping.get_up(room);
    reply.tell(&mut state, code, clock);
    let awake = Slot::free(state);
    put_at(items, slot, Goroutine::Awake(awake));
}

/// Adds empty indexes to `items` and `orders` until they have `slot`.
///
/// Errors: out of memory. Some of the indexes may be added then.
pub(crate) fn make_room(
    items: &mut Vec<Option<Goroutine>>,
    orders: &mut Orders,
    slot: usize,
) -> Result<(), AllocError>
    requires { HaveRoom orders.old (length items.old.items) }
    ensures items { Grows items.old.items items.new.items }
    ensures orders { HaveGrown orders.old orders.new }
    ensures room { HaveRoom orders.new (length items.new.items) }
    ensures slot { OnOk result (slot < length items.new.items) }
{
    while items.len() <= slot {
        orders.push()?;
        items.push(None)?;
    }
    Ok(())
}
