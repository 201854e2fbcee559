//! All goroutines, goroutine n at index n.

ghost use Rattle.std.specs.Prelude.{◌≡◌, ℕ, ◌^◌, ◌≤◌, ◌∷◌, ◌++◌, [], IfNone, IfSome, None, OnOk, Some, IfOk, slice_index_or, slice_set};
ghost use Rattle.logical_clock.specs.Order.{keys, least};
ghost use Rattle.word.specs.Kinds.{Clocked, told};
ghost use Rattle.word.specs.Related.{kind_of};
ghost use Rattle.word.specs.Views.{reply_of};
ghost use Rattle.one_thread.specs.Places.{AdvancesAt, AreWithin, IsLaid, IsSoon, Sets, Wakes, awake_of, bed_at, clock_of, here, key_of, woken_to};
ghost use Rattle.one_thread.specs.Progress.{TurnFalls};

use crate::goroutine::{Goroutine, Turn, advance, tell};
use crate::interpreter::Interpreter;
use go_text::Memory;
use key_index::KeyIndex;
use logical_clock::{Clock, Key, Steps};
use reference_world::Woken;
use std::alloc::Global;
use std::marker::{Brand, Model};
use std::sync::ledger::{Blank, Ledger};
use word::request::Reply;

/// All goroutines, goroutine n at index n; index 0 is empty. A heap has the keys of those that are awake, so the least key
/// is found without a scan.
pub(crate) struct Places<S: Drop> {
    all: Vec<Option<Goroutine<S>>>,
    /// Slot n has the key of goroutine n, if it is awake.
    keys: KeyIndex,
}

impl<S: Drop> Drop for Places<S> {
    fn drop(self) {
        let Places { all, keys } = self;
        drop(all);
        drop(keys);
    }
}

impl<S: Drop> Model for Places<S> {
    ghost use Rattle.std.specs.Prelude.{List, Option};
    ghost use Rattle.one_thread.specs.declared.goroutine.Goroutine.{Goroutine as One};
    ghost use Rattle.one_thread.specs.Places.{AreKeyed};

    ghost Value = { List (Option (One S)) };

    ghost view = { λ p. p.all.items };

    ghost invariant = { λ p. AreKeyed p.all.items p.keys };
}

impl<S: Drop> Places<S> {
    /// No goroutines.
    pub(crate) fn new(alloc: Global) -> Result<Places<S>, Memory>
        ensures { IfOk result (λ places. places ≡ None ∷ []) }
    {
        let mut all = Vec::new(alloc);
        all.push(None)?;
        let keys = KeyIndex::new(alloc, 1)?;
        Ok(Places { all, keys })
    }

    /// One goroutine more.
    pub(crate) fn start(&mut self, goroutine: Goroutine<S>) -> Result<(), Memory>
        ensures { OnOk result (self.new ≡ self.old ++ Some goroutine ∷ []) }
    {
        self.all.reserve(1)?;
        self.keys.push()?;
        let place = self.all.len();
        note(&mut self.keys, place, key_of(&goroutine, place));
        self.all.push_reserved(Some(goroutine));
        Ok(())
    }

    /// The goroutine at `place`, if there is one.
    pub(crate) fn get(&self, place: usize) -> Option<&Goroutine<S>>
        ensures none { IfNone result (slice_index_or self.now place None ≡ None) }
        ensures some { IfSome result (λ goroutine. slice_index_or self.now place None ≡ Some goroutine.now) }
    {
        match self.all.get(place) {
            Some(Some(goroutine)) => Some(goroutine),
            _ => None,
        }
    }

    /// All goroutines, without their keys.
    pub(crate) fn into_all(self) -> Vec<Option<Goroutine<S>>>
        ensures { result.items ≡ self }
    {
        let Places { all, keys } = self;
        drop(keys);
        all
    }

    /// The least key of those that are awake.
    pub(crate) fn least(&self) -> Option<Key>
        ensures { result ≡ least (keys clock_of 0 self.now) }
    {
        let (_, key) = self.keys.least()?;
        Some(key)
    }

    /// The awake goroutine at `place` falls asleep.
    pub(crate) fn lay(&mut self, place: usize)
        ensures within { (limit : ℕ) → AreWithin limit self.old → AreWithin limit self.new }
        ensures laid { IsLaid self.old place self.new }
    {
        if place >= self.all.len() {
            return;
        }
        let Some(goroutine) = &mut self.all[place] else {
            return;
        };
        goroutine.asleep = true;
        note(&mut self.keys, place, None);
    }

    /// The awake goroutine at `place` has ended.
    pub(crate) fn end(&mut self, place: usize)
        ensures within { (limit : ℕ) → AreWithin limit self.old → AreWithin limit self.new }
        ensures ended { self.new ≡ slice_set self.old place None }
    {
        if place < self.all.len() {
            self.all[place] = None;
            note(&mut self.keys, place, None);
        }
    }
}

/// The key of this goroutine, which is at `place`, if it is awake.
fn key_of<S: Drop>(goroutine: &Goroutine<S>, place: usize) -> Option<Key>
    ensures { result ≡ key_of place (Some goroutine.now) }
{
    if goroutine.asleep {
        return None;
    }
    Some(Key {
        clock: goroutine.clock,
        number: place as u64,
    })
}

/// The goroutine at `place` has this key now, or none.
fn note(keys: &mut KeyIndex, place: usize, key: Option<Key>)
    ensures { keys.new ≡ slice_set keys.old place key }
{
    note_counted::<Brand>(keys, place, key, Blank::new(1));
}

/// Like `note`, but it counts its steps, which costs nothing.
fn note_counted<L: Ledger>(keys: &mut KeyIndex, place: usize, key: Option<Key>, blank: Blank)
    requires name { blank.name ≡ L.name }
    requires parts { blank.parts ≡ L.parts }
    requires one { blank.parts ≡ 1 }
    ensures { keys.new ≡ slice_set keys.old place key }
{
    let mut steps = Steps::<L>::new(blank);
    keys.set(place, key, &mut steps);
}

/// The goroutine at `place` has its turn, if it is awake.
pub(crate) fn advance_at<P: Interpreter>(
    program: &P,
    alloc: Global,
    places: &mut Places<P::State>,
    place: usize,
    limit: u64,
) -> Result<Turn, Memory>
    requires within { AreWithin limit places.old }
    requires limit { limit ≤ 2 ^ 62 }
    ensures within { OnOk result (AreWithin limit places.new) }
    ensures soon { IfOk result (IsSoon limit) }
    ensures turn { IfOk result (λ turn. AdvancesAt (kind_of (P.parts program.now)) (P.held program.now) limit turn places.old place places.new) }
    ensures falls { IfOk result (λ turn. (clock : ℕ) → here clock_of places.old place ≡ Some clock → TurnFalls (λ state. P.weight program.now (P.held program.now state)) limit turn places.old places.new) }
{
    if place >= places.all.len() {
        return Ok(Turn::Slid);
    }
    let Some(goroutine) = &mut places.all[place] else {
        return Ok(Turn::Slid);
    };
    if goroutine.asleep {
        return Ok(Turn::Slid);
    }
    let turn = advance(program, alloc, goroutine, limit);
    note(&mut places.keys, place, key_of(goroutine, place));
    turn
}

/// The awake goroutine at `place` gets `reply`, and goes on at `clock`.
pub(crate) fn tell_at<P: Interpreter>(
    program: &P,
    alloc: Global,
    places: &mut Places<P::State>,
    place: usize,
    clock: Clock,
    reply: Reply,
) -> Result<(), Memory>
    ensures within { OnOk result ((limit : ℕ) → clock ≤ limit → AreWithin limit places.old → AreWithin limit places.new) }
    ensures told { OnOk result ((s : Clocked P.Held) → here (awake_of (P.held program.now)) places.old place ≡ Some s → Sets (P.held program.now) places.old places.new place (Some (told (kind_of (P.parts program.now)) s clock (reply_of reply))) None) }
{
    if place >= places.all.len() {
        return Ok(());
    }
    let Some(goroutine) = &mut places.all[place] else {
        return Ok(());
    };
    let told = tell(program, alloc, goroutine, clock, reply);
    note(&mut places.keys, place, key_of(goroutine, place));
    told
}

/// The sleeping goroutine at `place` is woken, gets `reply`, and goes on at `clock`.
fn wake_at<P: Interpreter>(
    program: &P,
    alloc: Global,
    places: &mut Places<P::State>,
    place: usize,
    clock: Clock,
    reply: Reply,
) -> Result<(), Memory>
    ensures within { OnOk result ((limit : ℕ) → clock ≤ limit → AreWithin limit places.old → AreWithin limit places.new) }
    ensures woken { OnOk result (Sets (P.held program.now) places.old places.new place (woken_to (kind_of (P.parts program.now)) clock (reply_of reply) (bed_at (P.held program.now) places.old place)) None) }
{
    if place >= places.all.len() {
        return Ok(());
    }
    let Some(goroutine) = &mut places.all[place] else {
        return Ok(());
    };
    if goroutine.asleep {
        let told = tell(program, alloc, goroutine, clock, reply);
        note(&mut places.keys, place, key_of(goroutine, place));
        return told;
    }
    places.all[place] = None;
    note(&mut places.keys, place, None);
    Ok(())
}

/// The goroutines that were asleep are woken, in this order, and go on at `clock`.
pub(crate) fn wake_all<P: Interpreter>(
    program: &P,
    alloc: Global,
    places: &mut Places<P::State>,
    clock: Clock,
    woken: Vec<Woken>,
) -> Result<(), Memory>
    ensures within { OnOk result ((limit : ℕ) → clock ≤ limit → AreWithin limit places.old → AreWithin limit places.new) }
    ensures woken { OnOk result (Wakes (kind_of (P.parts program.now)) (P.held program.now) clock places.old woken.items places.new) }
{
    for one in woken {
        wake_at(
            program,
            alloc,
            places,
            one.number as usize,
            clock,
            one.reply,
        )?;
    }
    Ok(())
}
