//! Goroutines that send and receive single words, without events to show.

ghost use Rattle.std.specs.Prelude.{◌≡◌, ℕ, ◌+◌, ◌<◌, ◌≤◌, ◌^◌, [], ◌∷◌, IfNone, IfOk, IfSome, OnErr, None, Some, length, slice_index_or};
ghost use Rattle.bytecode.specs.Rules.{IsFrameOf};
ghost use Rattle.channel_core.specs.Words.{IsReceived, IsSent};
ghost use Rattle.word.specs.Values.{Receive, Send};
ghost use Rattle.world_core_base.specs.Cores.{FitsCore, HasTurn, IsAsked, Works, left_beds, to_lend, woken_rows};
ghost use Rattle.world_core_base.specs.Talking.{FailsTalk, IsActor, IsServed, Talks};
ghost use Rattle.awake_rows.specs.Slots.{IsUnlent, answered_rows, is_asking, talk_of_row, word_reply};

use crate::situation::{Situation, next_time};
use crate::spare::{Spare, make_rooms};
use crate::talked::Talked;
use awake_rows::{Among, WordReply};
use channel_core::{ReceivedWord, SentWord};
use go_text::Memory;
use goroutine_vm::Room;
use goroutine_vm_request::Talk;
use logical_clock::{Clock, Key, LAST};
use std::alloc::Global;
use verifier::Verified;
use word::value::Word;

impl Situation {
    /// Performs the request of the goroutine that has the turn. If none has it, the goroutine that would be lent next makes at most
    /// `quantum` local steps, up to a request, which is performed if it then has the turn.
    ///
    /// Errors: out of memory, when some of the steps may be made.
    #[inline(always)]
    pub fn talk(
        &mut self,
        alloc: Global,
        code: &Verified,
        limit: u64,
        quantum: u32,
        spare: &mut Spare,
    ) -> Result<Talked, Memory>
        requires { FitsCore code.now limit self.old }
        ensures talks { IfOk result (λ came. Talks code.now limit quantum 1 self.old came self.new) }
        ensures memory { OnErr result (FailsTalk code.now limit quantum self.old self.new) }
        ensures fits { FitsCore code.now limit self.new }
    {
        if self.ending.is_some() {
            return Ok(Talked::Nobody);
        }
        match self.actor() {
            Some(actor) => {
                let talk = self.talk_of(code, limit, actor.number);
                self.serve(alloc, code, limit, actor, talk, spare)
            }
            None => self.talk_next(alloc, code, limit, quantum, spare),
        }
    }

    /// Like `talk`, if no goroutine has the turn.
    #[inline(always)]
    fn talk_next(
        &mut self,
        alloc: Global,
        code: &Verified,
        limit: u64,
        quantum: u32,
        spare: &mut Spare,
    ) -> Result<Talked, Memory>
        requires fits { FitsCore code.now limit self.old }
        requires going { self.old.ending ≡ None }
        requires nobody { (n : ℕ) → HasTurn self.old n → ⊥ }
        ensures talks { IfOk result (λ came. Talks code.now limit quantum 1 self.old came self.new) }
        ensures memory { OnErr result (FailsTalk code.now limit quantum self.old self.new) }
        ensures fits { FitsCore code.now limit self.new }
    {
        let Some((number, talk)) = self.work(alloc, code, limit, quantum)? else {
            return Ok(Talked::Nobody);
        };
        if !is_asking(talk) {
            return Ok(Talked::Running);
        }
        match self.actor() {
            Some(actor) if actor.number == number => {
                self.serve(alloc, code, limit, actor, talk, spare)
            }
            _ => Ok(Talked::Enough),
        }
    }

    /// The goroutine that has the turn, and its clock.
    #[inline(always)]
    fn actor(&self) -> Option<Key>
        requires { self.now.ending ≡ None }
        ensures none { IfNone result ((n : ℕ) → HasTurn self.now n → ⊥) }
        ensures some { IfSome result (λ actor. IsActor self.now actor.number actor.clock) }
    {
        let Some(key) = self.goroutines.least_among(Among::Parked) else {
            return None;
        };
        let Key { clock, number } = key;
        match self.goroutines.blocker(Key { clock, number }) {
            Some(_) => None,
            None => Some(Key { clock, number }),
        }
    }

    /// The request of the goroutine that has the turn, as far as it is a send of one word or a receive.
    #[inline(always)]
    fn talk_of(&self, code: &Verified, limit: u64, number: u64) -> Talk
        requires fits { FitsCore code.now limit self.now }
        requires turn { HasTurn self.now number }
        ensures { result ≡ talk_of_row code.now limit (slice_index_or self.now.rows number None) }
    {
        let Some(slot) = self.goroutines.row(number) else {
            unreachable!()
        };
        slot.state().find_talk(code, limit)
    }

    /// Makes at most `quantum` local steps of the goroutine that would be lent next, up to a request, and parks it if it is then at one.
    /// Returns its number, and the request as far as it is a send of one word or a receive; `None` if there is no goroutine to lend.
    ///
    /// Errors: out of memory, when some of the steps may be made.
    #[inline(always)]
    fn work(
        &mut self,
        alloc: Global,
        code: &Verified,
        limit: u64,
        quantum: u32,
    ) -> Result<Option<(u64, Talk)>, Memory>
        requires fits { FitsCore code.now limit self.old }
        requires going { self.old.ending ≡ None }
        ensures none { IfOk result (λ found. IfNone found ((to_lend self.old ≡ None) × (self.new ≡ self.old))) }
        ensures works { IfOk result (λ found. IfSome found (λ one. Works code.now limit quantum self.old (Some (is_asking one.1)) self.new)) }
        ensures talk { IfOk result (λ found. IfSome found (λ one. one.1 ≡ talk_of_row code.now limit (slice_index_or self.new.rows one.0 None))) }
        ensures memory { OnErr result (Works code.now limit quantum self.old None self.new) }
    {
        let Some(key) = self.least_free() else {
            return Ok(None);
        };
        let number = key.number;
        let talk = self.goroutines.talk(alloc, code, limit, number, quantum)?;
        Ok(Some((number, talk)))
    }

    /// Performs the request of the goroutine that has the turn, if it is a send of one word or a receive, and it is not the last one
    /// that a run may make.
    fn serve(
        &mut self,
        alloc: Global,
        code: &Verified,
        limit: u64,
        actor: Key,
        talk: Talk,
        spare: &mut Spare,
    ) -> Result<Talked, Memory>
        requires fits { FitsCore code.now limit self.old }
        requires actor { IsActor self.old actor.number actor.clock }
        requires talk { talk ≡ talk_of_row code.now limit (slice_index_or self.old.rows actor.number None) }
        requires going { self.old.ending ≡ None }
        ensures served { IfOk result (λ came. IsServed code.now limit self.old actor.number came self.new) }
        ensures memory { OnErr result (self.new ≡ self.old) }
    {
        // `code` says that it is verified.
        let _verified = code.code();
        if self.events + 1 == LAST {
            return Ok(Talked::Left);
        }
        match talk {
            Talk::Send(chan, word) => self.send(alloc, code, limit, actor, chan, word, spare),
            Talk::Receive(chan) => self.receive(alloc, code, limit, actor, chan, spare),
            Talk::Other | Talk::Running => Ok(Talked::Left),
        }
    }

    /// A send of one word.
    #[inline(always)]
    fn send(
        &mut self,
        alloc: Global,
        code: &Verified,
        limit: u64,
        actor: Key,
        chan: u32,
        word: Word,
        spare: &mut Spare,
    ) -> Result<Talked, Memory>
        requires asked { IsAsked code.now limit self.old actor.number actor.clock (Send (Some chan) (word ∷ [])) }
        requires fits { FitsCore code.now limit self.old }
        requires events { self.old.events < 2 ^ 62 }
        requires going { self.old.ending ≡ None }
        ensures served { IfOk result (λ came. IsServed code.now limit self.old actor.number came self.new) }
        ensures memory { OnErr result (self.new ≡ self.old) }
    {
        let later = next_time(actor.clock, limit);
        make_rooms(alloc, &mut spare.rooms, 1)?;
        match self.send_word(actor.number, chan, word)? {
            SentWord::To(receiver) => {
                self.go_on_with(code, actor.number, WordReply::Sent, later);
                let reply = WordReply::Received(word);
                self.wake_one(code, receiver, reply, later, &mut spare.rooms);
                Ok(Talked::Enough)
            }
            SentWord::Kept => {
                self.go_on_with(code, actor.number, WordReply::Sent, later);
                Ok(Talked::Enough)
            }
            SentWord::Sleeps => {
                self.fall_asleep(actor.number, &mut spare.rooms);
                Ok(Talked::Enough)
            }
            SentWord::Other => Ok(Talked::Left),
        }
    }

    /// A receive.
    #[inline(always)]
    fn receive(
        &mut self,
        alloc: Global,
        code: &Verified,
        limit: u64,
        actor: Key,
        chan: u32,
        spare: &mut Spare,
    ) -> Result<Talked, Memory>
        requires asked { IsAsked code.now limit self.old actor.number actor.clock (Receive (Some chan)) }
        requires fits { FitsCore code.now limit self.old }
        requires events { self.old.events < 2 ^ 62 }
        requires going { self.old.ending ≡ None }
        ensures served { IfOk result (λ came. IsServed code.now limit self.old actor.number came self.new) }
        ensures memory { OnErr result (self.new ≡ self.old) }
    {
        let later = next_time(actor.clock, limit);
        make_rooms(alloc, &mut spare.rooms, 1)?;
        match self.receive_word(actor.number, chan)? {
            ReceivedWord::From(word, sender) => {
                self.go_on_with(code, actor.number, WordReply::Received(word), later);
                self.wake_one(code, sender, WordReply::Sent, later, &mut spare.rooms);
                Ok(Talked::Enough)
            }
            ReceivedWord::Kept(word) => {
                self.go_on_with(code, actor.number, WordReply::Received(word), later);
                Ok(Talked::Enough)
            }
            ReceivedWord::Sleeps => {
                self.fall_asleep(actor.number, &mut spare.rooms);
                Ok(Talked::Enough)
            }
            ReceivedWord::Other => Ok(Talked::Left),
        }
    }
}

impl Situation {
    /// A send of one word by goroutine `number`; a woken goroutine has no reply yet.
    #[inline(always)]
    fn send_word(&mut self, number: u64, chan: u32, word: Word) -> Result<SentWord, Memory>
        ensures sends { IfOk result (λ sent. IsSent self.old.channels number chan word sent self.new.channels) }
        ensures rest { self.new ≡ record self.old { channels = self.new.channels } }
        ensures memory { OnErr result (self.new ≡ self.old) }
    {
        self.channels.send_word(number, chan, word)
    }

    /// A receive by goroutine `number`; a woken goroutine has no reply yet.
    #[inline(always)]
    fn receive_word(&mut self, number: u64, chan: u32) -> Result<ReceivedWord, Memory>
        ensures receives { IfOk result (λ received. IsReceived self.old.channels number chan received self.new.channels) }
        ensures rest { self.new ≡ record self.old { channels = self.new.channels } }
        ensures memory { OnErr result (self.new ≡ self.old) }
    {
        self.channels.receive_word(number, chan)
    }

    /// Completes the request of goroutine `number`: it continues with this reply, at this clock.
    #[inline(always)]
    fn go_on_with(&mut self, code: &Verified, number: u64, reply: WordReply, later: Clock)
        requires frame { IfSome (slice_index_or self.old.rows number None) (λ row. IsFrameOf code.now row.state.state) }
        requires unlent { IsUnlent (slice_index_or self.old.rows number None) }
        requires events { self.old.events < 2 ^ 62 }
        ensures { self.new ≡ record self.old { rows = answered_rows code.now self.old.rows number later (word_reply reply); events = self.old.events + 1 } }
    {
        self.goroutines.answer_word(code, number, reply, later);
        self.events += 1;
    }

    /// Wakes goroutine `number` with this reply, at this clock, with a buffer of `rooms`.
    #[inline(always)]
    fn wake_one(
        &mut self,
        code: &Verified,
        number: u64,
        reply: WordReply,
        clock: Clock,
        rooms: &mut Vec<Room>,
    )
        requires fits { IfSome (slice_index_or self.old.beds number None) (λ s. IsFrameOf code.now s.state) }
        requires room { 1 ≤ length rooms.old.items }
        ensures { self.new ≡ record self.old { rows = woken_rows code.now self.old.rows self.old.beds clock ((number, word_reply reply) ∷ []); beds = left_beds self.old.beds ((number, word_reply reply) ∷ []) } }
    {
        let Some(room) = rooms.pop() else {
            unreachable!()
        };
        self.goroutines.wake_word(number, room, code, reply, clock);
    }
}

/// Whether a goroutine with this talk is at a request.
#[inline(always)]
fn is_asking(talk: Talk) -> bool
    ensures { result ≡ is_asking talk }
{
    match talk {
        Talk::Send(_, _) | Talk::Receive(_) | Talk::Other => true,
        Talk::Running => false,
    }
}
