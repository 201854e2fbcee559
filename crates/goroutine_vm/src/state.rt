//! A goroutine's state, and its local steps.

ghost use Rattle.std.specs.Prelude.{◌≡◌, ◌+◌, ◌<◌, ◌≤◌, ◌^◌, ◌↔◌, ◌++◌, ◌∷◌, [], false, true, IsTrue, IfOk, List, OnErr, OnOk, None, Some, cond, length, option_map, reverse};
ghost use Rattle.std.specs.Option.{is_some};
ghost use Rattle.bytecode.specs.Code.{Code};
ghost use Rattle.bytecode.specs.Machine.{code_begin, code_kind, code_next, frames_told, reply_words};
ghost use Rattle.bytecode.specs.Rules.{IsFrameOf, IsVerified};
ghost use Rattle.call_frame.specs.Steps.{Does};
ghost use Rattle.goroutine_vm.specs.Told.{with_told};
ghost use Rattle.goroutine_vm.specs.Advance.{Advances, Bursts, Goes, IsAsking, IsFew, IsStateOf, IsStop, Turns, steps};
ghost use Rattle.word.specs.Kinds.{asks, at, told};
ghost use Rattle.word.specs.Views.{reply_of, request_of};

use crate::frames::Frames;
use crate::told::words_of;
use call_frame::frame::Frame;
use call_frame::outcome::Stepped;
use go_text::Memory;
use goroutine_vm_request::RequestLists;
use logical_clock::Clock;
use std::alloc::{AllocError, Global};
use std::marker::Model;
use verifier::Verified;
use word::panic::Panic;
use word::request::{Reply, Request};
use word::value::{Item, Word};

/// A goroutine: its clock, whether a close woke it at its send, and the functions that run.
pub struct GoState {
    pub(crate) clock: Clock,
    pub(crate) doomed: bool,
    pub(crate) frames: Frames,
}

impl Drop for GoState {
    fn drop(self) {
        let GoState {
            clock: _,
            doomed: _,
            frames,
        } = self;
        drop(frames);
    }
}

impl Model for GoState {
    ghost use Rattle.bytecode.specs.Machine.{Frames as FramesValue};
    ghost use Rattle.word.specs.Kinds.{Clocked};

    ghost Value = { Clocked FramesValue };

    ghost view = { λ s. record { clock = s.clock; doomed = s.doomed; state = s.frames } };
}

/// Why the machine stopped.
#[derive(Drop)]
pub enum Stop {
    /// The goroutine is at this request, which is not performed.
    AtOp(Request),
    /// It made all the steps that it was given.
    Quantum,
}

/// A goroutine at the first instruction of a function, with these words as parameters.
pub fn spawn_state(
    alloc: Global,
    code: &Verified,
    function: usize,
    args: &[Word],
    clock: Clock,
) -> Result<GoState, Memory>
    requires { function < length code.now.functions }
    ensures begins { IfOk result (λ s. s ≡ at clock (code_begin code.now function args.now)) }
    ensures frame { IfOk result (λ s. IsFrameOf code.now s.state) }
{
    Ok(GoState {
        clock,
        doomed: false,
        frames: Frames::begin(alloc, code.code(), function, args)?,
    })
}

impl GoState {
    /// A goroutine at the first instruction of a function, with these words as parameters. It reuses the memory of one that has ended.
    /// After `Memory` its state is unspecified.
    pub fn restart(
        &mut self,
        code: &Verified,
        function: usize,
        args: &[Word],
        clock: Clock,
    ) -> Result<(), Memory>
        requires { function < length code.now.functions }
        ensures begins { OnOk result (self.new ≡ at clock (code_begin code.now function args.now)) }
        ensures frame { OnOk result (IsFrameOf code.now self.new.state) }
    {
        self.frames.restart(code.code(), function, args)?;
        self.clock = clock;
        self.doomed = false;
        Ok(())
    }

    /// Frees most memory kept for later calls.
    pub fn trim(&mut self)
        ensures { self.new ≡ self.old }
    {
        self.frames.trim();
    }

    /// Its parts.
    pub(crate) fn into_parts(self) -> (Clock, bool, Frames)
        ensures { record { clock = result.0; doomed = result.1; state = result.2 } ≡ self }
    {
        let GoState {
            clock,
            doomed,
            frames,
        } = self;
        (clock, doomed, frames)
    }

    /// The goroutine's clock.
    pub fn clock(&self) -> Clock
        ensures { result ≡ self.now.clock }
    {
        self.clock
    }

    /// The functions that run, the one called last at the end. Pending reply words are not on the stack yet.
    pub fn frames(&self) -> &[Frame]
        ensures frames { (words : List Word) × (self.now.state ≡ with_told words (reverse result.now)) }
    {
        self.frames.as_slice()
    }

    /// A copy of the state.
    pub fn try_clone(&self, alloc: Global) -> Result<GoState, AllocError>
        ensures { IfOk result (λ s. s ≡ self.now) }
    {
        Ok(GoState {
            clock: self.clock,
            doomed: self.doomed,
            frames: self.frames.try_clone(alloc)?,
        })
    }

    /// Whether the two states are equal.
    pub fn is_same(&self, other: &GoState) -> bool
        ensures { IsTrue result ↔ (self.now ≡ other.now) }
    {
        if self.clock != other.clock || self.doomed != other.doomed {
            return false;
        }
        self.frames.is_same(&other.frames)
    }
}

impl GoState {
    /// At most `quantum` local steps, up to a request. After 13 the state is the one before the instruction that needed
    /// memory.
    pub fn advance(
        &mut self,
        alloc: Global,
        code: &Verified,
        limit: u64,
        quantum: u32,
    ) -> Result<Stop, Memory>
        requires { IsStateOf code.now limit self.old }
        ensures stop { IfOk result (λ stop. Advances code.now limit quantum self.old stop self.new) }
        ensures steps { Goes code.now limit quantum self.old self.new }
        ensures few { IfOk result (λ stop. IsFew code.now quantum self.old stop self.new) }
        ensures state { IsStateOf code.now limit self.new }
    {
        self.step_ahead(alloc, code, limit, quantum)?;
        self.stop(alloc, code, limit)
    }

    /// Like `advance`, but returns only whether the goroutine is then at a request. After 13 it is at none, and some of the steps may be
    /// made.
    pub fn step_ahead(
        &mut self,
        alloc: Global,
        code: &Verified,
        limit: u64,
        quantum: u32,
    ) -> Result<bool, Memory>
        requires { IsStateOf code.now limit self.old }
        ensures asks { IfOk result (λ asking. asking ≡ is_some (asks (code_kind code.now) limit self.new)) }
        ensures quantum { IfOk result (λ asking. asking ≡ false → steps code.now limit quantum self.old ≡ self.new) }
        ensures local { OnErr result (asks (code_kind code.now) limit self.new ≡ None) }
        ensures steps { Goes code.now limit quantum self.old self.new }
        ensures state { IsStateOf code.now limit self.new }
    {
        let mut made = 0;
        while made < quantum {
            match self.burst(alloc, code, limit, quantum - made) {
                Ok(Some(steps)) => made += steps,
                Ok(None) => return Ok(true),
                Err(Memory) => return self.refused(code, limit),
            }
        }
        Ok(self.is_asking(code, limit))
    }

    /// The result of steps after an allocation failed: `Memory`, or true if the goroutine is at a request, which needs no memory.
    fn refused(&self, code: &Verified, limit: u64) -> Result<bool, Memory>
        requires { IsStateOf code.now limit self.now }
        ensures asks { IfOk result (λ asking. (asking ≡ true) × IsAsking code.now limit self.now) }
        ensures local { OnErr result (asks (code_kind code.now) limit self.now ≡ None) }
    {
        if self.is_asking(code, limit) {
            return Ok(true);
        }
        Err(Memory)
    }

    /// The request that the goroutine is at, or `Quantum` if it is at none.
    fn stop(&self, alloc: Global, code: &Verified, limit: u64) -> Result<Stop, Memory>
        requires { IsStateOf code.now limit self.now }
        ensures stop { IfOk result (λ stop. IsStop code.now limit self.now stop) }
        ensures verified { IsVerified code.now }
    {
        match self.asked(alloc, code, limit)? {
            Some(request) => Ok(Stop::AtOp(request)),
            None => Ok(Stop::Quantum),
        }
    }

    /// Makes at most `left` local steps. Returns how many, at least 1; or `None` if the goroutine is then at a request.
    fn burst(
        &mut self,
        alloc: Global,
        code: &Verified,
        limit: u64,
        left: u32,
    ) -> Result<Option<u32>, Memory>
        requires state { IsStateOf code.now limit self.old }
        requires left { 0 < left }
        ensures steps { Goes code.now limit left self.old self.new }
        ensures made { IfOk result (λ made. Bursts code.now limit left self.old made self.new) }
        ensures state { IsStateOf code.now limit self.new }
    {
        let ran = self.run(alloc, code, limit, left);
        if ran == left {
            return Ok(Some(ran));
        }
        if self.turn(alloc, code, limit)? {
            return Ok(None);
        }
        Ok(Some(ran + 1))
    }

    /// Makes at most `left` local steps; returns how many. It may stop before any step.
    pub(crate) fn run(&mut self, alloc: Global, code: &Verified, limit: u64, left: u32) -> u32
        requires { IsStateOf code.now limit self.old }
        ensures steps { steps code.now limit result self.old ≡ self.new }
        ensures most { result ≤ left }
        ensures state { IsStateOf code.now limit self.new }
    {
        let now = self.clock().time();
        if self.doomed || now >= limit {
            return 0;
        }
        let table = code.superinstructions();
        let (steps, ticks) = self
            .frames
            .run(alloc, code.code(), table, left, limit - now);
        self.clock = Clock::at(now + ticks);
        steps
    }

    /// Makes one local step, or returns true if the goroutine is at a request instead.
    fn turn(&mut self, alloc: Global, code: &Verified, limit: u64) -> Result<bool, Memory>
        requires { IsStateOf code.now limit self.old }
        ensures turn { IfOk result (λ asks. Turns code.now limit self.old asks self.new) }
        ensures memory { OnErr result (self.new ≡ self.old) }
        ensures state { IsStateOf code.now limit self.new }
    {
        let source = code.code();
        if self.doomed {
            return Ok(true);
        }
        if self.frames.is_at_request(source) {
            return Ok(true);
        }
        let may = self.clock.time() < limit;
        match self.frames.step(alloc, source, may)? {
            Stepped::Slid => Ok(false),
            Stepped::Ticked => {
                if !may {
                    return Ok(true);
                }
                self.clock = Clock::at(self.clock.time() + 1);
                Ok(false)
            }
            Stepped::Asking => Ok(true),
            Stepped::Stuck => unreachable!(),
        }
    }

    /// The request that the goroutine is at, if its next instruction isn't a local step.
    fn asked(&self, alloc: Global, code: &Verified, limit: u64) -> Result<Option<Request>, Memory>
        requires { IsStateOf code.now limit self.now }
        ensures asks { IfOk result (λ request. asks (code_kind code.now) limit self.now ≡ option_map request_of request) }
        ensures verified { IsVerified code.now }
    {
        let mut request = Request::End;
        let mut lists = RequestLists::new(alloc);
        if self.ask(&mut lists, code, limit, &mut request)? {
            return Ok(Some(request));
        }
        Ok(None)
    }

    /// Whether the goroutine is at a request, which is then written to `place`, using the memory of `lists`.
    pub fn ask(
        &self,
        lists: &mut RequestLists,
        code: &Verified,
        limit: u64,
        place: &mut Request,
    ) -> Result<bool, Memory>
        requires { IsStateOf code.now limit self.now }
        ensures asks { IfOk result (λ asking. asks (code_kind code.now) limit self.now ≡ option_map request_of (cond asking (Some place.new) None)) }
        ensures verified { IsVerified code.now }
    {
        let code = code.code();
        if self.doomed {
            *place = self.last_request(limit);
            return Ok(true);
        }
        if self.clock.time() >= limit {
            if self.frames.is_asking(code, true) {
                *place = Request::Exhausted;
                return Ok(true);
            }
            return Ok(false);
        }
        if !self.frames.ask(lists, code, place)? {
            return Ok(false);
        }
        Ok(true)
    }

    /// Whether the goroutine is at a request.
    pub fn is_asking(&self, code: &Verified, limit: u64) -> bool
        requires { IsStateOf code.now limit self.now }
        ensures { result ≡ is_some (asks (code_kind code.now) limit self.now) }
    {
        if self.doomed {
            return true;
        }
        self.frames
            .is_asking(code.code(), self.clock.time() >= limit)
    }

    /// The request of a goroutine that a close woke at its send: it panics, or at the limit is `Exhausted`.
    fn last_request(&self, limit: u64) -> Request
        requires doomed { self.now.doomed ≡ true }
        requires clock { self.now.clock ≤ limit }
        ensures { (code : Code) → asks (code_kind code) limit self.now ≡ Some (request_of result) }
    {
        if self.clock().time() >= limit {
            return Request::Exhausted;
        }
        Request::Panic(Panic::SendOnClosed)
    }

    /// Gives the goroutine the reply to its request, at this clock. One that a close woke at its send panics next.
    pub fn answer(&mut self, code: &Verified, reply: Reply, clock: Clock)
        requires { IsFrameOf code.now self.old.state }
        ensures told { self.new ≡ told (code_kind code.now) self.old clock (reply_of reply) }
        ensures frame { IsFrameOf code.now self.new.state }
    {
        self.tell(code, &reply, clock);
    }

    /// Like `answer`, but borrows the reply.
    pub fn tell(&mut self, code: &Verified, reply: &Reply, clock: Clock)
        requires { IsFrameOf code.now self.old.state }
        ensures told { self.new ≡ told (code_kind code.now) self.old clock (reply_of reply.now) }
        ensures frame { IsFrameOf code.now self.new.state }
    {
        match reply {
            Reply::Closed => self.doom(clock),
            Reply::Nothing => self.go_on(code, None, &[], clock),
            Reply::Word(word) => self.go_on(code, None, &[*word], clock),
            Reply::Received(item, ok) => self.receive(code, None, item, *ok, clock),
            Reply::Clause(clause, None) => self.go_on(code, Some(*clause), &[], clock),
            Reply::Clause(clause, Some((item, ok))) => {
                self.receive(code, Some(*clause), item, *ok, clock);
            }
            Reply::Default => self.go_on(code, None, &[], clock),
        }
    }

    /// Completes a receive, or the receive clause `clause` of a select, with this item at this clock. Inlined for items of one word.
    #[inline(always)]
    fn receive(
        &mut self,
        code: &Verified,
        clause: Option<usize>,
        item: &Item,
        ok: bool,
        clock: Clock,
    )
        requires { IsFrameOf code.now self.old.state }
        ensures told { self.new ≡ at clock (frames_told code.now self.old.state clause (item.now ++ Word.Bool ok ∷ [])) }
        ensures frame { IsFrameOf code.now self.new.state }
    {
        match item.words() {
            [word] => self.go_on(code, clause, &[*word, Word::Bool(ok)], clock),
            _ => self.receive_all(code, clause, item, ok, clock),
        }
    }

    /// Like `receive`, for any number of words.
    #[inline(never)]
    fn receive_all(
        &mut self,
        code: &Verified,
        clause: Option<usize>,
        item: &Item,
        ok: bool,
        clock: Clock,
    )
        requires { IsFrameOf code.now self.old.state }
        ensures told { self.new ≡ at clock (frames_told code.now self.old.state clause (item.now ++ Word.Bool ok ∷ [])) }
        ensures frame { IsFrameOf code.now self.new.state }
    {
        let words = words_of(item, ok);
        self.go_on(code, clause, words.words(), clock);
    }

    /// A close woke the goroutine at its send, at this clock.
    fn doom(&mut self, clock: Clock)
        ensures { self.new ≡ record { clock = clock; doomed = true; state = self.old.state } }
    {
        self.clock = clock;
        self.doomed = true;
    }

    /// Completes the request with the reply words `words`, at this clock. Of a select, `clause` is the clause that was done, or `None`
    /// for the default.
    fn go_on(&mut self, code: &Verified, clause: Option<usize>, words: &[Word], clock: Clock)
        requires { IsFrameOf code.now self.old.state }
        ensures told { self.new ≡ at clock (frames_told code.now self.old.state clause words.now) }
        ensures frame { IsFrameOf code.now self.new.state }
    {
        self.frames.tell(code.code(), clause, words);
        self.clock = clock;
        self.doomed = false;
    }
}
