//! Goroutines that send and receive single words.

ghost use Rattle.std.specs.Prelude.{◌≡◌, ◌∷◌, [], IfOk, None, OnErr, true};
ghost use Rattle.bytecode.specs.Machine.{code_kind};
ghost use Rattle.bytecode.specs.Rules.{IsFrameOf};
ghost use Rattle.goroutine_vm.specs.Advance.{Goes, IsStateOf, steps};
ghost use Rattle.goroutine_vm_request.specs.Talks.{talk_at, talk_of};
ghost use Rattle.word.specs.Kinds.{asks, told};
ghost use Rattle.word.specs.Values.{Nothing, Received};

use crate::state::GoState;
use go_text::Memory;
use goroutine_vm_request::Talk;
use logical_clock::Clock;
use std::alloc::Global;
use verifier::Verified;
use word::value::Word;

impl GoState {
    /// Makes at most `quantum` local steps, like `step_ahead`, and returns the request that the goroutine is then at, if it is a send of one
    /// word or a receive.
    ///
    /// Errors: out of memory. The goroutine is then at no request, and some of the steps may be made.
    #[inline(always)]
    pub fn talk_ahead(
        &mut self,
        alloc: Global,
        code: &Verified,
        limit: u64,
        quantum: u32,
    ) -> Result<Talk, Memory>
        requires { IsStateOf code.now limit self.old }
        ensures talk { IfOk result (λ talk. talk ≡ talk_of (asks (code_kind code.now) limit self.new)) }
        ensures quantum { IfOk result (λ talk. talk ≡ Talk.Running → steps code.now limit quantum self.old ≡ self.new) }
        ensures local { OnErr result (asks (code_kind code.now) limit self.new ≡ None) }
        ensures steps { Goes code.now limit quantum self.old self.new }
        ensures state { IsStateOf code.now limit self.new }
    {
        let made = self.run(alloc, code, limit, quantum);
        match self.find_talk(code, limit) {
            Talk::Other => self.talk_slowly(alloc, code, limit, quantum - made),
            talk => Ok(talk),
        }
    }

    /// Like `talk_ahead`. It is a call, so that a goroutine which `run` takes to a send or a receive needs no part of it.
    #[inline(never)]
    fn talk_slowly(
        &mut self,
        alloc: Global,
        code: &Verified,
        limit: u64,
        quantum: u32,
    ) -> Result<Talk, Memory>
        requires { IsStateOf code.now limit self.old }
        ensures talk { IfOk result (λ talk. talk ≡ talk_of (asks (code_kind code.now) limit self.new)) }
        ensures quantum { IfOk result (λ talk. talk ≡ Talk.Running → steps code.now limit quantum self.old ≡ self.new) }
        ensures local { OnErr result (asks (code_kind code.now) limit self.new ≡ None) }
        ensures steps { Goes code.now limit quantum self.old self.new }
        ensures state { IsStateOf code.now limit self.new }
    {
        if self.step_ahead(alloc, code, limit, quantum)? {
            return Ok(self.find_talk(code, limit));
        }
        Ok(Talk::Running)
    }

    /// The request that the goroutine is at, if it is a send of one word or a receive; `Other` if it is not, or if it is at none.
    #[inline(always)]
    pub fn find_talk(&self, code: &Verified, limit: u64) -> Talk
        requires { IsStateOf code.now limit self.now }
        ensures { result ≡ talk_at (asks (code_kind code.now) limit self.now) }
    {
        if self.doomed || self.clock.time() >= limit {
            return Talk::Other;
        }
        self.frames.find_talk(code.code())
    }

    /// The goroutine's send is done: it goes on at this clock. Like `answer` with `Nothing`.
    #[inline(always)]
    pub fn sent(&mut self, code: &Verified, clock: Clock)
        requires { IsFrameOf code.now self.old.state }
        ensures told { self.new ≡ told (code_kind code.now) self.old clock Nothing }
        ensures frame { IsFrameOf code.now self.new.state }
    {
        self.frames.tell(code.code(), None, &[]);
        self.clock = clock;
        self.doomed = false;
    }

    /// The goroutine's receive is done: it goes on with this word at this clock. Like `answer` with `Received`.
    #[inline(always)]
    pub fn received(&mut self, code: &Verified, word: Word, clock: Clock)
        requires { IsFrameOf code.now self.old.state }
        ensures told { self.new ≡ told (code_kind code.now) self.old clock (Received (word ∷ []) true) }
        ensures frame { IsFrameOf code.now self.new.state }
    {
        self.frames
            .tell(code.code(), None, &[word, Word::Bool(true)]);
        self.clock = clock;
        self.doomed = false;
    }
}
