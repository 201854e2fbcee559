//! The functions that were called and have not returned.

ghost use Rattle.std.specs.Prelude.{◌≡◌, ◌+◌, ◌<◌, ◌≤◌, ◌^◌, ◌++◌, ◌∷◌, [], OnErr, OnOk, Some, drop, length, reverse, slice_get, take};
ghost use Rattle.bytecode.specs.Effects.{below};
ghost use Rattle.bytecode.specs.Machine.{Frame as FrameValue, Frames, begun, goes_on};
ghost use Rattle.call_frame.specs.Steps.{ahead};
ghost use Rattle.goroutine_vm_base.specs.Steps.{IsCalm, Resumes, ResumesInto, ResumesWith};
ghost use Rattle.word.specs.declared.value.Word.TheVariants.{Int};

use bytecode::WordKind;
use call_frame::frame::{Frame, empty};
use call_frame::fused::keep;
use std::alloc::{AllocError, Global};
use std::marker::Model;
use word::value::Word;

/// How many frames `trim` keeps for later calls.
const MOST_KEPT: usize = 3;

/// How many frames a goroutine that falls asleep keeps for later calls at most.
const MOST_KEPT_ASLEEP: usize = 64;

/// A nonempty stack of functions, each waiting for the one called after it; contracts list the last one called first. Frames are kept for
/// later calls; contracts don't mention these.
pub struct CallStack {
    pub(crate) frames: Vec<Frame>,
    pub(crate) depth: usize,
}

impl Drop for CallStack {
    fn drop(self) {
        let CallStack { frames, depth: _ } = self;
        drop(frames);
    }
}

impl Model for CallStack {
    ghost use Rattle.std.specs.Prelude.{◌<◌, ◌≤◌, length, reverse, take};
    ghost use Rattle.bytecode.specs.Machine.{Frames};

    ghost Value = { Frames };

    ghost view = { λ s. reverse (take s.depth s.frames.items) };

    ghost invariant = { λ s. (s.depth ≤ length s.frames.items) × (0 < s.depth) };
}

impl CallStack {
    /// The stack of these frames, the last one called last, without kept frames.
    pub fn of(frames: Vec<Frame>) -> CallStack
        requires { 0 < length frames.items }
        ensures { result ≡ reverse frames.items }
    {
        let depth = frames.len();
        CallStack { frames, depth }
    }

    /// One function alone, at its first instruction, reusing the memory of these frames. After an allocation error their contents are
    /// unspecified.
    pub fn restart(
        &mut self,
        locals: &[WordKind],
        function: usize,
        args: &[Word],
    ) -> Result<(), AllocError>
        ensures { OnOk result (self.new ≡ begun locals.now function args.now ∷ []) }
    {
        self.frames[0].restart(locals, function, args)?;
        self.depth = 1;
        Ok(())
    }

    /// Of the frames that are kept for later calls only the first few stay.
    pub fn trim(&mut self)
        ensures { self.new ≡ self.old }
    {
        self.frames.truncate(self.depth + MOST_KEPT);
    }

    /// Of the frames kept for later calls only the first `MOST_KEPT_ASLEEP` stay.
    #[inline(always)]
    pub fn trim_deep(&mut self)
        ensures { self.new ≡ self.old }
    {
        if self.frames.len() - self.depth > MOST_KEPT_ASLEEP {
            self.trim_all();
        }
    }

    /// Like `trim_deep`, but it also frees the list's own memory. It is a call, so that a goroutine with few frames falls asleep without it.
    #[inline(never)]
    fn trim_all(&mut self)
        ensures { self.new ≡ self.old }
    {
        self.frames.truncate(self.depth + MOST_KEPT_ASLEEP);
        self.frames.shrink_to_fit();
    }

    /// How many there are.
    pub fn len(&self) -> usize
        ensures len { result ≡ length self.now }
        ensures some { 0 < result }
        ensures within { result + 1 < 2 ^ 64 }
    {
        self.depth
    }

    /// The frames, the last one called last.
    pub fn as_slice(&self) -> &[Frame]
        ensures frames { reverse result.now ≡ self.now }
        ensures some { 0 < length result.now }
    {
        &self.frames[..self.depth]
    }

    /// The last one called.
    #[inline(always)]
    pub fn last(&self) -> &Frame
        ensures last { (c : FrameValue) → (cs : Frames) → self.now ≡ c ∷ cs → result.now ≡ c }
        ensures some { 0 < length self.now }
    {
        &self.frames[self.depth - 1]
    }

    /// There is at least one frame, and frames have no pending reply words.
    #[inline(always)]
    pub fn quiet(&self)
        ensures { IsCalm self.now }
    {
        self.last().quiet();
    }

    /// Puts words onto the operand stack of the last one called.
    #[inline(always)]
    pub fn put_words(&mut self, words: &[Word]) -> Result<(), AllocError>
        ensures ok { OnOk result ((c : FrameValue) → (cs : Frames) → self.old ≡ c ∷ cs → self.new ≡ record c { stack = c.stack ++ words.now } ∷ cs) }
        ensures err { OnErr result (self.new ≡ self.old) }
    {
        self.frames[self.depth - 1].push_all(words)?;
        Ok(())
    }

    /// Drops `count` words of the operand stack of the last function called, or all if there are fewer, and moves it to pc
    /// `place`.
    #[inline(always)]
    pub fn drop_to(&mut self, count: usize, place: usize)
        ensures { (c : FrameValue) → (cs : Frames) → self.old ≡ c ∷ cs → self.new ≡ record c { place = place; stack = below count c.stack } ∷ cs }
    {
        self.frames[self.depth - 1].drop_to(count, place);
    }

    /// The one that waits for the last one called.
    #[inline(always)]
    pub(crate) fn caller(&self) -> &Frame
        requires { 1 < length self.now }
        ensures { (c x : FrameValue) → (cs : Frames) → self.now ≡ c ∷ (x ∷ cs) → result.now ≡ x }
    {
        &self.frames[self.depth - 2]
    }

    /// The last function called calls another with its stack's words from an index on, and waits after the call.
    #[inline(always)]
    pub(crate) fn enter(
        &mut self,
        alloc: Global,
        locals: &[WordKind],
        function: usize,
        at: usize,
    ) -> Result<(), AllocError>
        requires some { 0 < length self.old }
        requires at { (c : FrameValue) → (cs : Frames) → self.old ≡ c ∷ cs → at ≤ length c.stack }
        requires place { (c : FrameValue) → (cs : Frames) → self.old ≡ c ∷ cs → c.place + 1 < 2 ^ 64 }
        ensures ok { OnOk result ((c : FrameValue) → (cs : Frames) → self.old ≡ c ∷ cs → self.new ≡ begun locals.now function (drop at c.stack) ∷ (goes_on c (take at c.stack) ∷ cs)) }
        ensures err { OnErr result (self.new ≡ self.old) }
        ensures some { 0 < length self.new }
    {
        keep_one(alloc, &mut self.frames, self.depth)?;
        call_next(
            self.frames.as_mut_slice(),
            self.depth - 1,
            locals,
            function,
            at,
        )?;
        self.depth += 1;
        Ok(())
    }

    /// The last function called calls another with an int, and waits at instruction `next`.
    #[inline(always)]
    pub(crate) fn enter_with(
        &mut self,
        alloc: Global,
        locals: &[WordKind],
        function: usize,
        number: i64,
        next: usize,
    ) -> Result<(), AllocError>
        requires { 0 < length self.old }
        ensures ok { OnOk result ((c : FrameValue) → (cs : Frames) → self.old ≡ c ∷ cs → self.new ≡ begun locals.now function (Int number ∷ []) ∷ (ahead c next c.stack ∷ cs)) }
        ensures err { OnErr result (self.new ≡ self.old) }
        ensures some { 0 < length self.new }
    {
        keep_one(alloc, &mut self.frames, self.depth)?;
        let last = self.depth - 1;
        call_next_with(
            self.frames.as_mut_slice(),
            last,
            locals,
            function,
            number,
            next,
        )?;
        self.depth += 1;
        Ok(())
    }

    /// The last one called returns to the one before it with an int.
    #[inline(always)]
    pub(crate) fn resume_with(&mut self, number: i64) -> Result<(), AllocError>
        requires { 1 < length self.old }
        ensures ok { OnOk result (ResumesWith number self.old self.new) }
        ensures err { OnErr result (self.new ≡ self.old) }
    {
        self.frames[self.depth - 2].push_number(number)?;
        self.depth -= 1;
        Ok(())
    }

    /// The last function called returns an int to its caller, which stores it in a local and makes the tick after that.
    #[inline(always)]
    pub(crate) fn resume_into(&mut self, to: usize, number: i64)
        requires some { 1 < length self.old }
        requires to { (c x : FrameValue) → (cs : Frames) → self.old ≡ c ∷ (x ∷ cs) → to < length x.locals }
        requires place { (c x : FrameValue) → (cs : Frames) → self.old ≡ c ∷ (x ∷ cs) → x.place + 2 < 2 ^ 64 }
        ensures { ResumesInto to number self.old self.new }
    {
        let frame = &mut self.frames[self.depth - 2];
        let next = frame.place() + 2;
        keep(frame, to, number, next);
        self.depth -= 1;
    }

    /// The last one called returns to the one before it, with the words of its stack.
    #[inline(always)]
    pub(crate) fn resume(&mut self) -> Result<(), AllocError>
        requires { 1 < length self.old }
        ensures ok { OnOk result (Resumes self.old self.new) }
        ensures err { OnErr result (self.new ≡ self.old) }
    {
        return_next(self.frames.as_mut_slice(), self.depth - 2)?;
        self.depth -= 1;
        Ok(())
    }
}

/// Makes sure that there is a kept frame after the first `depth`.
fn keep_one(alloc: Global, frames: &mut Vec<Frame>, depth: usize) -> Result<(), AllocError>
    requires { depth ≤ length frames.old.items }
    ensures kept { OnOk result (depth < length frames.new.items) }
    ensures same { take depth frames.new.items ≡ take depth frames.old.items }
    ensures len { depth ≤ length frames.new.items }
{
    if depth == frames.len() {
        frames.push(empty(alloc))?;
    }
    Ok(())
}

/// The function at an index of these frames calls the next with its stack's words from an index on, and waits after the call.
#[inline(always)]
fn call_next(
    frames: &mut [Frame],
    place: usize,
    locals: &[WordKind],
    function: usize,
    at: usize,
) -> Result<(), AllocError>
    requires within { place + 1 < length frames.old }
    requires at { (c : FrameValue) → slice_get frames.old place ≡ Some c → at ≤ length c.stack }
    requires place { (c : FrameValue) → slice_get frames.old place ≡ Some c → c.place + 1 < 2 ^ 64 }
    ensures ok { OnOk result ((c : FrameValue) → slice_get frames.old place ≡ Some c → frames.new ≡ take place frames.old ++ goes_on c (take at c.stack) ∷ (begun locals.now function (drop at c.stack) ∷ drop (place + 2) frames.old)) }
    ensures err { OnErr result (take (place + 1) frames.new ≡ take (place + 1) frames.old) }
    ensures len { length frames.new ≡ length frames.old }
{
    let (waiting, called) = frames.split_at_mut(place + 1);
    waiting[place].enter(&mut called[0], locals, function, at)?;
    Ok(())
}

/// The function at an index of these frames calls the next with an int, and then waits at another instruction.
#[inline(always)]
fn call_next_with(
    frames: &mut [Frame],
    place: usize,
    locals: &[WordKind],
    function: usize,
    number: i64,
    next: usize,
) -> Result<(), AllocError>
    requires within { place + 1 < length frames.old }
    ensures ok { OnOk result ((c : FrameValue) → slice_get frames.old place ≡ Some c → frames.new ≡ take place frames.old ++ ahead c next c.stack ∷ (begun locals.now function (Int number ∷ []) ∷ drop (place + 2) frames.old)) }
    ensures err { OnErr result (take (place + 1) frames.new ≡ take (place + 1) frames.old) }
    ensures len { length frames.new ≡ length frames.old }
{
    let (waiting, called) = frames.split_at_mut(place + 1);
    waiting[place].enter_with(&mut called[0], locals, function, number, next)?;
    Ok(())
}

/// The function at index `place` of these frames takes the words of the stack of the one after it.
#[inline(always)]
fn return_next(frames: &mut [Frame], place: usize) -> Result<(), AllocError>
    requires within { place + 1 < length frames.old }
    ensures ok { OnOk result ((c : FrameValue) → (d : FrameValue) → slice_get frames.old place ≡ Some c → slice_get frames.old (place + 1) ≡ Some d → take (place + 1) frames.new ≡ take place frames.old ++ record c { stack = c.stack ++ d.stack } ∷ []) }
    ensures err { OnErr result (frames.new ≡ frames.old) }
    ensures len { length frames.new ≡ length frames.old }
{
    let (waiting, ended) = frames.split_at_mut(place + 1);
    waiting[place].take_results(&ended[0])?;
    Ok(())
}
