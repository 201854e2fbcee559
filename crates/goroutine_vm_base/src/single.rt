//! One instruction of the function called last.

ghost use Rattle.std.specs.Prelude.{◌≡◌, ◌+◌, ◌<◌, ◌≤◌, ◌^◌, ◌∷◌, IfOk, OnErr, Bool, drop, length, take};
ghost use Rattle.bytecode.specs.Code.{Code as CodeValue};
ghost use Rattle.bytecode.specs.Machine.{Frame as FrameValue, Frames, instr_next};
ghost use Rattle.call_frame.specs.Steps.{Does, FitsAt, Remains};
ghost use Rattle.word.specs.Kinds.{Stuck};

use crate::call_stack::CallStack;
use bytecode::{Code, Instr};
use call_frame::outcome::Stepped;
use call_frame::plain::plain;
use std::alloc::{AllocError, Global};
use word::limits::MAX_DEPTH;

/// The last function called calls another with its stack's words from index `at` on, if a tick may be made; or requests a panic.
#[inline(always)]
pub fn call(
    alloc: Global,
    code: &Code,
    may: bool,
    frames: &mut CallStack,
    function: u32,
    at: usize,
) -> Result<Stepped, AllocError>
    requires some { 0 < length frames.old }
    requires at { (c : FrameValue) → (cs : Frames) → frames.old ≡ c ∷ cs → at ≤ length c.stack }
    requires place { (c : FrameValue) → (cs : Frames) → frames.old ≡ c ∷ cs → c.place + 1 < 2 ^ 64 }
    ensures ok { IfOk result (λ step. (c : FrameValue) → (cs : Frames) → frames.old ≡ c ∷ cs → Does may frames.old (instr_next code.now c cs (take at c.stack) (drop at c.stack) (Instr.Call function)) step frames.new) }
    ensures err { OnErr result (frames.new ≡ frames.old) }
    ensures some { 0 < length frames.new }
{
    let functions = code.functions();
    if function as usize >= functions.len() {
        return Ok(Stepped::Stuck);
    }
    if frames.len() >= MAX_DEPTH {
        return Ok(Stepped::Asking);
    }
    if !may {
        return Ok(Stepped::Ticked);
    }
    let locals = functions[function as usize].locals();
    frames.enter(alloc, locals, function as usize, at)?;
    Ok(Stepped::Ticked)
}

/// The last function called returns to its caller with the words on its stack; or requests its end.
#[inline(always)]
pub fn leave(frames: &mut CallStack, at: usize) -> Result<Stepped, AllocError>
    requires some { 0 < length frames.old }
    requires at { (c : FrameValue) → (cs : Frames) → frames.old ≡ c ∷ cs → at ≤ length c.stack }
    ensures ok { IfOk result (λ step. (may : Bool) → (code : CodeValue) → (c : FrameValue) → (cs : Frames) → frames.old ≡ c ∷ cs → Does may frames.old (instr_next code c cs (take at c.stack) (drop at c.stack) Instr.Return) step frames.new) }
    ensures err { OnErr result (frames.new ≡ frames.old) }
    ensures some { 0 < length frames.new }
{
    if at > 0 {
        return Ok(Stepped::Stuck);
    }
    if frames.len() == 1 {
        return Ok(Stepped::Asking);
    }
    frames.resume()?;
    Ok(Stepped::Slid)
}

impl CallStack {
    /// Such an instruction of the last one called.
    fn plain_last(
        &mut self,
        alloc: Global,
        may: bool,
        i: Instr,
        at: usize,
    ) -> Result<Stepped, AllocError>
        requires place { (c : FrameValue) → (cs : Frames) → self.old ≡ c ∷ cs → c.place + 1 < 2 ^ 64 }
        requires at { (c : FrameValue) → (cs : Frames) → self.old ≡ c ∷ cs → FitsAt i at (length c.stack) }
        requires below { (c : FrameValue) → (cs : Frames) → self.old ≡ c ∷ cs → at ≤ length c.stack }
        requires remains { Remains i }
        ensures ok { IfOk result (λ step. (code : CodeValue) → (c : FrameValue) → (cs : Frames) → self.old ≡ c ∷ cs → (instr_next code c cs (take at c.stack) (drop at c.stack) i ≡ Stuck → ⊥) → Does may self.old (instr_next code c cs (take at c.stack) (drop at c.stack) i) step self.new) }
        ensures err { OnErr result (self.new ≡ self.old) }
    {
        plain(alloc, may, &mut self.frames[self.depth - 1], i, at)
    }
}

/// One instruction of the last function called, whose operands begin at index `at` of its stack; `may` is whether a tick is made.
pub fn instr(
    alloc: Global,
    code: &Code,
    may: bool,
    frames: &mut CallStack,
    i: Instr,
    at: usize,
) -> Result<Stepped, AllocError>
    requires place { (c : FrameValue) → (cs : Frames) → frames.old ≡ c ∷ cs → c.place + 1 < 2 ^ 64 }
    requires at { (c : FrameValue) → (cs : Frames) → frames.old ≡ c ∷ cs → FitsAt i at (length c.stack) }
    requires below { (c : FrameValue) → (cs : Frames) → frames.old ≡ c ∷ cs → at ≤ length c.stack }
    ensures ok { IfOk result (λ step. (c : FrameValue) → (cs : Frames) → frames.old ≡ c ∷ cs → (instr_next code.now c cs (take at c.stack) (drop at c.stack) i ≡ Stuck → ⊥) → Does may frames.old (instr_next code.now c cs (take at c.stack) (drop at c.stack) i) step frames.new) }
    ensures err { OnErr result (frames.new ≡ frames.old) }
{
    let _first = frames.last();
    match i {
        Instr::Call(function) => call(alloc, code, may, frames, function, at),
        Instr::Return => leave(frames, at),
        _ => frames.plain_last(alloc, may, i, at),
    }
}
