//! One instruction of the function that runs, which neither calls a function nor returns from one.

ghost use Rattle.std.specs.Prelude.{◌≡◌, ◌+◌, ◌<◌, ◌≤◌, ◌^◌, ◌∷◌, Bool, IfOk, OnErr, drop, length, take};
ghost use Rattle.bytecode.specs.Code.{Code as CodeValue};
ghost use Rattle.bytecode.specs.Machine.{Frames, instr_next};
ghost use Rattle.call_frame.specs.Steps.{Does, FitsAt, Remains};
ghost use Rattle.word.specs.Kinds.{Stuck};

use crate::frame::Frame;
use crate::instrs::{choose, go_to, load, operate, pick, push, store, tick_to};
use crate::outcome::Stepped;
use bytecode::Instr;
use std::alloc::{AllocError, Global};
use word::value::Word;

/// An instruction that neither calls a function nor returns from one, and whose operands begin at `at` of the stack; `may` is
/// whether a tick is made.
pub fn plain(
    alloc: Global,
    may: bool,
    frame: &mut Frame,
    i: Instr,
    at: usize,
) -> Result<Stepped, AllocError>
    requires place { frame.old.place + 1 < 2 ^ 64 }
    requires at { FitsAt i at (length frame.old.stack) }
    requires below { at ≤ length frame.old.stack }
    requires remains { Remains i }
    ensures ok { IfOk result (λ step. (code : CodeValue) → (callers : Frames) → (instr_next code frame.old callers (take at frame.old.stack) (drop at frame.old.stack) i ≡ Stuck → ⊥) → Does may (frame.old ∷ callers) (instr_next code frame.old callers (take at frame.old.stack) (drop at frame.old.stack) i) step (frame.new ∷ callers)) }
    ensures err { OnErr result (frame.new ≡ frame.old) }
{
    match i {
        Instr::Int(number) => {
            push(frame, Word::Int(number))?;
            Ok(Stepped::Slid)
        }
        Instr::Bool(truth) => {
            push(frame, Word::Bool(truth))?;
            Ok(Stepped::Slid)
        }
        Instr::Nil(_) => {
            push(frame, Word::Chan(None))?;
            Ok(Stepped::Slid)
        }
        Instr::Load(a, n) => load_range(frame, a, n, at),
        Instr::Store(a, n) => Ok(store_range(frame, a, n, at)),
        Instr::Pick(t, a, n) => pick_range(alloc, frame, t, a, n, at),
        Instr::Discard(_) => {
            let next = frame.place + 1;
            go_to(frame, next, at);
            Ok(Stepped::Slid)
        }
        Instr::Apply(op) => Ok(operate(frame, op, at)),
        Instr::Tick => {
            let next = frame.place + 1;
            Ok(tick_to(may, frame, next, at))
        }
        Instr::Jump(to) => {
            go_to(frame, to as usize, at);
            Ok(Stepped::Slid)
        }
        Instr::Unless(to) => Ok(choose(frame, to as usize, at)),
        Instr::Loop(to) => Ok(tick_to(may, frame, to as usize, at)),
        _ => Ok(Stepped::Asking),
    }
}

/// Pushes locals `from .. from + count`; `Stuck` if there are fewer. The operands begin at `at` of the stack.
#[inline(always)]
fn load_range(frame: &mut Frame, from: u32, count: u32, at: usize) -> Result<Stepped, AllocError>
    requires place { frame.old.place + 1 < 2 ^ 64 }
    requires at { FitsAt (Instr.Load from count) at (length frame.old.stack) }
    ensures ok { IfOk result (λ step. (may : Bool) → (code : CodeValue) → (callers : Frames) → (instr_next code frame.old callers (take at frame.old.stack) (drop at frame.old.stack) (Instr.Load from count) ≡ Stuck → ⊥) → Does may (frame.old ∷ callers) (instr_next code frame.old callers (take at frame.old.stack) (drop at frame.old.stack) (Instr.Load from count)) step (frame.new ∷ callers)) }
    ensures err { OnErr result (frame.new ≡ frame.old) }
{
    let to = from as usize + count as usize;
    if to > frame.locals.len() {
        return Ok(Stepped::Stuck);
    }
    load(frame, from as usize, to)?;
    Ok(Stepped::Slid)
}

/// Pops words into locals `from .. from + count`; `Stuck` if there are fewer.
#[inline(always)]
fn store_range(frame: &mut Frame, from: u32, count: u32, at: usize) -> Stepped
    requires place { frame.old.place + 1 < 2 ^ 64 }
    requires at { FitsAt (Instr.Store from count) at (length frame.old.stack) }
    requires below { at ≤ length frame.old.stack }
    ensures { (may : Bool) → (code : CodeValue) → (callers : Frames) → (instr_next code frame.old callers (take at frame.old.stack) (drop at frame.old.stack) (Instr.Store from count) ≡ Stuck → ⊥) → Does may (frame.old ∷ callers) (instr_next code frame.old callers (take at frame.old.stack) (drop at frame.old.stack) (Instr.Store from count)) result (frame.new ∷ callers) }
{
    if from as usize + count as usize > frame.locals.len() {
        return Stepped::Stuck;
    }
    store(frame, from as usize, at);
    Stepped::Slid
}

/// Of the `of` words on the top, keeps words `from .. from + count`; `Stuck` if there are fewer.
#[inline(always)]
fn pick_range(
    alloc: Global,
    frame: &mut Frame,
    of: u32,
    from: u32,
    count: u32,
    at: usize,
) -> Result<Stepped, AllocError>
    requires place { frame.old.place + 1 < 2 ^ 64 }
    requires at { FitsAt (Instr.Pick of from count) at (length frame.old.stack) }
    ensures ok { IfOk result (λ step. (may : Bool) → (code : CodeValue) → (callers : Frames) → (instr_next code frame.old callers (take at frame.old.stack) (drop at frame.old.stack) (Instr.Pick of from count) ≡ Stuck → ⊥) → Does may (frame.old ∷ callers) (instr_next code frame.old callers (take at frame.old.stack) (drop at frame.old.stack) (Instr.Pick of from count)) step (frame.new ∷ callers)) }
    ensures err { OnErr result (frame.new ≡ frame.old) }
{
    let to = from as usize + count as usize;
    if to > of as usize {
        return Ok(Stepped::Stuck);
    }
    pick(alloc, frame, at, from as usize, to)?;
    Ok(Stepped::Slid)
}
