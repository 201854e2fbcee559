//! The local steps of the instructions.

ghost use Rattle.std.specs.Prelude.{◌≡◌, ◌+◌, ◌-◌, ◌<◌, ◌≤◌, ◌^◌, ◌++◌, ◌∷◌, [], Bool, OnErr, OnOk, drop, length, slice_range, take};
ghost use Rattle.bytecode.specs.Code.{Code as CodeValue};
ghost use Rattle.bytecode.specs.Effects.{count, operands};
ghost use Rattle.bytecode.specs.Machine.{Frames, goes_on, goes_to, instr_next, put_at};
ghost use Rattle.call_frame.specs.Steps.{Does};
ghost use Rattle.word.specs.Kinds.{Stuck, Ticks};

use crate::frame::Frame;
use crate::outcome::Stepped;
use bytecode::Instr;
use operands::moved::{by_variant, put_words};
use std::alloc::{AllocError, Global};
use word::apply::{Op, checked_apply};
use word::value::Word;

/// Pushes a word, and goes on to the next instruction.
#[inline(always)]
pub fn push(frame: &mut Frame, word: Word) -> Result<(), AllocError>
    requires { frame.old.place + 1 < 2 ^ 64 }
    ensures ok { OnOk result (frame.new ≡ goes_on frame.old (frame.old.stack ++ word ∷ [])) }
    ensures err { OnErr result (frame.new ≡ frame.old) }
{
    frame.stack.push(word)?;
    frame.place += 1;
    Ok(())
}

/// Pushes locals `from .. to`, and goes on.
pub fn load(frame: &mut Frame, from: usize, to: usize) -> Result<(), AllocError>
    requires place { frame.old.place + 1 < 2 ^ 64 }
    requires within { to ≤ length frame.old.locals }
    requires order { from ≤ to }
    ensures ok { OnOk result (frame.new ≡ goes_on frame.old (frame.old.stack ++ slice_range frame.old.locals from to)) }
    ensures err { OnErr result (frame.new ≡ frame.old) }
{
    frame.stack.extend_from_slice(&frame.locals[from..to])?;
    frame.place += 1;
    Ok(())
}

/// Pops the words from `at` of the stack on into the locals from `from` on, and goes on.
pub fn store(frame: &mut Frame, from: usize, at: usize)
    requires place { frame.old.place + 1 < 2 ^ 64 }
    requires at { at ≤ length frame.old.stack }
    requires within { from + (length frame.old.stack - at) ≤ length frame.old.locals }
    ensures { frame.new ≡ record frame.old { place = frame.old.place + 1; locals = put_at from (drop at frame.old.stack) frame.old.locals; stack = take at frame.old.stack } }
{
    put_words(frame.locals.as_mut_slice(), from, &frame.stack[at..]);
    frame.stack.truncate(at);
    frame.place += 1;
}

/// Of the words from `at` of the stack on, keeps words `from .. to`, and goes on.
pub fn pick(
    alloc: Global,
    frame: &mut Frame,
    at: usize,
    from: usize,
    to: usize,
) -> Result<(), AllocError>
    requires place { frame.old.place + 1 < 2 ^ 64 }
    requires within { at + to ≤ length frame.old.stack }
    requires order { from ≤ to }
    ensures ok { OnOk result (frame.new ≡ goes_on frame.old (take at frame.old.stack ++ slice_range (drop at frame.old.stack) from to)) }
    ensures err { OnErr result (frame.new ≡ frame.old) }
{
    let mut kept = Vec::from_slice(alloc, &frame.stack[..at])?;
    kept.extend_from_slice(&frame.stack[at + from..at + to])?;
    frame.stack = kept;
    frame.place += 1;
    Ok(())
}

/// Pops the word on the top, which is at index `at`, into local `to`, and goes on.
#[inline(always)]
pub(crate) fn store_top(frame: &mut Frame, to: usize, at: usize)
    requires place { frame.old.place + 1 < 2 ^ 64 }
    requires at { at + 1 ≡ length frame.old.stack }
    requires within { to < length frame.old.locals }
    ensures { frame.new ≡ record frame.old { place = frame.old.place + 1; locals = put_at to (drop at frame.old.stack) frame.old.locals; stack = take at frame.old.stack } }
{
    let word = by_variant(frame.stack[at]);
    frame.stack.truncate(at);
    frame.locals[to] = word;
    frame.place += 1;
}

/// Goes on to the next pc.
#[inline(always)]
pub(crate) fn go_on(frame: &mut Frame)
    requires { frame.old.place + 1 < 2 ^ 64 }
    ensures { frame.new ≡ record frame.old { place = frame.old.place + 1 } }
{
    frame.place += 1;
}

/// Goes to `to` with what lies below `at` of the stack.
#[inline(always)]
pub fn go_to(frame: &mut Frame, to: usize, at: usize)
    ensures { frame.new ≡ goes_to frame.old to (take at frame.old.stack) }
{
    frame.stack.truncate(at);
    frame.place = to;
}

/// Replaces an operator's operands by its value, and goes on; or requests to panic.
#[inline(always)]
pub fn operate(frame: &mut Frame, op: Op, at: usize) -> Stepped
    requires place { frame.old.place + 1 < 2 ^ 64 }
    requires at { at + count (operands op) ≡ length frame.old.stack }
    ensures step { (may : Bool) → (code : CodeValue) → (callers : Frames) → Does may (frame.old ∷ callers) (instr_next code frame.old callers (take at frame.old.stack) (drop at frame.old.stack) (Instr.Apply op)) result (frame.new ∷ callers) }
    ensures same { frame.new.function ≡ frame.old.function }
{
    let last = frame.stack.len() - 1;
    match checked_apply(op, frame.stack[at], frame.stack[last]) {
        None => Stepped::Stuck,
        Some(Err(_)) => Stepped::Asking,
        Some(Ok(word)) => {
            frame.stack[at] = word;
            frame.stack.truncate(at + 1);
            frame.place += 1;
            Stepped::Slid
        }
    }
}

/// Goes on if the truth value on the top is true, else to `to`.
#[inline(always)]
pub fn choose(frame: &mut Frame, to: usize, at: usize) -> Stepped
    requires place { frame.old.place + 1 < 2 ^ 64 }
    requires at { at + 1 ≡ length frame.old.stack }
    requires small { to < 2 ^ 32 }
    ensures step { (may : Bool) → (code : CodeValue) → (callers : Frames) → Does may (frame.old ∷ callers) (instr_next code frame.old callers (take at frame.old.stack) (drop at frame.old.stack) (Instr.Unless to)) result (frame.new ∷ callers) }
    ensures same { frame.new.function ≡ frame.old.function }
    ensures locals { frame.new.locals ≡ frame.old.locals }
{
    match frame.stack[at] {
        Word::Bool(true) => {
            let next = frame.place + 1;
            go_to(frame, next, at);
            Stepped::Slid
        }
        Word::Bool(false) => {
            go_to(frame, to, at);
            Stepped::Slid
        }
        Word::Int(_) | Word::Chan(_) => Stepped::Stuck,
    }
}

/// Goes to `to` if a tick may be made, with what lies below `at` of the stack.
#[inline(always)]
pub fn tick_to(may: bool, frame: &mut Frame, to: usize, at: usize) -> Stepped
    ensures step { (callers : Frames) → Does may (frame.old ∷ callers) (Ticks (goes_to frame.old to (take at frame.old.stack) ∷ callers)) result (frame.new ∷ callers) }
    ensures same { frame.new.function ≡ frame.old.function }
    ensures locals { frame.new.locals ≡ frame.old.locals }
{
    if may {
        go_to(frame, to, at);
    }
    Stepped::Ticked
}
