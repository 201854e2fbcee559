//! Single instructions of the running function that are local steps.

ghost use Rattle.std.specs.Prelude.{◌≡◌, ◌+◌, ◌<◌, ◌^◌, Bool};
ghost use Rattle.bytecode.specs.Code.{Code as CodeValue, Function as FunctionValue};
ghost use Rattle.bytecode.specs.Machine.{Frames, at_instr};
ghost use Rattle.call_frame.specs.Steps.{Pushes, Quickly};

use crate::frame::Frame;
use crate::instrs::{choose, go_to, operate, push, store_top, tick_to};
use crate::outcome::Stepped;
use bytecode::{Function, Instr};
use operands::width::arity;
use word::apply::Op;
use word::value::Word;

/// Pushes a word; `Asking` if out of memory.
#[inline(always)]
fn push_word(frame: &mut Frame, word: Word) -> Stepped
    requires { frame.old.place + 1 < 2 ^ 64 }
    ensures pushes { Pushes result frame.old frame.new word }
    ensures same { frame.new.function ≡ frame.old.function }
    ensures locals { frame.new.locals ≡ frame.old.locals }
{
    match push(frame, word) {
        Ok(_) => Stepped::Slid,
        Err(_) => Stepped::Asking,
    }
}

/// Pushes a local.
#[inline(always)]
pub(crate) fn load_word(frame: &mut Frame, from: usize) -> Stepped
    requires { frame.old.place + 1 < 2 ^ 64 }
    ensures step { (may : Bool) → (code : CodeValue) → (callers : Frames) → (f : FunctionValue) → Quickly may (at_instr code frame.old callers f (Instr.Load from 1)) callers result frame.old frame.new }
    ensures same { frame.new.function ≡ frame.old.function }
    ensures locals { frame.new.locals ≡ frame.old.locals }
{
    if from >= frame.locals.len() {
        return Stepped::Asking;
    }
    let word = frame.locals[from];
    push_word(frame, word)
}

/// Pops a word into a local.
fn store_word(f: &Function, frame: &mut Frame, to: usize) -> Stepped
    requires { frame.old.place + 1 < 2 ^ 64 }
    ensures step { (may : Bool) → (code : CodeValue) → (callers : Frames) → Quickly may (at_instr code frame.old callers f.now (Instr.Store to 1)) callers result frame.old frame.new }
    ensures same { frame.new.function ≡ frame.old.function }
{
    let have = frame.stack.len();
    if have == 0 || to >= frame.locals.len() || to >= f.locals().len() {
        return Stepped::Asking;
    }
    store_top(frame, to, have - 1);
    Stepped::Slid
}

/// Pops an operator's operands and pushes its value.
fn apply_op(frame: &mut Frame, op: Op) -> Stepped
    requires { frame.old.place + 1 < 2 ^ 64 }
    ensures step { (may : Bool) → (code : CodeValue) → (callers : Frames) → (f : FunctionValue) → Quickly may (at_instr code frame.old callers f (Instr.Apply op)) callers result frame.old frame.new }
    ensures same { frame.new.function ≡ frame.old.function }
{
    let have = frame.stack.len();
    let some = arity(op);
    if have < some {
        return Stepped::Asking;
    }
    operate(frame, op, have - some)
}

/// Goes on if the truth value on the top is true, else to `to`.
#[inline(always)]
pub(crate) fn unless(frame: &mut Frame, to: u32) -> Stepped
    requires { frame.old.place + 1 < 2 ^ 64 }
    ensures step { (may : Bool) → (code : CodeValue) → (callers : Frames) → (f : FunctionValue) → Quickly may (at_instr code frame.old callers f (Instr.Unless to)) callers result frame.old frame.new }
    ensures same { frame.new.function ≡ frame.old.function }
    ensures locals { frame.new.locals ≡ frame.old.locals }
{
    let have = frame.stack.len();
    if have == 0 {
        return Stepped::Asking;
    }
    choose(frame, to as usize, have - 1)
}

/// Goes ahead to `to`.
#[inline(always)]
pub(crate) fn jump(frame: &mut Frame, to: u32) -> Stepped
    ensures step { (may : Bool) → (code : CodeValue) → (callers : Frames) → (f : FunctionValue) → Quickly may (at_instr code frame.old callers f (Instr.Jump to)) callers result frame.old frame.new }
    ensures same { frame.new.function ≡ frame.old.function }
    ensures locals { frame.new.locals ≡ frame.old.locals }
{
    let have = frame.stack.len();
    go_to(frame, to as usize, have);
    Stepped::Slid
}

/// Drops `count` words from the top.
#[inline(always)]
pub(crate) fn discard(frame: &mut Frame, count: usize) -> Stepped
    requires { frame.old.place + 1 < 2 ^ 64 }
    ensures step { (may : Bool) → (code : CodeValue) → (callers : Frames) → (f : FunctionValue) → Quickly may (at_instr code frame.old callers f (Instr.Discard count)) callers result frame.old frame.new }
    ensures same { frame.new.function ≡ frame.old.function }
    ensures locals { frame.new.locals ≡ frame.old.locals }
{
    let have = frame.stack.len();
    if have < count {
        return Stepped::Asking;
    }
    let next = frame.place + 1;
    go_to(frame, next, have - count);
    Stepped::Slid
}

/// Goes on if a tick may be made.
fn tick(may: bool, frame: &mut Frame) -> Stepped
    requires { frame.old.place + 1 < 2 ^ 64 }
    ensures step { (code : CodeValue) → (callers : Frames) → (f : FunctionValue) → Quickly may (at_instr code frame.old callers f Instr.Tick) callers result frame.old frame.new }
    ensures same { frame.new.function ≡ frame.old.function }
{
    let have = frame.stack.len();
    let next = frame.place + 1;
    tick_to(may, frame, next, have)
}

/// Goes back to `to` if a tick may be made.
#[inline(always)]
pub(crate) fn loop_to(may: bool, frame: &mut Frame, to: u32) -> Stepped
    ensures step { (code : CodeValue) → (callers : Frames) → (f : FunctionValue) → Quickly may (at_instr code frame.old callers f (Instr.Loop to)) callers result frame.old frame.new }
    ensures same { frame.new.function ≡ frame.old.function }
    ensures locals { frame.new.locals ≡ frame.old.locals }
{
    let have = frame.stack.len();
    tick_to(may, frame, to as usize, have)
}

/// Does one of the most frequent instructions, if it is a local step; returns `Asking` or `Stuck` for any other, which is
/// not done. Makes a tick if `may` is true.
#[inline(never)]
pub fn quick(f: &Function, may: bool, frame: &mut Frame, i: &Instr) -> Stepped
    requires { frame.old.place + 1 < 2 ^ 64 }
    ensures step { (code : CodeValue) → (callers : Frames) → Quickly may (at_instr code frame.old callers f.now i.now) callers result frame.old frame.new }
    ensures same { frame.new.function ≡ frame.old.function }
{
    match *i {
        Instr::Int(number) => push_word(frame, Word::Int(number)),
        Instr::Bool(truth) => push_word(frame, Word::Bool(truth)),
        Instr::Nil(_) => push_word(frame, Word::Chan(None)),
        Instr::Load(from, count) => {
            if count == 1 {
                load_word(frame, from as usize)
            } else {
                Stepped::Asking
            }
        }
        Instr::Store(to, count) => {
            if count == 1 {
                store_word(f, frame, to as usize)
            } else {
                Stepped::Asking
            }
        }
        Instr::Apply(op) => apply_op(frame, op),
        Instr::Discard(count) => discard(frame, count as usize),
        Instr::Tick => tick(may, frame),
        Instr::Loop(to) => loop_to(may, frame, to),
        Instr::Jump(to) => jump(frame, to),
        Instr::Unless(to) => unless(frame, to),
        _ => Stepped::Asking,
    }
}
