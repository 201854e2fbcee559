//! The request of a goroutine.

ghost use Rattle.std.specs.Prelude.{◌≡◌, ◌+◌, ◌<◌, ◌≤◌, ◌^◌, IfOk, List, None, Some, cond, drop, length, option_map, take};
ghost use Rattle.bytecode.specs.Code.{Code as CodeValue};
ghost use Rattle.bytecode.specs.Effects.{count, operands};
ghost use Rattle.bytecode.specs.Machine.{Frame as FrameValue, Frames, code_next, instr_next};
ghost use Rattle.bytecode.specs.Rules.{IsVerified};
ghost use Rattle.call_frame.specs.Steps.{FitsAt};
ghost use Rattle.goroutine_vm_base.specs.Steps.{AsksFor, IsChannelOn, stops};
ghost use Rattle.word.specs.declared.value.Word.{Word as WordValue};
ghost use Rattle.word.specs.Kinds.{Stuck};

use crate::lists::RequestLists;
use crate::select::select;
use bytecode::{Code, Instr};
use call_frame::fetch::{fetch, instr_of, sent_words};
use call_frame::frame::Frame;
use goroutine_vm_base::call_stack::CallStack;
use operands::kinds::zeros;
use operands::print::print;
use std::alloc::{AllocError, Global};
use word::apply::{Op, checked_apply};
use word::limits::{MAX_DEPTH, MAX_WORDS};
use word::panic::Panic;
use word::request::Request;
use word::value::{Item, Word};

/// Writes the request of a make to `place`; false if it makes none.
fn make(
    alloc: Global,
    code: &Code,
    frame: &Frame,
    shape: u32,
    at: usize,
    place: &mut Request,
) -> Result<bool, AllocError>
    requires { at + 1 ≡ length frame.now.stack }
    ensures { IfOk result (λ asking. (callers : Frames) → AsksFor (instr_next code.now frame.now callers (take at frame.now.stack) (drop at frame.now.stack) (Instr.Make shape)) (cond asking (Some place.new) None)) }
{
    let shapes = code.shapes();
    if shape as usize >= shapes.len() {
        return Ok(false);
    }
    let kinds = shapes[shape as usize].kinds();
    if kinds.len() > MAX_WORDS {
        return Ok(false);
    }
    match frame.stack()[at] {
        Word::Int(size) => {
            let words = zeros(alloc, kinds)?;
            *place = Request::Make(size, Item::new(alloc, &words));
            Ok(true)
        }
        Word::Bool(_) => Ok(false),
        Word::Chan(_) => Ok(false),
    }
}

/// Writes the request of the start of a goroutine to `place`; false if it makes none.
fn go(
    lists: &mut RequestLists,
    code: &Code,
    frame: &Frame,
    function: u32,
    at: usize,
    place: &mut Request,
) -> Result<bool, AllocError>
    requires { at ≤ length frame.now.stack }
    ensures { IfOk result (λ asking. (callers : Frames) → AsksFor (instr_next code.now frame.now callers (take at frame.now.stack) (drop at frame.now.stack) (Instr.Go function)) (cond asking (Some place.new) None)) }
{
    if function as usize >= code.functions().len() {
        return Ok(false);
    }
    let args = lists.arguments(&frame.stack()[at..])?;
    *place = Request::Go(function, args);
    Ok(true)
}

/// Writes a send to `place`. If a send is there, its item is not moved, and only words are written.
#[inline(always)]
fn write_send(alloc: Global, chan: Option<u32>, item: &[Word], place: &mut Request)
    requires { length item.now ≤ MAX_WORDS }
    ensures { place.new ≡ Request.Send chan item.now }
{
    if let Request::Send(to, words) = place {
        *to = chan;
        words.set(item);
        return;
    }
    *place = Request::Send(chan, Item::empty(alloc));
    if let Request::Send(_, words) = place {
        words.set(item);
    }
}

/// Writes a receive to `place`. If one is there, only its channel is written.
#[inline(always)]
fn write_receive(chan: Option<u32>, place: &mut Request)
    ensures { place.new ≡ Request.Receive chan }
{
    if let Request::Receive(from) = place {
        *from = chan;
        return;
    }
    *place = Request::Receive(chan);
}

/// Writes the request of a send to `place`; false if it makes none.
#[inline(always)]
fn send(alloc: Global, frame: &Frame, shape: u32, at: usize, place: &mut Request) -> bool
    requires { at ≤ length frame.now.stack }
    ensures { (code : CodeValue) → (callers : Frames) → AsksFor (instr_next code frame.now callers (take at frame.now.stack) (drop at frame.now.stack) (Instr.Send shape)) (cond result (Some place.new) None) }
{
    let _shape = shape;
    match &frame.stack()[at..] {
        [Word::Chan(chan), item @ ..] => {
            if item.len() > MAX_WORDS {
                return false;
            }
            write_send(alloc, *chan, item, place);
            true
        }
        _ => false,
    }
}

/// Writes the request of a receive to `place`; false if it makes none.
#[inline(always)]
fn receive(frame: &Frame, shape: u32, at: usize, place: &mut Request) -> bool
    requires { at + 1 ≡ length frame.now.stack }
    ensures { (code : CodeValue) → (callers : Frames) → AsksFor (instr_next code frame.now callers (take at frame.now.stack) (drop at frame.now.stack) (Instr.Receive shape)) (cond result (Some place.new) None) }
{
    let _shape = shape;
    match channel(frame, at) {
        Some(chan) => {
            write_receive(chan, place);
            true
        }
        None => false,
    }
}

/// Writes the request of a close to `place`; false if it makes none.
fn close(frame: &Frame, at: usize, place: &mut Request) -> bool
    requires { at + 1 ≡ length frame.now.stack }
    ensures { (code : CodeValue) → (callers : Frames) → AsksFor (instr_next code frame.now callers (take at frame.now.stack) (drop at frame.now.stack) Instr.Close) (cond result (Some place.new) None) }
{
    match channel(frame, at) {
        Some(chan) => {
            *place = Request::Close(chan);
            true
        }
        None => false,
    }
}

/// Writes the request for the number of items in a buffer to `place`; false if it makes none.
fn len(frame: &Frame, at: usize, place: &mut Request) -> bool
    requires { at + 1 ≡ length frame.now.stack }
    ensures { (code : CodeValue) → (callers : Frames) → AsksFor (instr_next code frame.now callers (take at frame.now.stack) (drop at frame.now.stack) Instr.Len) (cond result (Some place.new) None) }
{
    match channel(frame, at) {
        Some(chan) => {
            *place = Request::Len(chan);
            true
        }
        None => false,
    }
}

/// Writes the request for a capacity to `place`; false if it makes none.
fn cap(frame: &Frame, at: usize, place: &mut Request) -> bool
    requires { at + 1 ≡ length frame.now.stack }
    ensures { (code : CodeValue) → (callers : Frames) → AsksFor (instr_next code frame.now callers (take at frame.now.stack) (drop at frame.now.stack) Instr.Cap) (cond result (Some place.new) None) }
{
    match channel(frame, at) {
        Some(chan) => {
            *place = Request::Cap(chan);
            true
        }
        None => false,
    }
}

/// The channel on the top of the stack.
#[inline(always)]
pub(crate) fn channel(frame: &Frame, at: usize) -> Option<Option<u32>>
    requires { at + 1 ≡ length frame.now.stack }
    ensures { IsChannelOn (drop at frame.now.stack) result }
{
    match frame.stack()[at] {
        Word::Chan(chan) => Some(chan),
        Word::Int(_) => None,
        Word::Bool(_) => None,
    }
}

/// Writes the request of an instruction to `place`; false if it is a local step. Its operands begin at `at` of the
/// stack, and `depth` functions wait for the running one.
fn ask(
    lists: &mut RequestLists,
    code: &Code,
    frame: &Frame,
    depth: usize,
    i: Instr,
    at: usize,
    place: &mut Request,
) -> Result<bool, AllocError>
    requires at { FitsAt i at (length frame.now.stack) }
    requires below { at ≤ length frame.now.stack }
    requires verified { IsVerified code.now }
    ensures { IfOk result (λ asking. (callers : Frames) → length callers ≡ depth → AsksFor (instr_next code.now frame.now callers (take at frame.now.stack) (drop at frame.now.stack) i) (cond asking (Some place.new) None)) }
{
    match i {
        Instr::Apply(op) => Ok(panics(frame, op, at, place)),
        Instr::Call(function) => Ok(too_deep(code, depth, function, place)),
        Instr::Return => {
            if at > 0 || depth > 0 {
                return Ok(false);
            }
            *place = Request::End;
            Ok(true)
        }
        Instr::Make(shape) => make(lists.alloc, code, frame, shape, at, place),
        Instr::Go(function) => go(lists, code, frame, function, at, place),
        Instr::Send(shape) => Ok(send(lists.alloc, frame, shape, at, place)),
        Instr::Receive(shape) => Ok(receive(frame, shape, at, place)),
        Instr::Close => Ok(close(frame, at, place)),
        Instr::Len => Ok(len(frame, at, place)),
        Instr::Cap => Ok(cap(frame, at, place)),
        Instr::Print(table) => {
            let prints = code.prints();
            if table as usize >= prints.len() {
                return Ok(false);
            }
            let text = print(lists.alloc, &prints[table as usize], &frame.stack()[at..])?;
            *place = Request::Print(text);
            Ok(true)
        }
        Instr::Select(table) => select(lists, code, frame, table, at, place),
        _ => Ok(false),
    }
}

/// The panic that an operator meets.
fn panic_of(frame: &Frame, op: Op, at: usize) -> Option<Panic>
    requires { at + count (operands op) ≡ length frame.now.stack }
    ensures { (code : CodeValue) → (callers : Frames) → AsksFor (instr_next code frame.now callers (take at frame.now.stack) (drop at frame.now.stack) (Instr.Apply op)) (option_map (λ cause. Request.Panic cause) result) }
{
    let last = frame.stack().len() - 1;
    match checked_apply(op, frame.stack()[at], frame.stack()[last]) {
        Some(Err(cause)) => Some(cause),
        Some(Ok(_)) => None,
        None => None,
    }
}

/// Writes the panic that an operator meets to `place`; false if it meets none.
fn panics(frame: &Frame, op: Op, at: usize, place: &mut Request) -> bool
    requires { at + count (operands op) ≡ length frame.now.stack }
    ensures { (code : CodeValue) → (callers : Frames) → AsksFor (instr_next code frame.now callers (take at frame.now.stack) (drop at frame.now.stack) (Instr.Apply op)) (cond result (Some place.new) None) }
{
    match panic_of(frame, op, at) {
        Some(cause) => {
            *place = Request::Panic(cause);
            true
        }
        None => false,
    }
}

/// Writes the panic of a call, if `depth` functions wait for the running one, to `place`; false if it meets none.
fn too_deep(code: &Code, depth: usize, function: u32, place: &mut Request) -> bool
    ensures { (c : FrameValue) → (callers : Frames) → (low top : List WordValue) → length callers ≡ depth → AsksFor (instr_next code.now c callers low top (Instr.Call function)) (cond result (Some place.new) None) }
{
    if function as usize >= code.functions().len() {
        return false;
    }
    if depth >= MAX_DEPTH - 1 {
        *place = Request::Panic(Panic::CallDepth);
        return true;
    }
    false
}

/// Whether an instruction of verified code makes a request; its operands begin at `at` of the stack, and `depth`
/// functions wait for the running one. At the limit also whether it ticks.
fn asks(at_limit: bool, frame: &Frame, depth: usize, i: Instr, at: usize) -> bool
    requires at { FitsAt i at (length frame.now.stack) }
    requires below { at ≤ length frame.now.stack }
    requires depth { depth + 1 < 2 ^ 64 }
    ensures { (code : CodeValue) → (callers : Frames) → length callers ≡ depth → (instr_next code frame.now callers (take at frame.now.stack) (drop at frame.now.stack) i ≡ Stuck → ⊥) → result ≡ stops at_limit (instr_next code frame.now callers (take at frame.now.stack) (drop at frame.now.stack) i) }
{
    match i {
        Instr::Apply(op) => panic_of(frame, op, at).is_some(),
        Instr::Call(_) => at_limit || depth + 1 >= MAX_DEPTH,
        Instr::Return => depth == 0,
        Instr::Tick => at_limit,
        Instr::Loop(_) => at_limit,
        Instr::Make(_)
        | Instr::Go(_)
        | Instr::Send(_)
        | Instr::Receive(_)
        | Instr::Close
        | Instr::Len
        | Instr::Cap
        | Instr::Print(_)
        | Instr::Select(_) => true,
        _ => false,
    }
}

/// Whether frames that got no reply make a request, not a local step; writes the request to `place`. The most frequent
/// ones, sends and receives, come first.
#[inline(always)]
pub fn request(
    lists: &mut RequestLists,
    code: &Code,
    frames: &CallStack,
    place: &mut Request,
) -> Result<bool, AllocError>
    requires { IsVerified code.now }
    ensures { IfOk result (λ asking. AsksFor (code_next code.now frames.now) (cond asking (Some place.new) None)) }
{
    let frame = frames.last();
    frame.quiet();
    let have = frame.stack().len();
    match instr_of(code, frame) {
        Some(&Instr::Send(shape)) => {
            let wanted = sent_words(code, shape);
            if have < wanted {
                return Ok(false);
            }
            Ok(send(lists.alloc, frame, shape, have - wanted, place))
        }
        Some(&Instr::Receive(shape)) => {
            if have < 1 {
                return Ok(false);
            }
            Ok(receive(frame, shape, have - 1, place))
        }
        _ => request_any(lists, code, frames, place),
    }
}

/// Like `request`, at any instruction.
#[inline(never)]
fn request_any(
    lists: &mut RequestLists,
    code: &Code,
    frames: &CallStack,
    place: &mut Request,
) -> Result<bool, AllocError>
    requires { IsVerified code.now }
    ensures { IfOk result (λ asking. AsksFor (code_next code.now frames.now) (cond asking (Some place.new) None)) }
{
    let frame = frames.last();
    frame.quiet();
    let have = frame.stack().len();
    match fetch(code, frame) {
        None => Ok(false),
        Some((i, wanted)) => {
            if have < wanted {
                return Ok(false);
            }
            let depth = frames.len() - 1;
            ask(lists, code, frame, depth, i, have - wanted, place)
        }
    }
}

/// Whether frames of verified code that got no reply make a request; at the limit also whether they tick.
pub fn is_asking(at_limit: bool, code: &Code, frames: &CallStack) -> bool
    requires verified { IsVerified code.now }
    requires sound { code_next code.now frames.now ≡ Stuck → ⊥ }
    ensures { result ≡ stops at_limit (code_next code.now frames.now) }
{
    let frame = frames.last();
    frame.quiet();
    let have = frame.stack().len();
    match fetch(code, frame) {
        None => false,
        Some((i, wanted)) => {
            if have < wanted {
                return false;
            }
            asks(at_limit, frame, frames.len() - 1, i, have - wanted)
        }
    }
}
