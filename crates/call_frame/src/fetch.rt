//! The instruction at a frame.

ghost use Rattle.std.specs.Prelude.{◌≡◌, ◌+◌, ◌<◌, ◌^◌, ◌↔◌, ◌∷◌, IfNone, IfSome, IsTrue, None, slice_get};
ghost use Rattle.bytecode.specs.Code.{Function as FunctionValue};
ghost use Rattle.bytecode.specs.Machine.{Frames, code_next, fetch, is_told, pops};
ghost use Rattle.bytecode.specs.Rules.{IsVerified};
ghost use Rattle.call_frame.specs.Steps.{AsksOrFails, Fetched, StandsAt, StandsAtRequest};

use crate::frame::Frame;
use bytecode::{Code, Instr};
use operands::width::pops_of;

/// The instruction at a frame.
#[inline(always)]
pub fn instr_of<'a>(code: &'a Code, frame: &Frame) -> Option<&'a Instr>
    ensures stands { IfSome result (λ i. StandsAt code.now frame.now i.now) }
    ensures none { IfNone result (fetch code.now frame.now.function frame.now.place ≡ None) }
    ensures within { IfSome result (λ _. frame.now.place + 1 < 2 ^ 64) }
{
    let f = match code.functions().get(frame.function) {
        Some(f) => f,
        None => return None,
    };
    f.instrs().get(frame.place)
}

/// The instruction at a frame's pc.
#[inline(always)]
pub fn instr_at<'a>(frame: &Frame, instrs: &'a [Instr]) -> Option<&'a Instr>
    ensures instr { IfSome result (λ i. slice_get instrs.now frame.now.place ≡ Some i.now) }
    ensures none { IfNone result (slice_get instrs.now frame.now.place ≡ None) }
    ensures within { IfSome result (λ _. frame.now.place + 1 < 2 ^ 64) }
{
    instrs.get(frame.place)
}

/// How many words a send of this shape pops.
#[inline(always)]
pub fn sent_words(code: &Code, shape: u32) -> usize
    requires { IsVerified code.now }
    ensures { (f : FunctionValue) → result ≡ pops code.now f (Instr.Send shape) }
{
    match code.shapes().get(shape as usize) {
        Some(shape) => shape.kinds().len() + 1,
        None => 1,
    }
}

/// The instruction at a frame and how many words it pops.
#[inline(always)]
pub fn fetch(code: &Code, frame: &Frame) -> Option<(Instr, usize)>
    requires { IsVerified code.now }
    ensures fetched { Fetched code.now frame.now result }
    ensures within { IfSome result (λ _. frame.now.place + 1 < 2 ^ 64) }
{
    let f = match code.functions().get(frame.function) {
        Some(f) => f,
        None => return None,
    };
    match f.instrs().get(frame.place) {
        Some(i) => Some((*i, pops_of(code, f, *i))),
        None => None,
    }
}

/// Whether an instruction that is no select makes a request.
fn is_request(i: &Instr) -> bool
    ensures { result ≡ is_told i.now }
{
    match i {
        Instr::Make(_) | Instr::Go(_) | Instr::Send(_) | Instr::Receive(_) => true,
        Instr::Close | Instr::Len | Instr::Cap | Instr::Print(_) => true,
        _ => false,
    }
}

/// Whether a frame is at such an instruction, which in verified code makes a request whatever its operands are.
pub fn stands_at_request(code: &Code, frame: &Frame) -> bool
    ensures stands { IsTrue result ↔ StandsAtRequest code.now frame.now }
    ensures asks { IsTrue result → (callers : Frames) → AsksOrFails (code_next code.now (frame.now ∷ callers)) }
{
    frame.quiet();
    let f = match code.functions().get(frame.function) {
        Some(f) => f,
        None => return false,
    };
    match f.instrs().get(frame.place) {
        Some(i) => is_request(i),
        None => false,
    }
}
