//! Sends of one word, and receives.

ghost use Rattle.std.specs.Prelude.{◌≡◌, ◌+◌, ◌≤◌, ℕ, drop, length, take};
ghost use Rattle.bytecode.specs.Code.{Code as CodeValue};
ghost use Rattle.bytecode.specs.Machine.{Frames, code_next, instr_next};
ghost use Rattle.bytecode.specs.Rules.{IsVerified};
ghost use Rattle.goroutine_vm_request.specs.Talks.{next_talk};

use crate::asked::channel;
use bytecode::{Code, Instr};
use call_frame::fetch::{instr_of, sent_words};
use call_frame::frame::Frame;
use goroutine_vm_base::call_stack::CallStack;
use word::value::Word;

/// The request of a goroutine, as far as it is a send of one word or a receive.
#[derive(Clone, Copy)]
pub enum Talk {
    /// A send of this word on the channel of this number.
    Send(u32, Word),
    /// A receive from the channel of this number.
    Receive(u32),
    /// Another request, or a send or a receive on `nil`.
    Other,
    /// No request.
    Running,
}

/// The talk of a send whose operands begin at `at` of the stack.
#[inline(always)]
fn sent(frame: &Frame, at: usize) -> Talk
    requires { at ≤ length frame.now.stack }
    ensures { (code : CodeValue) → (callers : Frames) → (shape : ℕ) → result ≡ next_talk (instr_next code frame.now callers (take at frame.now.stack) (drop at frame.now.stack) (Instr.Send shape)) }
{
    match &frame.stack()[at..] {
        [Word::Chan(Some(chan)), word] => Talk::Send(*chan, *word),
        _ => Talk::Other,
    }
}

/// The talk of a receive whose channel is at `at` of the stack.
#[inline(always)]
fn received(frame: &Frame, at: usize) -> Talk
    requires { at + 1 ≡ length frame.now.stack }
    ensures { (code : CodeValue) → (callers : Frames) → (shape : ℕ) → result ≡ next_talk (instr_next code frame.now callers (take at frame.now.stack) (drop at frame.now.stack) (Instr.Receive shape)) }
{
    match channel(frame, at) {
        Some(Some(chan)) => Talk::Receive(chan),
        _ => Talk::Other,
    }
}

/// The request that frames which got no reply make, if it is a send of one word or a receive; `Other` if it is not, or if they make none.
#[inline(always)]
pub fn find_talk(code: &Code, frames: &CallStack) -> Talk
    requires { IsVerified code.now }
    ensures { result ≡ next_talk (code_next code.now frames.now) }
{
    let frame = frames.last();
    frame.quiet();
    let have = frame.stack().len();
    let Some(i) = instr_of(code, frame) else {
        return Talk::Other;
    };
    match *i {
        Instr::Send(shape) => {
            let wanted = sent_words(code, shape);
            if have < wanted {
                return Talk::Other;
            }
            sent(frame, have - wanted)
        }
        Instr::Receive(_) => {
            if have < 1 {
                return Talk::Other;
            }
            received(frame, have - 1)
        }
        _ => Talk::Other,
    }
}
