//! One step of the function that runs.

ghost use Rattle.std.specs.Prelude.{◌≡◌, IfOk, OnErr};
ghost use Rattle.bytecode.specs.Machine.{code_next};
ghost use Rattle.bytecode.specs.Rules.{IsVerified};
ghost use Rattle.call_frame.specs.Steps.{Does};
ghost use Rattle.word.specs.Kinds.{Stuck};

use bytecode::Code;
use call_frame::fetch::fetch;
use call_frame::outcome::Stepped;
use goroutine_vm_base::call_stack::CallStack;
use goroutine_vm_base::single::instr;
use std::alloc::{AllocError, Global};

/// The next instruction of the function that runs, which has no pending reply words; `may` is whether a tick is made.
pub(crate) fn step(
    alloc: Global,
    code: &Code,
    may: bool,
    frames: &mut CallStack,
) -> Result<Stepped, AllocError>
    requires verified { IsVerified code.now }
    requires sound { code_next code.now frames.old ≡ Stuck → ⊥ }
    ensures ok { IfOk result (λ step. Does may frames.old (code_next code.now frames.old) step frames.new) }
    ensures err { OnErr result (frames.new ≡ frames.old) }
{
    let frame = frames.last();
    frame.quiet();
    let have = frame.stack().len();
    match fetch(code, frame) {
        None => unreachable!(),
        Some((i, wanted)) => {
            if have < wanted {
                unreachable!()
            }
            instr(alloc, code, may, frames, i, have - wanted)
        }
    }
}
