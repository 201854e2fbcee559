//! Goroutines that are about to end.

use bytecode::{Function, Instr};
use goroutine_vm::Frame;

/// Whether a goroutine of code with these functions makes no request before it ends: each of its functions goes straight on to its
/// `return`. `frames` are its functions, the one called last at the end.
pub(crate) fn is_ending(functions: &[Function], frames: &[Frame]) -> bool {
    frames.iter().all(|frame| returns(functions, frame))
}

/// Whether a function that runs goes straight on to its `return`.
fn returns(functions: &[Function], frame: &Frame) -> bool {
    let Some(function) = functions.get(frame.function()) else {
        return false;
    };
    let instrs = function.instrs();
    let mut at = frame.place();
    for _ in instrs {
        match instrs.get(at) {
            Some(Instr::Return) => return true,
            Some(Instr::Jump(to)) => at = *to as usize,
            Some(
                Instr::Int(_)
                | Instr::Bool(_)
                | Instr::Nil(_)
                | Instr::Load(_, _)
                | Instr::Store(_, _)
                | Instr::Pick(_, _, _)
                | Instr::Discard(_)
                | Instr::Tick,
            ) => at = at.saturating_add(1),
            _ => return false,
        }
    }
    false
}
