//! Conditions with two ways.

ghost use Rattle.std.specs.Prelude.{◌≡◌, ◌≤◌, ◌^◌, ◌∷◌, ◌++◌, [], IfErr, IfOk, OnOk, cond, length, slice_set, true};
ghost use Rattle.syntax.specs.View.{otherwise_of};
ghost use Rattle.codegen_flow.specs.Branches.{is_other};
ghost use Rattle.bytecode.specs.declared.instr.Instr.TheVariants as instrs;

use crate::waits::aim;
use bytecode::Instr;
use codegen_expression::operand::number;
use std::alloc::AllocError;
use syntax::ElseNode;

/// Whether something follows `else`.
pub fn has_other(otherwise: &ElseNode) -> bool
    ensures { result ≡ is_other (otherwise_of otherwise.now) }
{
    match otherwise {
        ElseNode::Nothing => false,
        ElseNode::Block(_) | ElseNode::If(_) => true,
    }
}

/// Emits the jump over the other way, without its target, if the first one leads on.
fn hold_jump(leads: bool, code: &mut Vec<Instr>) -> Result<(), AllocError>
    ensures { OnOk result (code.new.items ≡ code.old.items ++ cond leads (instrs.Jump 0 ∷ []) []) }
{
    if leads {
        code.push(Instr::Jump(0))?;
    }
    Ok(())
}

/// Leads the test at `test` to what comes next.
///
/// Errors: a number of the code would pass 2^32.
pub fn end_test(test: usize, code: &mut Vec<Instr>) -> Result<(), AllocError>
    ensures ended { OnOk result (code.new.items ≡ slice_set code.old.items test (instrs.Unless (length code.old.items))) }
    ensures far { IfErr result (λ _. 2 ^ 32 ≤ length code.old.items) }
{
    let next = number(code.len())?;
    aim(code, test, Instr::Unless(next));
    Ok(())
}

/// The other way begins, to which the test at `test` leads; returns the pc of the first one's jump over it, if it leads on.
///
/// Errors: out of memory.
pub fn begin_other(test: usize, leads: bool, code: &mut Vec<Instr>) -> Result<usize, AllocError>
    ensures over { IfOk result (λ over. over ≡ length code.old.items) }
    ensures begun { OnOk result (code.new.items ≡ slice_set (code.old.items ++ cond leads (instrs.Jump 0 ∷ []) []) test (instrs.Unless (length code.new.items))) }
{
    let over = code.len();
    hold_jump(leads, code)?;
    end_test(test, code)?;
    Ok(over)
}

/// The other way has ended: the jump over it gets its target.
///
/// Errors: a number of the code would pass 2^32.
pub fn end_other(over: usize, leads: bool, code: &mut Vec<Instr>) -> Result<(), AllocError>
    ensures ended { OnOk result (code.new.items ≡ cond leads (slice_set code.old.items over (instrs.Jump (length code.old.items))) code.old.items) }
    ensures far { IfErr result (λ _. (leads ≡ true) × (2 ^ 32 ≤ length code.old.items)) }
{
    if leads {
        let next = number(code.len())?;
        aim(code, over, Instr::Jump(next));
    }
    Ok(())
}
