//! What operators do between and after their operands ("Operators" of the Go specification).

ghost use Rattle.std.specs.Prelude.{◌≡◌, ◌++◌, ◌≤◌, ◌^◌, ◌∷◌, [], IfErr, OnOk, length, option_map, slice_set};
ghost use Rattle.type_table.specs.Views.{kind_of};
ghost use Rattle.checker_base.specs.Views.{worth_of};
ghost use Rattle.codegen_base.specs.Pushes.{elements_shape, operator_of};
ghost use Rattle.codegen_expression.specs.Emission.{closing, led, opened, operated, or_false, true_or};
ghost use Rattle.codegen_expression.specs.Contexts.{elements_of, types_in, worth_in};

use crate::context::Context;
use crate::operand::{carried_shape, kind_in, number, put, settle};
use crate::operator::{compared, operator_of, wrapped};
use bytecode::Instr;
use checker_base::worth::Worth;
use std::alloc::AllocError;
use syntax::BinaryOperator;
use type_table::value_type::ValueType;

/// Replaces the instruction at `at`.
fn aim(code: &mut Vec<Instr>, at: usize, instr: Instr)
    ensures { code.new.items ≡ slice_set code.old.items at instr }
{
    if let Some(place) = code.get_mut(at) {
        *place = instr;
    }
}

/// After the left operand of `||` comes `true` if it is, and a jump over the right one, which is aimed later.
fn open_or(code: &mut Vec<Instr>) -> Result<(), AllocError>
    ensures { OnOk result (code.new.items ≡ code.old.items ++ true_or (length code.old.items)) }
{
    let right = number(code.len() + 3)?;
    code.extend_from_slice(&[Instr::Unless(right), Instr::Bool(true), Instr::Jump(0)])?;
    Ok(())
}

/// What comes between the operands: `&&` and `||` test the left one.
#[tactic(auto, using(crate::proofs::Operating::opened_plainly))]
fn open(operator: BinaryOperator, code: &mut Vec<Instr>) -> Result<(), AllocError>
    ensures { OnOk result (code.new.items ≡ opened operator code.old.items) }
{
    match operator {
        BinaryOperator::LogicalAnd => put(code, Instr::Unless(0)),
        BinaryOperator::LogicalOr => open_or(code),
        _ => Ok(()),
    }
}

/// What comes after a left operand, whose instructions begin at `first`. A constant is pushed at once, `nil` only after
/// the right operand.
///
/// Errors: out of memory.
pub(crate) fn lead<'k>(
    operator: BinaryOperator,
    left: Option<Worth<'k>>,
    first: usize,
    code: &mut Vec<Instr>,
) -> Result<(), AllocError>
    ensures { (types : _) → OnOk result (code.new.items ≡ led operator (option_map (worth_of types) left.entry) first code.old.items) }
{
    match left {
        Some(Worth::Constant(value)) => {
            code.truncate(first);
            code.push(Instr::Int(wrapped(value)))?;
        }
        Some(Worth::Nil) => {
            code.truncate(first);
            return Ok(());
        }
        Some(Worth::Typed(_)) | None => {}
    }
    open(operator, code)
}

/// After the right operand of `&&` comes `false`, to which the test of the left one leads.
fn close_and(test: usize, code: &mut Vec<Instr>) -> Result<(), AllocError>
    ensures { OnOk result (code.new.items ≡ or_false test code.old.items) }
{
    let end = number(code.len() + 2)?;
    aim(code, test, Instr::Unless(end - 1));
    code.extend_from_slice(&[Instr::Jump(end), Instr::Bool(false)])?;
    Ok(())
}

/// After the right operand of `||`: the jump over it leads there.
fn close_or(over: usize, code: &mut Vec<Instr>) -> Result<(), AllocError>
    ensures closed { OnOk result (code.new.items ≡ slice_set code.old.items over (Instr.Jump (length code.old.items))) }
    ensures far { IfErr result (λ _. 2 ^ 32 ≤ length code.old.items) }
{
    let end = number(code.len())?;
    aim(code, over, Instr::Jump(end));
    Ok(())
}

/// What an operator does between values of this type, the second of which begins at `second`.
#[tactic(auto, using(crate::proofs::Operating::closing_plainly))]
fn close(
    operator: BinaryOperator,
    kind: ValueType<'_>,
    second: usize,
    code: &mut Vec<Instr>,
) -> Result<(), AllocError>
    ensures { (types : _) → OnOk result (code.new.items ≡ closing operator (kind_of types kind.entry) second code.old.items) }
{
    match operator {
        BinaryOperator::LogicalAnd => close_and(second.saturating_sub(1), code),
        BinaryOperator::LogicalOr => close_or(second.saturating_sub(1), code),
        _ => put(code, Instr::Apply(operator_of(operator, kind))),
    }
}

/// An operator whose right operand is a value of this type, and whose left operand is `nil`, which is pushed.
fn close_nil<'k>(
    context: &Context<'_, 'k>,
    operator: BinaryOperator,
    kind: ValueType<'k>,
    code: &mut Vec<Instr>,
) -> Result<(), AllocError>
    ensures { OnOk result (code.new.items ≡ code.old.items ++ Instr.Nil (elements_shape (elements_of context.now) (kind_of (types_in context.now) kind.entry)) ∷ Instr.Apply (operator_of operator (kind_of (types_in context.now) kind.entry)) ∷ []) }
{
    code.push(Instr::Nil(carried_shape(context, kind)))?;
    put(code, Instr::Apply(operator_of(operator, kind)))
}

/// What comes after both operands, whose instructions begin at `first` and `second`. Two constants are compared at compile time.
///
/// Errors: out of memory.
pub(crate) fn operate<'k>(
    context: &Context<'_, 'k>,
    operator: BinaryOperator,
    left: Option<Worth<'k>>,
    right: Option<Worth<'k>>,
    first: usize,
    second: usize,
    code: &mut Vec<Instr>,
) -> Result<(), AllocError>
    ensures { OnOk result (code.new.items ≡ operated (elements_of context.now) operator (worth_in context.now left.entry) (worth_in context.now right.entry) first second code.old.items) }
{
    match (left, right) {
        (Some(Worth::Constant(a)), Some(Worth::Constant(b))) => {
            code.truncate(first);
            put(code, Instr::Bool(compared(operator, a, b)))
        }
        (Some(Worth::Nil), _) => close_nil(context, operator, kind_in(right), code),
        _ => {
            let kind = kind_in(left);
            settle(context, right, kind, second, code)?;
            close(operator, kind, second, code)
        }
    }
}
