//! The operators of the machine, and what is known of constants.

ghost use Rattle.std.specs.Int.{w64, int_wrap};
ghost use Rattle.std.specs.Prelude.{◌≡◌, ℕ, List, option_map};
ghost use Rattle.type_table.specs.Views.{kind_of};
ghost use Rattle.codegen_base.specs.Pushes.{compared, operator_of};
ghost use Rattle.codegen_expression.specs.Emission.{signing};

use bytecode::Instr;
use syntax::{BinaryOperator, UnaryOperator};
use type_table::value_type::ValueType;
use word::apply::Op;

/// Whether two values of this type are the same.
fn equality(kind: ValueType<'_>) -> Op
    ensures { (types : List (List ℕ)) → result ≡ operator_of BinaryOperator.Equal (kind_of types kind.entry) }
{
    match kind {
        ValueType::Channel(_, _) => Op::EqChan,
        ValueType::Bool => Op::EqBool,
        _ => Op::EqInt,
    }
}

/// Whether they are not.
fn inequality(kind: ValueType<'_>) -> Op
    ensures { (types : List (List ℕ)) → result ≡ operator_of BinaryOperator.NotEqual (kind_of types kind.entry) }
{
    match kind {
        ValueType::Channel(_, _) => Op::NeChan,
        ValueType::Bool => Op::NeBool,
        _ => Op::NeInt,
    }
}

/// The operator between two values of this type.
pub fn operator_of(operator: BinaryOperator, kind: ValueType<'_>) -> Op
    ensures { (types : List (List ℕ)) → result ≡ operator_of operator (kind_of types kind.entry) }
{
    match operator {
        BinaryOperator::Add => Op::Add,
        BinaryOperator::Subtract => Op::Sub,
        BinaryOperator::Multiply => Op::Mul,
        BinaryOperator::Divide => Op::Div,
        BinaryOperator::Remainder => Op::Rem,
        BinaryOperator::And => Op::And,
        BinaryOperator::Or => Op::Or,
        BinaryOperator::ExclusiveOr => Op::Xor,
        BinaryOperator::AndNot => Op::AndNot,
        BinaryOperator::ShiftLeft => Op::Shl,
        BinaryOperator::ShiftRight => Op::Shr,
        BinaryOperator::Equal => equality(kind),
        BinaryOperator::NotEqual => inequality(kind),
        BinaryOperator::Less => Op::Lt,
        BinaryOperator::LessEqual => Op::Le,
        BinaryOperator::Greater => Op::Gt,
        BinaryOperator::GreaterEqual => Op::Ge,
        BinaryOperator::LogicalAnd | BinaryOperator::LogicalOr => Op::EqBool,
    }
}

/// What an operator before an operand does; a plus does nothing.
pub(crate) fn sign_of(operator: UnaryOperator) -> Option<Op>
    ensures { option_map Instr.Apply result ≡ signing operator }
{
    match operator {
        UnaryOperator::Plus => None,
        UnaryOperator::Negate => Some(Op::Neg),
        UnaryOperator::Not => Some(Op::Not),
        UnaryOperator::Complement => Some(Op::Com),
    }
}

/// The result of the comparison of two constants; `false` for another operator.
pub(crate) fn compared(operator: BinaryOperator, a: i128, b: i128) -> bool
    ensures { compared operator a b ≡ Instr.Bool result }
{
    match operator {
        BinaryOperator::Equal => a == b,
        BinaryOperator::NotEqual => a != b,
        BinaryOperator::Less => a < b,
        BinaryOperator::LessEqual => a <= b,
        BinaryOperator::Greater => a > b,
        BinaryOperator::GreaterEqual => a >= b,
        _ => false,
    }
}

/// A constant brought into 64 bits.
pub(crate) fn wrapped(number: i128) -> i64
    ensures { result ≡ int_wrap w64 number }
{
    (number.rem_euclid(1 << 64).unsigned_abs() as u64).cast_signed()
}
