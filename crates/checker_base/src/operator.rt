//! What kinds of operators there are, and of operands.

ghost use Rattle.std.specs.Prelude.{◌≡◌, ℕ, ◌||◌, List};
ghost use Rattle.type_table.specs.Types.{is_int_type, is_bool_type, is_channel_type};
ghost use Rattle.type_table.specs.Views.{kind_of};
ghost use Rattle.typing_rules.specs.Worths.{is_shift, is_division, is_equality, is_order, is_logical, is_wrong_right, is_far, is_not, made_type};

use syntax::{BinaryOperator, UnaryOperator};
use type_table::value_type::ValueType;

/// Whether an operator is == or !=.
pub(crate) fn is_equality(operator: BinaryOperator) -> bool
    ensures { result ≡ is_equality operator }
{
    match operator {
        BinaryOperator::Equal | BinaryOperator::NotEqual => true,
        _ => false,
    }
}

/// Whether an operator compares two values.
pub(crate) fn is_comparison(operator: BinaryOperator) -> bool
    ensures { result ≡ is_equality operator || is_order operator }
{
    match operator {
        BinaryOperator::Equal
        | BinaryOperator::NotEqual
        | BinaryOperator::Less
        | BinaryOperator::LessEqual
        | BinaryOperator::Greater
        | BinaryOperator::GreaterEqual => true,
        _ => false,
    }
}

/// Whether an operator is && or ||.
pub(crate) fn is_logical(operator: BinaryOperator) -> bool
    ensures { result ≡ is_logical operator }
{
    match operator {
        BinaryOperator::LogicalAnd | BinaryOperator::LogicalOr => true,
        _ => false,
    }
}

/// Whether an operator is << or >>.
fn is_shift(operator: BinaryOperator) -> bool
    ensures { result ≡ is_shift operator }
{
    match operator {
        BinaryOperator::ShiftLeft | BinaryOperator::ShiftRight => true,
        _ => false,
    }
}

/// Whether an operator divides.
fn is_division(operator: BinaryOperator) -> bool
    ensures { result ≡ is_division operator }
{
    match operator {
        BinaryOperator::Divide | BinaryOperator::Remainder => true,
        _ => false,
    }
}

/// Whether the constant on the right is a divisor of zero or a negative count of a shift.
pub(crate) fn is_wrong_right(operator: BinaryOperator, right: i128) -> bool
    ensures { result ≡ is_wrong_right operator right }
{
    (is_division(operator) && right == 0) || (is_shift(operator) && right < 0)
}

/// Whether the constant on the right is a shift's count of over 100.
pub(crate) fn is_far(operator: BinaryOperator, right: i128) -> bool
    ensures { result ≡ is_far operator right }
{
    is_shift(operator) && right.unsigned_abs() > 100
}

/// The type of what an operator makes of values.
pub(crate) fn made_type<'a>(operator: BinaryOperator) -> ValueType<'a>
    ensures { (types : List (List ℕ)) → kind_of types result ≡ made_type operator }
{
    if is_comparison(operator) || is_logical(operator) {
        ValueType::Bool
    } else {
        ValueType::Int
    }
}

/// Whether an operator is `!`.
pub(crate) fn is_not(operator: UnaryOperator) -> bool
    ensures { result ≡ is_not operator }
{
    match operator {
        UnaryOperator::Not => true,
        _ => false,
    }
}

/// Whether a type is `int`.
pub(crate) fn is_int_type(kind: ValueType<'_>) -> bool
    ensures { (types : List (List ℕ)) → result ≡ is_int_type (kind_of types kind.entry) }
{
    match kind {
        ValueType::Int => true,
        _ => false,
    }
}

/// Whether a type is `bool`.
pub(crate) fn is_bool_type(kind: ValueType<'_>) -> bool
    ensures { (types : List (List ℕ)) → result ≡ is_bool_type (kind_of types kind.entry) }
{
    match kind {
        ValueType::Bool => true,
        _ => false,
    }
}

/// Whether a type is a channel's.
pub(crate) fn is_channel_type(kind: ValueType<'_>) -> bool
    ensures { (types : List (List ℕ)) → result ≡ is_channel_type (kind_of types kind.entry) }
{
    match kind {
        ValueType::Channel(_, _) => true,
        _ => false,
    }
}
