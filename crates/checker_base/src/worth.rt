//! The type or constant value of an expression, for the typing rules.

ghost use Rattle.std.specs.Prelude.{◌≡◌, ℕ, ◌^◌, ◌≤◌, nat_abs, List, option_map, IfSome, IfOk};
ghost use Rattle.std.specs.Option.{is_some};
ghost use Rattle.type_table.specs.Views.{kind_of};
ghost use Rattle.type_table.specs.Visible.{types_of, globals_in, scope_of};
ghost use Rattle.typing_rules.specs.Worths.{is_int, literal, sized, constant_worth, if_good, left_constant, right_constant, are_comparable, fit_operator, beside_nil, unary_worth, binary_worth, is_operand, named_worth, selected_worth, literal_struct};
ghost use Rattle.checker_base.specs.Views.{worth_of, made_of, IsSmall};

use crate::constant::{binary, unary};
use crate::operator::{
    is_bool_type, is_channel_type, is_comparison, is_equality, is_far, is_int_type, is_logical,
    is_not, is_wrong_right, made_type,
};
use syntax::{BinaryOperator, UnaryOperator};
use type_table::layout::{field_of, number_of};
use type_table::scope::{Visible, is_nil, is_truth, variable_named};
use type_table::table::TypeTable;
use type_table::value_type::{ValueType, assignable};
use typing_rules::violation::Misuse;

/// The greatest size of a constant, 2^100.
const LARGEST: u128 = 1 << 100;

/// The type or constant value of an expression: a value of a type that is known when the program runs, an untyped constant
/// ("Constants" of the Go specification), or the word `nil`.
#[derive(Clone, Copy)]
pub enum Worth<'a> {
    Typed(ValueType<'a>),
    Constant(i128),
    Nil,
}

/// Whether an int has this value.
pub fn is_int(value: i128) -> bool
    ensures { result ≡ is_int value }
{
    i128::from(i64::MIN) <= value && value <= i128::from(i64::MAX)
}

/// The value of a literal: `None` if its size is over 2^100.
pub fn literal(value: Option<u128>) -> Option<i128>
    ensures value { result ≡ literal value }
    ensures small { IfSome result (λ v. nat_abs v ≤ 2 ^ 100) }
{
    match value {
        Some(value) if value <= LARGEST => Some(value as i128),
        _ => None,
    }
}

/// The type of a name as an operand, or `nil`.
pub fn named_worth<'a>(
    table: &TypeTable<'a>,
    visible: &Visible<'a>,
    name: &[u8],
) -> Option<Worth<'a>>
    ensures operand { is_some result ≡ is_operand (scope_of table.now visible.now) name.now }
    ensures worth { option_map (worth_of (types_of table.now)) result ≡ named_worth (scope_of table.now visible.now) name.now }
    ensures small { IfSome result IsSmall }
{
    if is_truth(name) {
        return Some(Worth::Typed(ValueType::Bool));
    }
    if is_nil(name) {
        return Some(Worth::Nil);
    }
    match variable_named(table, visible, name) {
        Some(entry) => Some(Worth::Typed(entry.kind)),
        None => None,
    }
}

/// The number of the struct that a literal's name stands for; `None` if a variable shadows it.
pub(crate) fn literal_struct(
    table: &TypeTable<'_>,
    visible: &Visible<'_>,
    name: &[u8],
) -> Option<usize>
    ensures { result ≡ literal_struct (globals_in table.now) (scope_of table.now visible.now) name.now }
{
    match variable_named(table, visible, name) {
        Some(_) => None,
        None => number_of(table, name),
    }
}

/// The type of an operand's field ("Selectors" of the Go specification).
pub(crate) fn selected_worth<'a>(
    table: &TypeTable<'a>,
    whole: Worth<'_>,
    field: &[u8],
) -> Option<Worth<'a>>
    ensures worth { option_map (worth_of (types_of table.now)) result ≡ selected_worth (globals_in table.now) field.now (worth_of (types_of table.now) whole.entry) }
    ensures small { IfSome result IsSmall }
{
    match whole {
        Worth::Typed(kind) => match field_of(table, kind, field) {
            Some(selected) => Some(Worth::Typed(selected.kind)),
            None => None,
        },
        _ => None,
    }
}

/// A constant of this value, unless it is too large.
fn sized<'a>(value: Option<i128>) -> Result<Worth<'a>, Misuse>
    requires { IfSome value (λ v. nat_abs v ≤ 2 ^ 100) }
    ensures worth { (types : List (List ℕ)) → made_of types result ≡ sized value }
    ensures small { IfOk result IsSmall }
{
    match value {
        Some(value) => Ok(Worth::Constant(value)),
        None => Err(Misuse::Size),
    }
}

/// What an operator between two constants makes ("Constant expressions").
fn constant_worth<'a>(
    operator: BinaryOperator,
    left: i128,
    right: i128,
) -> Result<Worth<'a>, Misuse>
    requires left { nat_abs left ≤ 2 ^ 100 }
    requires right { nat_abs right ≤ 2 ^ 100 }
    ensures worth { (types : List (List ℕ)) → made_of types result ≡ constant_worth operator left right }
    ensures small { IfOk result IsSmall }
{
    if is_comparison(operator) {
        Ok(Worth::Typed(ValueType::Bool))
    } else if is_logical(operator) {
        Err(Misuse::Operands)
    } else if is_wrong_right(operator, right) {
        Err(Misuse::Right)
    } else if is_far(operator, right) {
        Err(Misuse::Size)
    } else {
        sized(binary(operator, left, right))
    }
}

/// A value of this type, if the operands are good.
fn if_good<'a>(good: bool, kind: ValueType<'a>) -> Result<Worth<'a>, Misuse>
    ensures worth { (types : List (List ℕ)) → made_of types result ≡ if_good good (kind_of types kind.entry) }
    ensures small { IfOk result IsSmall }
{
    if good {
        Ok(Worth::Typed(kind))
    } else {
        Err(Misuse::Operands)
    }
}

/// What an operator makes of a constant to the left of a value of this type, which is used as an int.
fn left_constant<'a>(
    operator: BinaryOperator,
    left: i128,
    kind: ValueType<'_>,
) -> Result<Worth<'a>, Misuse>
    ensures worth { (types : List (List ℕ)) → made_of types result ≡ left_constant operator left (kind_of types kind.entry) }
    ensures small { IfOk result IsSmall }
{
    if is_logical(operator) || !is_int_type(kind) {
        Err(Misuse::Operands)
    } else if is_int(left) {
        Ok(Worth::Typed(made_type(operator)))
    } else {
        Err(Misuse::LeftConstant)
    }
}

/// What an operator makes of a constant to the right of a value of this type, which is used as an int.
fn right_constant<'a>(
    operator: BinaryOperator,
    kind: ValueType<'_>,
    right: i128,
) -> Result<Worth<'a>, Misuse>
    ensures worth { (types : List (List ℕ)) → made_of types result ≡ right_constant operator (kind_of types kind.entry) right }
    ensures small { IfOk result IsSmall }
{
    if is_logical(operator) || !is_int_type(kind) {
        Err(Misuse::Operands)
    } else if !is_int(right) {
        Err(Misuse::RightConstant)
    } else if is_wrong_right(operator, right) {
        Err(Misuse::Right)
    } else {
        Ok(Worth::Typed(made_type(operator)))
    }
}

/// Whether values of these types can be compared by == and != ("Comparison operators").
fn are_comparable(table: &TypeTable<'_>, left: ValueType<'_>, right: ValueType<'_>) -> bool
    ensures { result ≡ are_comparable (kind_of (types_of table.now) left.entry) (kind_of (types_of table.now) right.entry) }
{
    match (left, right) {
        (ValueType::Int, ValueType::Int) | (ValueType::Bool, ValueType::Bool) => true,
        (ValueType::Channel(_, _), ValueType::Channel(_, _)) => {
            assignable(table, left, right) || assignable(table, right, left)
        }
        _ => false,
    }
}

/// Whether an operator fits operands of these types ("Operators").
fn fit_operator(
    table: &TypeTable<'_>,
    operator: BinaryOperator,
    left: ValueType<'_>,
    right: ValueType<'_>,
) -> bool
    ensures { result ≡ fit_operator operator (kind_of (types_of table.now) left.entry) (kind_of (types_of table.now) right.entry) }
{
    if is_equality(operator) {
        are_comparable(table, left, right)
    } else if is_logical(operator) {
        is_bool_type(left) && is_bool_type(right)
    } else {
        is_int_type(left) && is_int_type(right)
    }
}

/// The type of an operation on `nil` and a value of the type `kind`.
fn beside_nil<'a>(
    operator: BinaryOperator,
    kind: ValueType<'_>,
    misuse: Misuse,
) -> Result<Worth<'a>, Misuse>
    ensures worth { (types : List (List ℕ)) → made_of types result ≡ beside_nil operator (kind_of types kind.entry) misuse }
    ensures small { IfOk result IsSmall }
{
    if is_equality(operator) && is_channel_type(kind) {
        Ok(Worth::Typed(ValueType::Bool))
    } else {
        Err(misuse)
    }
}

/// The type or constant value of a unary operation.
///
/// Errors: `Operands`, `Size`, and `LeftNil` if the operand is `nil`.
pub fn unary_worth<'a>(operator: UnaryOperator, operand: Worth<'_>) -> Result<Worth<'a>, Misuse>
    requires { IsSmall operand }
    ensures worth { (types : List (List ℕ)) → made_of types result ≡ unary_worth operator (worth_of types operand.entry) }
    ensures small { IfOk result IsSmall }
{
    match operand {
        Worth::Constant(_) if is_not(operator) => Err(Misuse::Operands),
        Worth::Constant(value) => sized(unary(operator, value)),
        Worth::Typed(kind) if is_not(operator) => if_good(is_bool_type(kind), ValueType::Bool),
        Worth::Typed(kind) => if_good(is_int_type(kind), ValueType::Int),
        Worth::Nil => Err(Misuse::LeftNil),
    }
}

/// What an operator between two operands makes of them.
///
/// Errors: why it does not go with them.
pub fn binary_worth<'a>(
    table: &TypeTable<'_>,
    operator: BinaryOperator,
    left: Worth<'_>,
    right: Worth<'_>,
) -> Result<Worth<'a>, Misuse>
    requires left { IsSmall left }
    requires right { IsSmall right }
    ensures worth { made_of (types_of table.now) result ≡ binary_worth operator (worth_of (types_of table.now) left.entry) (worth_of (types_of table.now) right.entry) }
    ensures small { IfOk result IsSmall }
{
    match (left, right) {
        (Worth::Constant(a), Worth::Constant(b)) => constant_worth(operator, a, b),
        (Worth::Constant(a), Worth::Typed(kind)) => left_constant(operator, a, kind),
        (Worth::Constant(_), Worth::Nil) => Err(Misuse::RightNil),
        (Worth::Typed(kind), Worth::Constant(b)) => right_constant(operator, kind, b),
        (Worth::Typed(s), Worth::Typed(t)) => {
            if_good(fit_operator(table, operator, s, t), made_type(operator))
        }
        (Worth::Typed(kind), Worth::Nil) => beside_nil(operator, kind, Misuse::RightNil),
        (Worth::Nil, Worth::Typed(kind)) => beside_nil(operator, kind, Misuse::LeftNil),
        (Worth::Nil, _) => Err(Misuse::LeftNil),
    }
}
