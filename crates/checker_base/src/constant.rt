//! Exact constants.

ghost use Rattle.std.specs.Prelude.{◌≡◌, ◌≢◌, ℕ, pos, ◌*ℤ◌, ◌≤ℤ◌, ◌^◌, ◌≤◌, nat_abs, IfSome, IfOk, Option, false};
ghost use Rattle.typing_rules.specs.Worths.{bounded, exact_binary, exact_unary, is_zero, is_negative, is_shift, is_division, is_far, is_wrong_right};

use syntax::{BinaryOperator, UnaryOperator};

/// The greatest size of a constant, 2^100.
const LARGEST: u128 = 1 << 100;

/// The value, unless its size is over 2^100.
fn bounded(value: i128) -> Option<i128>
    ensures value { result ≡ bounded value }
    ensures small { IfSome result (λ v. nat_abs v ≤ 2 ^ 100) }
{
    if value.unsigned_abs() <= LARGEST {
        Some(value)
    } else {
        None
    }
}

/// The value of an operator before a constant.
pub fn unary(operator: UnaryOperator, operand: i128) -> Option<i128>
    requires { nat_abs operand ≤ 2 ^ 100 }
    ensures value { result ≡ bounded (exact_unary operator operand) }
    ensures small { IfSome result (λ v. nat_abs v ≤ 2 ^ 100) }
{
    match operator {
        UnaryOperator::Negate => bounded(-operand),
        UnaryOperator::Complement => bounded(-operand - 1),
        _ => bounded(operand),
    }
}

/// The product, unless its size is over 2^100.
fn product(left: i128, right: i128) -> Option<i128>
    requires left { nat_abs left ≤ 2 ^ 100 }
    requires right { nat_abs right ≤ 2 ^ 100 }
    ensures value { result ≡ bounded (left *ℤ right) }
    ensures small { IfSome result (λ v. nat_abs v ≤ 2 ^ 100) }
{
    match left.checked_mul(right) {
        Some(value) => bounded(value),
        None => None,
    }
}

/// Two to this power.
#[tactic(auto, using(crate::proofs::Powers::power_small, crate::proofs::Powers::power_next))]
fn power(count: u32) -> u128
    requires { count ≤ 100 }
    ensures power { result ≡ 2 ^ count }
    ensures small { result ≤ 2 ^ 100 }
{
    let mut power = 1;
    for number in 0..count {
        let _number = number;
        power *= 2;
    }
    power
}

/// The product of a number and a power of two, unless its size is over 2^100.
fn shifted(left: i128, count: i128) -> Option<i128>
    requires left { nat_abs left ≤ 2 ^ 100 }
    requires from { pos 0 ≤ℤ count }
    requires to { count ≤ℤ pos 100 }
    ensures value { result ≡ bounded (left *ℤ pos (2 ^ nat_abs count)) }
    ensures small { IfSome result (λ v. nat_abs v ≤ 2 ^ 100) }
{
    product(left, power(count.unsigned_abs() as u32) as i128)
}

/// The value of an operator between two constants that makes an int, if the right one is neither a zero divisor nor
/// a wrong count.
pub fn binary(operator: BinaryOperator, left: i128, right: i128) -> Option<i128>
    requires left { nat_abs left ≤ 2 ^ 100 }
    requires right { nat_abs right ≤ 2 ^ 100 }
    requires good { is_wrong_right operator right ≡ false }
    requires near { is_far operator right ≡ false }
    ensures value { result ≡ bounded (exact_binary operator left right) }
    ensures small { IfSome result (λ v. nat_abs v ≤ 2 ^ 100) }
{
    match operator {
        BinaryOperator::Add => bounded(left + right),
        BinaryOperator::Subtract => bounded(left - right),
        BinaryOperator::Multiply => product(left, right),
        BinaryOperator::Divide => bounded(left / right),
        BinaryOperator::Remainder => bounded(left % right),
        BinaryOperator::And => bounded(left & right),
        BinaryOperator::Or => bounded(left | right),
        BinaryOperator::ExclusiveOr => bounded(left ^ right),
        BinaryOperator::AndNot => bounded(left & !right),
        BinaryOperator::ShiftLeft => shifted(left, right),
        BinaryOperator::ShiftRight => bounded(left >> right),
        _ => bounded(left),
    }
}
