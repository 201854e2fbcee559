//! The operators that tokens stand for.

ghost use Rattle.std.specs.Prelude.{◌≡◌};
ghost use Rattle.parser_base.specs.Spelling.{precedence};
ghost use Rattle.parser_base.specs.Reading.{binary_of, unary_of, infix_of, strength};

use scanner::TokenKind;
use syntax::{BinaryOperator, UnaryOperator};

/// How strongly a binary operator binds, from 1 to 5 ("Operator precedence" of the Go specification).
pub fn precedence(operator: BinaryOperator) -> u32
    ensures { result ≡ precedence operator }
{
    match operator {
        BinaryOperator::Add
        | BinaryOperator::Subtract
        | BinaryOperator::Or
        | BinaryOperator::ExclusiveOr => 4,
        BinaryOperator::Equal
        | BinaryOperator::NotEqual
        | BinaryOperator::Less
        | BinaryOperator::LessEqual
        | BinaryOperator::Greater
        | BinaryOperator::GreaterEqual => 3,
        BinaryOperator::LogicalAnd => 2,
        BinaryOperator::LogicalOr => 1,
        _ => 5,
    }
}

/// The binary operator of a mark.
pub fn binary_of(kind: TokenKind) -> Option<BinaryOperator>
    ensures { result ≡ binary_of kind }
{
    Some(match kind {
        TokenKind::Plus => BinaryOperator::Add,
        TokenKind::Minus => BinaryOperator::Subtract,
        TokenKind::Star => BinaryOperator::Multiply,
        TokenKind::Slash => BinaryOperator::Divide,
        TokenKind::Percent => BinaryOperator::Remainder,
        TokenKind::Ampersand => BinaryOperator::And,
        TokenKind::Bar => BinaryOperator::Or,
        TokenKind::Caret => BinaryOperator::ExclusiveOr,
        TokenKind::AndNot => BinaryOperator::AndNot,
        TokenKind::ShiftLeft => BinaryOperator::ShiftLeft,
        TokenKind::ShiftRight => BinaryOperator::ShiftRight,
        TokenKind::Equal => BinaryOperator::Equal,
        TokenKind::NotEqual => BinaryOperator::NotEqual,
        TokenKind::Less => BinaryOperator::Less,
        TokenKind::LessEqual => BinaryOperator::LessEqual,
        TokenKind::Greater => BinaryOperator::Greater,
        TokenKind::GreaterEqual => BinaryOperator::GreaterEqual,
        TokenKind::LogicalAnd => BinaryOperator::LogicalAnd,
        TokenKind::LogicalOr => BinaryOperator::LogicalOr,
        _ => return None,
    })
}

/// The unary operator of a mark.
pub fn unary_of(kind: TokenKind) -> Option<UnaryOperator>
    ensures { result ≡ unary_of kind }
{
    match kind {
        TokenKind::Plus => Some(UnaryOperator::Plus),
        TokenKind::Minus => Some(UnaryOperator::Negate),
        TokenKind::Not => Some(UnaryOperator::Not),
        TokenKind::Caret => Some(UnaryOperator::Complement),
        _ => None,
    }
}

/// What can follow an operand.
#[derive(Clone, Copy)]
pub enum Infix {
    Operator(BinaryOperator),
    /// The period of a selection.
    Period,
}

/// What a mark that follows an operand stands for.
pub fn infix_of(kind: TokenKind) -> Option<Infix>
    ensures { result ≡ infix_of kind }
{
    if kind == TokenKind::Period {
        return Some(Infix::Period);
    }
    Some(Infix::Operator(binary_of(kind)?))
}

/// How strongly a step binds, from 1 to 7.
pub fn strength(step: Infix) -> u32
    ensures { result ≡ strength step }
{
    match step {
        Infix::Operator(operator) => precedence(operator),
        Infix::Period => 7,
    }
}
