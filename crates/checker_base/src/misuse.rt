//! What is wrong when an operator does not fit its operands.

ghost use Rattle.std.specs.Prelude.{◌≡◌, ℕ, ◌+◌};
ghost use Rattle.typing_rules.specs.Violations.{Nodes, IsMisuse};

use go_text::{LimitKind, Rule};
use syntax::NodeId;
use typing_rules::violation::{Misuse, Violation};

/// The nodes of an operator and its operands: the first node and the own node of each operand, and the operator's own node.
#[derive(Clone, Copy)]
pub struct Operator {
    pub left_first: NodeId,
    pub left: NodeId,
    pub right_first: NodeId,
    pub right: NodeId,
    pub own: NodeId,
}

/// What is wrong when an operator does not fit its operands.
pub fn misused(misuse: Misuse, at: Operator) -> Violation
    ensures { (left right : Nodes) → left.first ≡ at.left_first → left.end ≡ at.left + 1 → right.first ≡ at.right_first → right.end ≡ at.right + 1 → (end : ℕ) → end ≡ at.own + 1 → IsMisuse misuse left right end result }
{
    match misuse {
        Misuse::Operands => Violation::Broken(Rule::Operands, at.own),
        Misuse::Size => Violation::Exceeded(LimitKind::ConstantSize, at.own),
        Misuse::Right => Violation::Broken(Rule::Constant, at.own),
        Misuse::LeftConstant => Violation::Broken(Rule::Constant, at.left),
        Misuse::RightConstant => Violation::Broken(Rule::Constant, at.right),
        Misuse::LeftNil => Violation::Broken(Rule::Nil, at.left_first),
        Misuse::RightNil => Violation::Broken(Rule::Nil, at.right_first),
    }
}
