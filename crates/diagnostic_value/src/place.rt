//! The scene of a fault: what is at its node, and what is visible there.

use checker_base::operand::worth;
use checker_base::worth::Worth;
use diagnostic_scope::given::{Called, Given, Parts, place_type};
use diagnostic_scope::scene::Scene;
use diagnostic_scope::search::{Filled, filled_at, part_at};
use diagnostic_words::operand::{push_operand, push_worth};
use diagnostic_words::words::Words;
use syntax::{ExpressionNode, NodeId, PlaceNode, TypeNode};
use type_table::scope::{Entry, variable_named};
use type_table::table::TypeTable;
use type_table::value_type::ValueType;

/// What is declared in a file, the scene of a fault, the values there, and the node of the fault.
#[derive(Clone, Copy)]
pub struct Setting<'s, 'a> {
    pub table: &'s TypeTable<'a>,
    pub scene: &'s Scene<'a>,
    pub parts: &'s Parts<'a>,
    pub node: NodeId,
}

/// The last of these values that contains `node`.
fn last_around<'s, 'a>(values: &'s [Given<'a>], node: NodeId) -> Option<&'s Given<'a>> {
    for value in values.iter().rev() {
        if value.first <= node && node < value.end {
            return Some(value);
        }
    }
    None
}

impl<'s, 'a> Setting<'s, 'a> {
    /// The innermost value that contains the node of the fault.
    pub fn around(&self) -> Option<&'s Given<'a>> {
        match last_around(self.parts.operands.as_slice(), self.node) {
            Some(operand) => Some(operand),
            None => last_around(self.parts.values.as_slice(), self.node),
        }
    }

    /// The value whose own node is that of the fault.
    pub fn value(&self) -> Option<&'s Given<'a>> {
        match self.around() {
            Some(value) if value.end == self.node.saturating_add(1) => Some(value),
            _ => None,
        }
    }

    /// The call whose own node is that of the fault.
    pub fn called(&self) -> Option<&'s Called<'a>> {
        for called in self.parts.calls.as_slice() {
            if called.node == self.node {
                return Some(called);
            }
        }
        None
    }

    /// The lvalue whose node is that of the fault.
    pub fn place(&self) -> Option<&'a PlaceNode> {
        let number = self.node.checked_sub(self.parts.first)?;
        self.parts.places.get(number as usize).copied()
    }

    /// The type that contains the node of the fault.
    pub fn written(&self) -> Option<&'a TypeNode> {
        for one in self.parts.types.as_slice() {
            if one.first <= self.node && self.node < one.end {
                return Some(one.written);
            }
        }
        None
    }

    /// The expression whose own node is that of the fault.
    pub fn part(&self) -> Option<&'a ExpressionNode> {
        let value = self.around()?;
        part_at(self.node, value.first, value.expression)
    }

    /// The value of a literal whose own node is that of the fault.
    pub fn filled(&self) -> Option<Filled<'a>> {
        let value = self.around()?;
        filled_at(self.node, value.first, value.expression)
    }

    /// The type or constant value of an expression there; `None` if it violates a typing rule.
    pub fn worth(&self, expression: &'a ExpressionNode) -> Option<Worth<'a>> {
        worth(self.table, &self.scene.visible, expression)
    }

    /// The type of an lvalue there, if it has one.
    pub fn place_type(&self, place: &PlaceNode) -> Option<ValueType<'a>> {
        place_type(self.table, &self.scene.visible, place)
    }

    /// The variable that a name denotes there, if it denotes one.
    pub fn variable(&self, name: &[u8]) -> Option<Entry<'a>> {
        variable_named(self.table, &self.scene.visible, name)
    }

    /// Appends an operand, with its type or constant value there, to `said`.
    pub fn push_operand(&self, said: &mut Words, operand: &ExpressionNode) {
        push_operand(said, self.table, &self.scene.visible, operand);
    }

    /// Appends the type or constant value of an operand there to `said`.
    pub fn push_worth(&self, said: &mut Words, operand: &ExpressionNode) {
        push_worth(said, self.table, &self.scene.visible, operand);
    }
}
