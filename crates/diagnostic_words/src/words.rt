//! Expressions and types in the words of a Go programmer.

use std::alloc::{AllocError, Global};
use syntax::{BinaryOperator, Direction, ExpressionNode, Name, PlaceNode, TypeNode, UnaryOperator};
use type_table::table::TypeTable;
use type_table::value_type::ValueType;

/// The words so far. Once a request for memory is refused nothing more is appended, and `into_bytes` reports it.
#[derive(Drop)]
pub struct Words {
    alloc: Global,
    bytes: Vec<u8>,
    /// Whether a request for memory was refused.
    is_cut: bool,
}

impl Words {
    /// Nothing.
    pub fn new(alloc: Global) -> Words {
        Words {
            alloc,
            bytes: Vec::new(alloc),
            is_cut: false,
        }
    }

    /// Whether there are no words, and none were refused.
    pub fn is_empty(&self) -> bool {
        self.bytes.is_empty() && !self.is_cut
    }

    /// The words, in UTF-8.
    ///
    /// Errors: a request for memory was refused.
    pub fn into_bytes(self) -> Result<Vec<u8>, AllocError> {
        if self.is_cut {
            return Err(AllocError);
        }
        Ok(self.bytes)
    }

    /// A request for memory was refused elsewhere: nothing more is appended.
    pub fn refuse(&mut self) {
        self.is_cut = true;
    }

    /// Appends bytes.
    fn put(&mut self, bytes: &[u8]) {
        if !self.is_cut {
            self.is_cut = self.bytes.extend_from_slice(bytes).is_err();
        }
    }

    /// Appends text.
    pub fn text(&mut self, text: &str) {
        self.put(text.as_bytes());
    }

    /// Appends a name.
    pub fn name(&mut self, name: &Name) {
        self.put(name.bytes.as_slice());
    }

    /// Appends bytes in UTF-8.
    pub fn bytes(&mut self, bytes: &[u8]) {
        self.put(bytes);
    }

    /// Appends a name between two texts.
    pub fn around(&mut self, before: &str, name: &Name, following: &str) {
        self.text(before);
        self.name(name);
        self.text(following);
    }

    /// Appends a number.
    pub fn number(&mut self, value: i128) {
        match value.to_string(self.alloc) {
            Ok(text) => self.text(text.as_str()),
            Err(_) => self.is_cut = true,
        }
    }
}

/// An operator as it is written.
pub fn operator_text(operator: BinaryOperator) -> &'static str {
    match operator {
        BinaryOperator::Add => "+",
        BinaryOperator::Subtract => "-",
        BinaryOperator::Multiply => "*",
        BinaryOperator::Divide => "/",
        BinaryOperator::Remainder => "%",
        BinaryOperator::And => "&",
        BinaryOperator::Or => "|",
        BinaryOperator::ExclusiveOr => "^",
        BinaryOperator::AndNot => "&^",
        BinaryOperator::ShiftLeft => "<<",
        BinaryOperator::ShiftRight => ">>",
        BinaryOperator::Equal => "==",
        BinaryOperator::NotEqual => "!=",
        BinaryOperator::Less => "<",
        BinaryOperator::LessEqual => "<=",
        BinaryOperator::Greater => ">",
        BinaryOperator::GreaterEqual => ">=",
        BinaryOperator::LogicalAnd => "&&",
        BinaryOperator::LogicalOr => "||",
    }
}

/// An operator before its operand as it is written.
pub fn unary_text(operator: UnaryOperator) -> &'static str {
    match operator {
        UnaryOperator::Plus => "+",
        UnaryOperator::Negate => "-",
        UnaryOperator::Not => "!",
        UnaryOperator::Complement => "^",
    }
}

/// Appends an expression; of a literal with values it puts the type alone.
#[cycle(expression)]
pub fn push_expression(said: &mut Words, expression: &ExpressionNode) {
    match expression {
        ExpressionNode::Integer(value) => push_integer(said, *value),
        ExpressionNode::Named(name) => said.name(name),
        ExpressionNode::Parenthesized(inner) => push_between(said, "(", inner, ")"),
        ExpressionNode::Selection(whole, field) => push_selection(said, whole, field),
        ExpressionNode::Composite(name, values, _) => push_literal(said, name, values.is_empty()),
        ExpressionNode::Unary(operator, operand) => {
            push_between(said, unary_text(*operator), operand, "");
        }
        ExpressionNode::Binary(operator, left, right) => {
            push_between(said, "", left, " ");
            said.text(operator_text(*operator));
            push_between(said, " ", right, "");
        }
        ExpressionNode::Call(function, values, _) => push_call(said, function, values.as_slice()),
        ExpressionNode::Receive(channel) => push_between(said, "<-", channel, ""),
        ExpressionNode::Make(written) => push_make(said, written, ")"),
        ExpressionNode::MakeSized(written, size) => {
            push_make(said, written, ", ");
            push_between(said, "", size, ")");
        }
        ExpressionNode::Length(of) => push_between(said, "len(", of, ")"),
        ExpressionNode::Capacity(of) => push_between(said, "cap(", of, ")"),
    }
}

/// Appends an expression between two texts.
#[cycle(expression)]
fn push_between(said: &mut Words, before: &str, expression: &ExpressionNode, following: &str) {
    said.text(before);
    push_expression(said, expression);
    said.text(following);
}

/// Appends a field of an expression.
#[cycle(expression)]
fn push_selection(said: &mut Words, whole: &ExpressionNode, field: &Name) {
    push_between(said, "", whole, ".");
    said.name(field);
}

/// Appends a literal, its values as three dots.
fn push_literal(said: &mut Words, name: &Name, is_empty: bool) {
    said.name(name);
    said.text(if is_empty { "{}" } else { "{…}" });
}

/// Appends an integer of the text.
fn push_integer(said: &mut Words, value: Option<u128>) {
    match value.and_then(|value| i128::try_from(value).ok()) {
        Some(value) => said.number(value),
        None => said.text("constant"),
    }
}

/// Appends values, with commas.
#[cycle(expression)]
fn push_values(said: &mut Words, values: &[ExpressionNode]) {
    for (index, value) in values.iter().enumerate() {
        push_between(said, if index > 0 { ", " } else { "" }, value, "");
    }
}

/// Appends a call with these arguments.
#[cycle(expression)]
pub fn push_call(said: &mut Words, function: &Name, arguments: &[ExpressionNode]) {
    said.name(function);
    said.text("(");
    push_values(said, arguments);
    said.text(")");
}

/// Appends a `make` of this type, up to the text after the type.
fn push_make(said: &mut Words, written: &TypeNode, following: &str) {
    said.text("make(");
    push_written(said, written);
    said.text(following);
}

/// Appends an lvalue.
pub fn push_place(said: &mut Words, place: &PlaceNode) {
    said.name(&place.name);
    for field in place.fields.iter() {
        said.text(".");
        said.name(field);
    }
}

/// Appends a type, in no more parentheses than it needs.
#[cycle(written)]
pub fn push_written(said: &mut Words, written: &TypeNode) {
    match written {
        TypeNode::Named(name) => said.name(name),
        TypeNode::Parenthesized(inner) => push_written(said, inner),
        TypeNode::Channel(direction, element) => push_channel(said, *direction, element),
    }
}

/// Appends the type of a channel.
#[cycle(written)]
fn push_channel(said: &mut Words, direction: Direction, element: &TypeNode) {
    let parted = needs_parentheses(direction, element);
    said.text(channel_text(direction));
    said.text(if parted { "(" } else { "" });
    push_written(said, element);
    said.text(if parted { ")" } else { "" });
}

/// Whether a channel's element type needs parentheses: `chan (<-chan int)`.
fn needs_parentheses(direction: Direction, element: &TypeNode) -> bool {
    match element {
        TypeNode::Parenthesized(inner) => needs_parentheses(direction, inner),
        TypeNode::Channel(Direction::Receive, _) => matches!(direction, Direction::Both),
        _ => false,
    }
}

/// What comes before the element of a channel type.
fn channel_text(direction: Direction) -> &'static str {
    match direction {
        Direction::Both => "chan ",
        Direction::Send => "chan<- ",
        Direction::Receive => "<-chan ",
    }
}

/// Appends a type.
pub fn push_type(said: &mut Words, table: &TypeTable<'_>, kind: ValueType<'_>) {
    match kind {
        ValueType::Int => said.text("int"),
        ValueType::Bool => said.text("bool"),
        ValueType::Struct(number) => match table.structs.get(number) {
            Some(entry) => said.name(entry.name),
            None => said.text("struct"),
        },
        ValueType::Channel(direction, element) => push_channel(said, direction, element),
    }
}
