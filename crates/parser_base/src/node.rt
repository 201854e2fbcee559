//! Nodes of expressions.

ghost use Rattle.std.specs.Prelude.{◌≡◌, IfOk, IfErr, map};
ghost use Rattle.parser_base.specs.declared.fault.ParseFault.TheVariants as faults;
ghost use Rattle.syntax.specs.Tree.{Named, Parenthesized, Selection, Composite, Unary, Binary, Call, Receive, Make, MakeSized, Length, Capacity, expressions};
ghost use Rattle.syntax.specs.View.{type_of, expression_of};

use crate::fault::ParseFault;
use std::alloc::Global;
use syntax::{BinaryOperator, ExpressionNode, Name, TypeNode, UnaryOperator};

/// A name in memory of its own.
pub fn name_node(alloc: Global, name: &[u8]) -> Result<Name, ParseFault>
    ensures ok { IfOk result (λ x. x.bytes.items ≡ name.now) }
    ensures err { IfErr result (λ e. e ≡ faults.Memory) }
{
    Ok(Name {
        bytes: Vec::from_slice(alloc, name)?,
    })
}

/// An expression in parentheses, as a node.
pub(crate) fn parenthesized_node(
    alloc: Global,
    inner: ExpressionNode,
) -> Result<ExpressionNode, ParseFault>
    ensures ok { IfOk result (λ tree. expression_of tree ≡ Parenthesized (expression_of inner)) }
    ensures err { IfErr result (λ e. e ≡ faults.Memory) }
{
    Ok(ExpressionNode::Parenthesized(Box::new(alloc, inner)?))
}

/// A unary operation, as a node.
pub(crate) fn unary_node(
    alloc: Global,
    operator: UnaryOperator,
    operand: ExpressionNode,
) -> Result<ExpressionNode, ParseFault>
    ensures ok { IfOk result (λ tree. expression_of tree ≡ Unary operator (expression_of operand)) }
    ensures err { IfErr result (λ e. e ≡ faults.Memory) }
{
    Ok(ExpressionNode::Unary(operator, Box::new(alloc, operand)?))
}

/// A binary operation, as a node.
pub(crate) fn binary_node(
    alloc: Global,
    operator: BinaryOperator,
    left: ExpressionNode,
    right: ExpressionNode,
) -> Result<ExpressionNode, ParseFault>
    ensures ok { IfOk result (λ tree. expression_of tree ≡ Binary operator (expression_of left) (expression_of right)) }
    ensures err { IfErr result (λ e. e ≡ faults.Memory) }
{
    Ok(ExpressionNode::Binary(operator, Box::new(alloc, left)?, Box::new(alloc, right)?))
}

/// A selection, as a node.
pub(crate) fn selection_node(
    alloc: Global,
    whole: ExpressionNode,
    field: &[u8],
) -> Result<ExpressionNode, ParseFault>
    ensures ok { IfOk result (λ tree. expression_of tree ≡ Selection (expression_of whole) field.now) }
    ensures err { IfErr result (λ e. e ≡ faults.Memory) }
{
    let field = name_node(alloc, field)?;
    Ok(ExpressionNode::Selection(Box::new(alloc, whole)?, field))
}

/// An operand name, as a node.
pub(crate) fn named_node(alloc: Global, name: &[u8]) -> Result<ExpressionNode, ParseFault>
    ensures ok { IfOk result (λ tree. expression_of tree ≡ Named name.now) }
    ensures err { IfErr result (λ e. e ≡ faults.Memory) }
{
    Ok(ExpressionNode::Named(name_node(alloc, name)?))
}

/// A composite literal, as a node.
pub(crate) fn composite_node(
    alloc: Global,
    name: &[u8],
    values: Vec<ExpressionNode>,
    trailing: bool,
) -> Result<ExpressionNode, ParseFault>
    ensures ok { IfOk result (λ tree. expression_of tree ≡ Composite name.now (expressions (map expression_of values.items)) trailing) }
    ensures err { IfErr result (λ e. e ≡ faults.Memory) }
{
    let name = name_node(alloc, name)?;
    Ok(ExpressionNode::Composite(name, values, trailing))
}

/// A call of a function of this name, as a node.
pub fn call_node(
    alloc: Global,
    name: &[u8],
    values: Vec<ExpressionNode>,
    trailing: bool,
) -> Result<ExpressionNode, ParseFault>
    ensures ok { IfOk result (λ tree. expression_of tree ≡ Call name.now (expressions (map expression_of values.items)) trailing) }
    ensures err { IfErr result (λ e. e ≡ faults.Memory) }
{
    let name = name_node(alloc, name)?;
    Ok(ExpressionNode::Call(name, values, trailing))
}

/// A receive, as a node.
pub fn receive_node(alloc: Global, channel: ExpressionNode) -> Result<ExpressionNode, ParseFault>
    ensures ok { IfOk result (λ tree. expression_of tree ≡ Receive (expression_of channel)) }
    ensures err { IfErr result (λ e. e ≡ faults.Memory) }
{
    Ok(ExpressionNode::Receive(Box::new(alloc, channel)?))
}

/// A `make` without a size, as a node.
pub(crate) fn make_node(alloc: Global, channel: TypeNode) -> Result<ExpressionNode, ParseFault>
    ensures ok { IfOk result (λ tree. expression_of tree ≡ Make (type_of channel)) }
    ensures err { IfErr result (λ e. e ≡ faults.Memory) }
{
    Ok(ExpressionNode::Make(Box::new(alloc, channel)?))
}

/// A `make` with a size, as a node.
pub(crate) fn make_sized_node(
    alloc: Global,
    channel: TypeNode,
    size: ExpressionNode,
) -> Result<ExpressionNode, ParseFault>
    ensures ok { IfOk result (λ tree. expression_of tree ≡ MakeSized (type_of channel) (expression_of size)) }
    ensures err { IfErr result (λ e. e ≡ faults.Memory) }
{
    Ok(ExpressionNode::MakeSized(Box::new(alloc, channel)?, Box::new(alloc, size)?))
}

/// A `len`, as a node.
pub(crate) fn length_node(
    alloc: Global,
    channel: ExpressionNode,
) -> Result<ExpressionNode, ParseFault>
    ensures ok { IfOk result (λ tree. expression_of tree ≡ Length (expression_of channel)) }
    ensures err { IfErr result (λ e. e ≡ faults.Memory) }
{
    Ok(ExpressionNode::Length(Box::new(alloc, channel)?))
}

/// A `cap`, as a node.
pub(crate) fn capacity_node(
    alloc: Global,
    channel: ExpressionNode,
) -> Result<ExpressionNode, ParseFault>
    ensures ok { IfOk result (λ tree. expression_of tree ≡ Capacity (expression_of channel)) }
    ensures err { IfErr result (λ e. e ≡ faults.Memory) }
{
    Ok(ExpressionNode::Capacity(Box::new(alloc, channel)?))
}
