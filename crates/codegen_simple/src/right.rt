//! Right sides ("Assignment statements" of the Go specification).

ghost use Rattle.std.specs.Prelude.{◌≡◌, IfOk, List, OnOk, map, option_map};
ghost use Rattle.syntax.specs.View.{expression_of};
ghost use Rattle.type_table.specs.Views.{kind_of};
ghost use Rattle.type_table.specs.Visible.{globals_in, scope_of, types_of};
ghost use Rattle.codegen_base.specs.declared.element.Element.{Element};
ghost use Rattle.codegen_base.specs.Statements.{pushes_right, right_types};
ghost use Rattle.codegen_expression.specs.Emission.{Puts};
ghost use Rattle.codegen_expression.specs.Contexts.{elements_of, globals_of, scope_in, types_in};
ghost use Rattle.codegen_simple.specs.Rights.{own_type, source_of, source_of_two};

use bytecode::Instr;
use checker_base::operand::worth;
use codegen_expression::channel::push_received;
use codegen_expression::context::Context;
use codegen_expression::emission::emit_all;
use codegen_expression::operand::kind_in;
use std::alloc::AllocError;
use syntax::ExpressionNode;
use type_table::scope::Visible;
use type_table::table::TypeTable;
use type_table::value_type::ValueType;

/// The type that a variable takes from an expression.
fn own_kind<'a>(
    table: &TypeTable<'a>,
    visible: &Visible<'a>,
    expression: &'a ExpressionNode,
) -> ValueType<'a>
    ensures { own_type (globals_in table.now) (scope_of table.now visible.now) (expression_of expression.now) ≡ kind_of (types_of table.now) result }
{
    kind_in(worth(table, visible, expression))
}

/// The types that variables take from expressions.
fn own_kinds<'t, 'v, 'a>(
    context: &'t Context<'t, 'a>,
    visible: &'v Visible<'a>,
    expressions: &'a [ExpressionNode],
) -> Result<Vec<ValueType<'a>>, AllocError>
    ensures { IfOk result (λ kinds. map (kind_of (types_in context.now)) kinds.items ≡ map (own_type (globals_of context.now) (scope_in context.now visible.now)) (map expression_of expressions.now)) }
{
    let Some((expression, expressions)) = expressions.split_first() else {
        return Ok(Vec::new(context.alloc));
    };
    let kind = own_kind(context.table, visible, expression);
    let mut kinds = own_kinds(context, visible, expressions)?;
    kinds.insert(0, kind)?;
    Ok(kinds)
}

/// The channel that an expression outside parentheses receives from.
fn source_of(expression: &ExpressionNode) -> Option<&ExpressionNode>
    ensures { option_map (λ (channel : _). expression_of channel.now) result ≡ source_of (expression_of expression.now) }
{
    match expression {
        ExpressionNode::Receive(channel) => Some(channel),
        _ => None,
    }
}

/// The channel of a right side that is one receive and gives two values: the item, and whether it was sent.
fn source_of_two(count: usize, right: &[ExpressionNode]) -> Option<&ExpressionNode>
    ensures { option_map (λ (channel : _). expression_of channel.now) result ≡ source_of_two count (map expression_of right.now) }
{
    match right {
        [value] if count == 2 => source_of(value),
        _ => None,
    }
}

/// The types of the `count` values that a right side gives.
///
/// Errors: out of memory.
pub fn right_kinds<'a>(
    context: &Context<'_, 'a>,
    visible: &Visible<'a>,
    count: usize,
    right: &'a [ExpressionNode],
) -> Result<Vec<ValueType<'a>>, AllocError>
    ensures { IfOk result (λ kinds. (elements : List Element) → map (kind_of (types_in context.now)) kinds.items ≡ right_types (globals_of context.now) elements (scope_in context.now visible.now) count (map expression_of right.now)) }
{
    let mut kinds = own_kinds(context, visible, right)?;
    if source_of_two(count, right).is_none() {
        return Ok(kinds);
    }
    kinds.push(ValueType::Bool)?;
    Ok(kinds)
}

/// Pushes the values of a right side, which gives `count` values, as values of these types.
///
/// Errors: out of memory.
pub fn push_right<'t>(
    context: &Context<'_, 't>,
    visible: &Visible<'t>,
    kinds: &[ValueType<'t>],
    count: usize,
    right: &'t [ExpressionNode],
    code: &mut Vec<Instr>,
) -> Result<(), AllocError>
    ensures { OnOk result (Puts code.old.items code.new.items (pushes_right (globals_of context.now) (elements_of context.now) (scope_in context.now visible.now) count (map (kind_of (types_in context.now)) kinds.now) (map expression_of right.now))) }
{
    let Some(channel) = source_of_two(count, right) else {
        return emit_all(context, visible, kinds, right, code);
    };
    push_received(context, visible, channel, code)?;
    Ok(())
}
