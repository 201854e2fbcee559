//! What the channels of a file carry: each type that is written in it, in order.

ghost use Rattle.std.specs.Prelude.{◌≡◌, ◌+◌, ◌<◌, ◌≤◌, ◌^◌, [], IfOk, OnOk, length, map, option_map, sum_by};
ghost use Rattle.syntax.specs.Measures.{if_any, type_size, expression_size, expressions_size, part_size, simple_size, for_head_size, comm_size, returned_size, statement_size, statements_size, branch_size, otherwise_size, clauses_size, declared_size, function_size, top_size, if_head_size};
ghost use Rattle.syntax.specs.Tree.{expressions};
ghost use Rattle.syntax.specs.View.{type_of, expression_of, part_of, right_of, simple_of, comm_of, if_head_of, for_head_of, returned_of, statement_of, body_of, branch_of, otherwise_of, clause_of, clauses, declared_of, top_of};
ghost use Rattle.type_table.specs.Views.{kind_of};
ghost use Rattle.type_table.specs.Visible.{types_of};
ghost use Rattle.typing_rules.specs.Statements.{head_simple};
ghost use Rattle.codegen_base.specs.Program.{noting, noting_any, noting_comm, noting_expression, noting_expressions, noting_given, noting_parts, noting_simple, noting_first, noting_head, noting_returned, noting_statement, noting_statements, noting_branch, noting_otherwise, noting_clauses, noting_declared, noting_top, noting_tops, noting_value, noting_values};

use crate::element_list::ElementList;
use crate::shape::note_kind;
use std::alloc::{AllocError, Global};
use syntax::{
    ClauseNode, CommNode, DeclaredNode, ElseNode, ExpressionNode, ForHeader, IfHeader, IfNode,
    PartNode, ReturnNode, SimpleNode, StatementNode, TopNode, TypeNode,
};
use type_table::table::TypeTable;
use type_table::value_type::global_type_in;

/// Notes what the channels in a type carry.
#[tactic(auto, using(crate::proofs::Counting::noting_length))]
fn note_type(
    table: &TypeTable<'_>,
    elements: &mut ElementList,
    kind: &TypeNode,
) -> Result<(), AllocError>
    requires room { length elements.old + type_size (type_of kind.now) < 2 ^ 32 }
    ensures noted { OnOk result (elements.new ≡ noting (types_of table.now) (type_of kind.now) elements.old) }
    ensures count { OnOk result (length elements.new ≤ length elements.old + type_size (type_of kind.now)) }
{
    match global_type_in(table.types(), kind) {
        Some(kind) => {
            note_kind(table, elements, kind)?;
            Ok(())
        }
        None => Ok(()),
    }
}

/// Like `note_type`, for a type that may be left out.
#[tactic(auto, using(crate::proofs::Counting::any_length))]
fn note_any(
    table: &TypeTable<'_>,
    elements: &mut ElementList,
    kind: &Option<TypeNode>,
) -> Result<(), AllocError>
    requires room { length elements.old + if_any type_size (option_map type_of kind.now) < 2 ^ 32 }
    ensures noted { OnOk result (elements.new ≡ noting_any (types_of table.now) (option_map type_of kind.now) elements.old) }
    ensures count { OnOk result (length elements.new ≤ length elements.old + if_any type_size (option_map type_of kind.now)) }
{
    match kind {
        Some(kind) => note_type(table, elements, kind),
        None => Ok(()),
    }
}

/// Like `note_type`, for an expression: a `make` names a type.
#[cycle(expression)]
#[tactic(auto, using(crate::proofs::Counting::expression_length))]
fn note_expression<'t, 'e, 's>(
    table: &'t TypeTable<'_>,
    elements: &'e mut ElementList,
    expression: &'s ExpressionNode,
) -> Result<(), AllocError>
    requires room { length elements.old + expression_size (expression_of expression.now) < 2 ^ 32 }
    ensures noted { OnOk result (elements.new ≡ noting_expression (types_of table.now) (expression_of expression.now) elements.old) }
    ensures count { OnOk result (length elements.new ≤ length elements.old + expression_size (expression_of expression.now)) }
{
    match expression {
        ExpressionNode::Integer(_) | ExpressionNode::Named(_) => Ok(()),
        ExpressionNode::Parenthesized(inner)
        | ExpressionNode::Selection(inner, _)
        | ExpressionNode::Unary(_, inner)
        | ExpressionNode::Receive(inner)
        | ExpressionNode::Length(inner)
        | ExpressionNode::Capacity(inner) => note_expression(table, elements, inner),
        ExpressionNode::Composite(_, values, _) | ExpressionNode::Call(_, values, _) => {
            note_expressions(table, elements, values.as_slice())
        }
        ExpressionNode::Binary(_, left, right) => {
            note_expression(table, elements, left)?;
            note_expression(table, elements, right)
        }
        ExpressionNode::Make(kind) => note_type(table, elements, kind),
        ExpressionNode::MakeSized(kind, size) => {
            note_type(table, elements, kind)?;
            note_expression(table, elements, size)
        }
    }
}

/// Like `note_expression`, for the values of a literal, a call or a right side.
#[cycle(expression)]
#[tactic(auto, using(crate::proofs::Counting::expressions_length))]
fn note_expressions<'t, 'e, 's>(
    table: &'t TypeTable<'_>,
    elements: &'e mut ElementList,
    values: &'s [ExpressionNode],
) -> Result<(), AllocError>
    requires room { length elements.old + expressions_size (expressions (map expression_of values.now)) < 2 ^ 32 }
    ensures noted { OnOk result (elements.new ≡ noting_expressions (types_of table.now) (expressions (map expression_of values.now)) elements.old) }
    ensures count { OnOk result (length elements.new ≤ length elements.old + expressions_size (expressions (map expression_of values.now))) }
{
    let Some((value, values)) = values.split_first() else {
        return Ok(());
    };
    note_expression(table, elements, value)?;
    note_expressions(table, elements, values)
}

/// Like `note_expressions`, for values that are counted one by one.
#[tactic(auto, using(crate::proofs::Counting::all_sizes))]
fn note_values(
    table: &TypeTable<'_>,
    elements: &mut ElementList,
    values: &[ExpressionNode],
) -> Result<(), AllocError>
    requires room { length elements.old + sum_by expression_size (map expression_of values.now) < 2 ^ 32 }
    ensures noted { OnOk result (elements.new ≡ noting_values (types_of table.now) (map expression_of values.now) elements.old) }
    ensures count { OnOk result (length elements.new ≤ length elements.old + sum_by expression_size (map expression_of values.now)) }
{
    note_expressions(table, elements, values)
}

/// Like `note_expression`, for an expression that may be left out.
fn note_optional(
    table: &TypeTable<'_>,
    elements: &mut ElementList,
    value: &Option<ExpressionNode>,
) -> Result<(), AllocError>
    requires room { length elements.old + if_any expression_size (option_map expression_of value.now) < 2 ^ 32 }
    ensures noted { OnOk result (elements.new ≡ noting_value (types_of table.now) (option_map expression_of value.now) elements.old) }
    ensures count { OnOk result (length elements.new ≤ length elements.old + if_any expression_size (option_map expression_of value.now)) }
{
    match value {
        Some(value) => note_expression(table, elements, value),
        None => Ok(()),
    }
}

/// Like `note_expression`, for what is printed.
#[tactic(auto, using(crate::proofs::Counting::parts_length))]
fn note_parts(
    table: &TypeTable<'_>,
    elements: &mut ElementList,
    parts: &[PartNode],
) -> Result<(), AllocError>
    requires room { length elements.old + sum_by part_size (map part_of parts.now) < 2 ^ 32 }
    ensures noted { OnOk result (elements.new ≡ noting_parts (types_of table.now) (map part_of parts.now) elements.old) }
    ensures count { OnOk result (length elements.new ≤ length elements.old + sum_by part_size (map part_of parts.now)) }
{
    for part in parts {
        if let PartNode::Value(value) = part {
            note_expression(table, elements, value)?;
        }
    }
    Ok(())
}

/// Like `note_expression`, for a simple statement.
fn note_simple(
    table: &TypeTable<'_>,
    elements: &mut ElementList,
    simple: &SimpleNode,
) -> Result<(), AllocError>
    requires room { length elements.old + simple_size (simple_of simple.now) < 2 ^ 32 }
    ensures noted { OnOk result (elements.new ≡ noting_simple (types_of table.now) (simple_of simple.now) elements.old) }
    ensures count { OnOk result (length elements.new ≤ length elements.old + simple_size (simple_of simple.now)) }
{
    match simple {
        SimpleNode::Call(_, arguments) => {
            note_values(table, elements, arguments.values.as_slice())
        }
        SimpleNode::Close(value) | SimpleNode::Receive(value) => {
            note_expression(table, elements, value)
        }
        SimpleNode::Print(_, parts, _) => note_parts(table, elements, parts.as_slice()),
        SimpleNode::Send(channel, value) => {
            note_expression(table, elements, channel)?;
            note_expression(table, elements, value)
        }
        SimpleNode::Increment(_) | SimpleNode::Decrement(_) => Ok(()),
        SimpleNode::Assign(_, right) | SimpleNode::Define(_, right) => {
            note_values(table, elements, right.as_slice())
        }
        SimpleNode::Update(_, _, value) => note_expression(table, elements, value),
    }
}

/// Like `note_values`, for a right side that may be left out.
fn note_given(
    table: &TypeTable<'_>,
    elements: &mut ElementList,
    right: &Option<Vec<ExpressionNode>>,
) -> Result<(), AllocError>
    requires room { length elements.old + if_any (sum_by expression_size) (option_map right_of right.now) < 2 ^ 32 }
    ensures noted { OnOk result (elements.new ≡ noting_given (types_of table.now) (option_map right_of right.now) elements.old) }
    ensures count { OnOk result (length elements.new ≤ length elements.old + if_any (sum_by expression_size) (option_map right_of right.now)) }
{
    match right {
        Some(right) => note_values(table, elements, right.as_slice()),
        None => Ok(()),
    }
}

/// Like `note_simple`, for a simple statement that may be left out.
fn note_first(
    table: &TypeTable<'_>,
    elements: &mut ElementList,
    simple: &Option<SimpleNode>,
) -> Result<(), AllocError>
    requires room { length elements.old + if_any simple_size (option_map simple_of simple.now) < 2 ^ 32 }
    ensures noted { OnOk result (elements.new ≡ noting_first (types_of table.now) (option_map simple_of simple.now) elements.old) }
    ensures count { OnOk result (length elements.new ≤ length elements.old + if_any simple_size (option_map simple_of simple.now)) }
{
    match simple {
        Some(simple) => note_simple(table, elements, simple),
        None => Ok(()),
    }
}

/// Like `note_simple`, for what comes before the condition of an `if`.
fn note_header(
    table: &TypeTable<'_>,
    elements: &mut ElementList,
    header: &IfHeader,
) -> Result<(), AllocError>
    requires room { length elements.old + if_head_size (if_head_of header.now) < 2 ^ 32 }
    ensures noted { OnOk result (elements.new ≡ noting_first (types_of table.now) (head_simple (if_head_of header.now)) elements.old) }
    ensures count { OnOk result (length elements.new ≤ length elements.old + if_head_size (if_head_of header.now)) }
{
    match header {
        IfHeader::Simple(simple) => note_simple(table, elements, simple),
        IfHeader::Bare | IfHeader::Semicolon => Ok(()),
    }
}

/// Like `note_simple`, for the head of a loop.
fn note_head(
    table: &TypeTable<'_>,
    elements: &mut ElementList,
    head: &ForHeader,
) -> Result<(), AllocError>
    requires room { length elements.old + for_head_size (for_head_of head.now) < 2 ^ 32 }
    ensures noted { OnOk result (elements.new ≡ noting_head (types_of table.now) (for_head_of head.now) elements.old) }
    ensures count { OnOk result (length elements.new ≤ length elements.old + for_head_size (for_head_of head.now)) }
{
    match head {
        ForHeader::Forever => Ok(()),
        ForHeader::While(condition) => note_expression(table, elements, condition),
        ForHeader::Clauses(first, condition, post) => {
            note_first(table, elements, first)?;
            note_optional(table, elements, condition)?;
            note_first(table, elements, post)
        }
        ForHeader::Range(_, channel) => note_expression(table, elements, channel),
    }
}

/// Like `note_simple`, for the send or receive of a clause; the default clause has none.
fn note_comm(
    table: &TypeTable<'_>,
    elements: &mut ElementList,
    comm: &Option<CommNode>,
) -> Result<(), AllocError>
    requires room { length elements.old + if_any comm_size (option_map comm_of comm.now) < 2 ^ 32 }
    ensures noted { OnOk result (elements.new ≡ noting_comm (types_of table.now) (option_map comm_of comm.now) elements.old) }
    ensures count { OnOk result (length elements.new ≤ length elements.old + if_any comm_size (option_map comm_of comm.now)) }
{
    match comm {
        Some(CommNode::Send(channel, value)) => {
            note_expression(table, elements, channel)?;
            note_expression(table, elements, value)
        }
        Some(
            CommNode::Receive(channel)
            | CommNode::Define(_, _, channel)
            | CommNode::Assign(_, _, channel),
        ) => note_expression(table, elements, channel),
        None => Ok(()),
    }
}

/// Like `note_expression`, for what is returned.
fn note_returned(
    table: &TypeTable<'_>,
    elements: &mut ElementList,
    returned: &ReturnNode,
) -> Result<(), AllocError>
    requires room { length elements.old + returned_size (returned_of returned.now) < 2 ^ 32 }
    ensures noted { OnOk result (elements.new ≡ noting_returned (types_of table.now) (returned_of returned.now) elements.old) }
    ensures count { OnOk result (length elements.new ≤ length elements.old + returned_size (returned_of returned.now)) }
{
    match returned {
        ReturnNode::Nothing => Ok(()),
        ReturnNode::Value(value) => note_expression(table, elements, value),
    }
}

/// Like `note_expression`, for a statement.
#[cycle(statement)]
#[tactic(auto, using(crate::proofs::Counting::statement_length))]
fn note_statement<'t, 'e, 's>(
    table: &'t TypeTable<'_>,
    elements: &'e mut ElementList,
    statement: &'s StatementNode,
) -> Result<(), AllocError>
    requires room { length elements.old + statement_size (statement_of statement.now) < 2 ^ 32 }
    ensures noted { OnOk result (elements.new ≡ noting_statement (types_of table.now) (statement_of statement.now) elements.old) }
    ensures count { OnOk result (length elements.new ≤ length elements.old + statement_size (statement_of statement.now)) }
{
    match statement {
        StatementNode::Simple(simple) => note_simple(table, elements, simple),
        StatementNode::Typed(_, kind, right) => {
            note_type(table, elements, kind)?;
            note_given(table, elements, right)
        }
        StatementNode::Untyped(_, right) => note_values(table, elements, right.as_slice()),
        StatementNode::Block(body) => note_statements(table, elements, body.as_slice()),
        StatementNode::If(branch) => note_branch(table, elements, branch),
        StatementNode::For(head, body) => {
            note_head(table, elements, head)?;
            note_statements(table, elements, body.as_slice())
        }
        StatementNode::Select(clauses) => note_clauses(table, elements, clauses.as_slice()),
        StatementNode::Return(returned) => note_returned(table, elements, returned),
        StatementNode::Go(_, arguments) => {
            note_values(table, elements, arguments.values.as_slice())
        }
        StatementNode::Empty | StatementNode::Break | StatementNode::Continue => Ok(()),
    }
}

/// Like `note_statement`, for the statements of a block.
#[cycle(statement)]
#[tactic(auto, using(crate::proofs::Counting::statements_length))]
fn note_statements<'t, 'e, 's>(
    table: &'t TypeTable<'_>,
    elements: &'e mut ElementList,
    body: &'s [StatementNode],
) -> Result<(), AllocError>
    requires room { length elements.old + statements_size (body_of body.now) < 2 ^ 32 }
    ensures noted { OnOk result (elements.new ≡ noting_statements (types_of table.now) (body_of body.now) elements.old) }
    ensures count { OnOk result (length elements.new ≤ length elements.old + statements_size (body_of body.now)) }
{
    for one in body {
        note_statement(table, elements, one)?;
    }
    Ok(())
}

/// Like `note_statement`, for an `if`.
#[cycle(statement)]
#[tactic(auto, using(crate::proofs::Counting::branch_length))]
fn note_branch<'t, 'e, 's>(
    table: &'t TypeTable<'_>,
    elements: &'e mut ElementList,
    branch: &'s IfNode,
) -> Result<(), AllocError>
    requires room { length elements.old + branch_size (branch_of branch.now) < 2 ^ 32 }
    ensures noted { OnOk result (elements.new ≡ noting_branch (types_of table.now) (branch_of branch.now) elements.old) }
    ensures count { OnOk result (length elements.new ≤ length elements.old + branch_size (branch_of branch.now)) }
{
    note_header(table, elements, &branch.header)?;
    note_expression(table, elements, &branch.condition)?;
    note_statements(table, elements, branch.body.as_slice())?;
    note_otherwise(table, elements, &branch.otherwise)
}

/// Like `note_statement`, for what an `else` holds.
#[cycle(statement)]
#[tactic(auto, using(crate::proofs::Counting::otherwise_length))]
fn note_otherwise<'t, 'e, 's>(
    table: &'t TypeTable<'_>,
    elements: &'e mut ElementList,
    otherwise: &'s ElseNode,
) -> Result<(), AllocError>
    requires room { length elements.old + otherwise_size (otherwise_of otherwise.now) < 2 ^ 32 }
    ensures noted { OnOk result (elements.new ≡ noting_otherwise (types_of table.now) (otherwise_of otherwise.now) elements.old) }
    ensures count { OnOk result (length elements.new ≤ length elements.old + otherwise_size (otherwise_of otherwise.now)) }
{
    match otherwise {
        ElseNode::Nothing => Ok(()),
        ElseNode::Block(body) => note_statements(table, elements, body.as_slice()),
        ElseNode::If(branch) => note_branch(table, elements, branch),
    }
}

/// Like `note_statement`, for the clauses of a select.
#[cycle(statement)]
#[tactic(auto, using(crate::proofs::Counting::clauses_length))]
fn note_clauses<'t, 'e, 's>(
    table: &'t TypeTable<'_>,
    elements: &'e mut ElementList,
    all: &'s [ClauseNode],
) -> Result<(), AllocError>
    requires room { length elements.old + clauses_size (clauses (map clause_of all.now)) < 2 ^ 32 }
    ensures noted { OnOk result (elements.new ≡ noting_clauses (types_of table.now) (clauses (map clause_of all.now)) elements.old) }
    ensures count { OnOk result (length elements.new ≤ length elements.old + clauses_size (clauses (map clause_of all.now))) }
{
    for one in all {
        note_comm(table, elements, &one.comm)?;
        note_statements(table, elements, one.body.as_slice())?;
    }
    Ok(())
}

/// Like `note_type`, for fields or parameters.
#[tactic(auto, using(crate::proofs::Counting::declared_length))]
fn note_declared(
    table: &TypeTable<'_>,
    elements: &mut ElementList,
    groups: &[DeclaredNode],
) -> Result<(), AllocError>
    requires room { length elements.old + sum_by declared_size (map declared_of groups.now) < 2 ^ 32 }
    ensures noted { OnOk result (elements.new ≡ noting_declared (types_of table.now) (map declared_of groups.now) elements.old) }
    ensures count { OnOk result (length elements.new ≤ length elements.old + sum_by declared_size (map declared_of groups.now)) }
{
    for group in groups {
        note_type(table, elements, &group.type_node)?;
    }
    Ok(())
}

/// Like `note_type`, for a declaration.
#[tactic(auto, using(crate::proofs::Counting::top_length))]
fn note_top(
    table: &TypeTable<'_>,
    elements: &mut ElementList,
    top: &TopNode,
) -> Result<(), AllocError>
    requires room { length elements.old + top_size (top_of top.now) < 2 ^ 32 }
    ensures noted { OnOk result (elements.new ≡ noting_top (types_of table.now) (top_of top.now) elements.old) }
    ensures count { OnOk result (length elements.new ≤ length elements.old + top_size (top_of top.now)) }
{
    match top {
        TopNode::Struct(one) => note_declared(table, elements, one.fields.as_slice()),
        TopNode::Function(function) => {
            note_declared(table, elements, function.parameters.as_slice())?;
            note_any(table, elements, &function.result)?;
            note_statements(table, elements, function.body.as_slice())
        }
    }
}

/// What the channels of a file carry.
#[tactic(auto, using(crate::proofs::Counting::tops_length))]
pub fn elements_in(
    alloc: Global,
    table: &TypeTable<'_>,
    tops: &[TopNode],
) -> Result<ElementList, AllocError>
    requires small { sum_by top_size (map top_of tops.now) < 2 ^ 32 }
    ensures { IfOk result (λ elements. elements ≡ noting_tops (types_of table.now) (map top_of tops.now) []) }
{
    let mut elements = ElementList::new(alloc);
    for top in tops {
        note_top(table, &mut elements, top)?;
    }
    Ok(elements)
}
