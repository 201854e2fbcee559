//! How many nodes a part of a tree has.

ghost use Rattle.std.specs.Prelude.{◌≡◌, ◌+◌, ◌^◌, ◌<◌, option_map, map, sum_by};
ghost use Rattle.syntax.specs.Tree.{expressions};
ghost use Rattle.syntax.specs.Measures.{type_size, expression_size, expressions_size, part_size, simple_size, if_head_size, target_size, for_head_size, comm_size, if_any, returned_size, statement_size, statements_size, branch_size, otherwise_size, clauses_size, declared_size, function_size, top_size};
ghost use Rattle.syntax.specs.View.{type_of, expression_of, right_of, part_of, simple_of, if_head_of, target_of, for_head_of, comm_of, returned_of, statement_of, body_of, branch_of, otherwise_of, clause_of, clauses, declared_of, function_of, top_of};

use crate::node::{
    ClauseNode, CommNode, DeclaredNode, ElseNode, ExpressionNode, ForHeader, FunctionNode,
    IfHeader, IfNode, PartNode, RangeTarget, ReturnNode, SimpleNode, StatementNode, TopNode,
    TypeNode,
};

/// How many nodes a type has.
pub fn type_size(kind: &TypeNode) -> u32
    requires { type_size (type_of kind.now) < 2 ^ 32 }
    ensures { result ≡ type_size (type_of kind.now) }
{
    match kind {
        TypeNode::Named(_) => 1,
        TypeNode::Parenthesized(inner) => type_size(inner) + 1,
        TypeNode::Channel(_, element) => type_size(element) + 1,
    }
}

/// How many nodes an expression has.
#[cycle(expression_size)]
pub fn expression_size(expression: &ExpressionNode) -> u32
    requires { expression_size (expression_of expression.now) < 2 ^ 32 }
    ensures { result ≡ expression_size (expression_of expression.now) }
{
    match expression {
        ExpressionNode::Integer(_) | ExpressionNode::Named(_) => 1,
        ExpressionNode::Parenthesized(inner) => expression_size(inner) + 1,
        ExpressionNode::Selection(whole, _) => expression_size(whole) + 1,
        ExpressionNode::Composite(_, values, _) => values_size(values.as_slice()) + 1,
        ExpressionNode::Unary(_, operand) => expression_size(operand) + 1,
        ExpressionNode::Binary(_, left, right) => {
            expression_size(left) + expression_size(right) + 1
        }
        ExpressionNode::Call(_, values, _) => values_size(values.as_slice()) + 1,
        ExpressionNode::Receive(channel)
        | ExpressionNode::Length(channel)
        | ExpressionNode::Capacity(channel) => expression_size(channel) + 1,
        ExpressionNode::Make(channel) => type_size(channel) + 1,
        ExpressionNode::MakeSized(channel, size) => {
            type_size(channel) + expression_size(size) + 1
        }
    }
}

/// How many nodes the values of a literal or a call have.
#[cycle(expression_size)]
fn values_size(values: &[ExpressionNode]) -> u32
    requires { expressions_size (expressions (map expression_of values.now)) < 2 ^ 32 }
    ensures { result ≡ expressions_size (expressions (map expression_of values.now)) }
{
    let mut size = 0;
    for value in values {
        size += expression_size(value);
    }
    size
}

/// How many nodes arguments have.
fn arguments_size(values: &[ExpressionNode]) -> u32
    requires { sum_by expression_size (map expression_of values.now) < 2 ^ 32 }
    ensures { result ≡ sum_by expression_size (map expression_of values.now) }
{
    let mut size = 0;
    for value in values {
        size += expression_size(value);
    }
    size
}

/// How many nodes an expression has that may be left out.
fn optional_size(expression: &Option<ExpressionNode>) -> u32
    requires { if_any expression_size (option_map expression_of expression.now) < 2 ^ 32 }
    ensures { result ≡ if_any expression_size (option_map expression_of expression.now) }
{
    match expression {
        None => 0,
        Some(expression) => expression_size(expression),
    }
}

/// How many nodes an argument of a print has.
fn part_size(part: &PartNode) -> u32
    requires { part_size (part_of part.now) < 2 ^ 32 }
    ensures { result ≡ part_size (part_of part.now) }
{
    match part {
        PartNode::Value(value) => expression_size(value),
        PartNode::Text(_) => 1,
    }
}

/// How many nodes the arguments of a print have.
fn parts_size(parts: &[PartNode]) -> u32
    requires { sum_by part_size (map part_of parts.now) < 2 ^ 32 }
    ensures { result ≡ sum_by part_size (map part_of parts.now) }
{
    let mut size = 0;
    for part in parts {
        size += part_size(part);
    }
    size
}

/// How many nodes a simple statement has.
fn simple_size(simple: &SimpleNode) -> u32
    requires { simple_size (simple_of simple.now) < 2 ^ 32 }
    ensures { result ≡ simple_size (simple_of simple.now) }
{
    match simple {
        SimpleNode::Call(_, arguments) => arguments_size(arguments.values.as_slice()) + 1,
        SimpleNode::Close(channel) | SimpleNode::Receive(channel) => expression_size(channel) + 1,
        SimpleNode::Print(_, parts, _) => parts_size(parts.as_slice()) + 1,
        SimpleNode::Send(channel, value) => expression_size(channel) + expression_size(value) + 1,
        SimpleNode::Increment(_) | SimpleNode::Decrement(_) => 2,
        SimpleNode::Assign(places, right) => places.len() as u32
            + arguments_size(right.as_slice())
            + 1,
        SimpleNode::Define(_, right) => arguments_size(right.as_slice()) + 1,
        SimpleNode::Update(_, _, value) => expression_size(value) + 2,
    }
}

/// How many nodes a simple statement has that may be left out.
fn optional_simple_size(simple: &Option<SimpleNode>) -> u32
    requires { if_any simple_size (option_map simple_of simple.now) < 2 ^ 32 }
    ensures { result ≡ if_any simple_size (option_map simple_of simple.now) }
{
    match simple {
        None => 0,
        Some(simple) => simple_size(simple),
    }
}

/// How many nodes are between an `if` and its condition.
fn if_header_size(header: &IfHeader) -> u32
    requires { if_head_size (if_head_of header.now) < 2 ^ 32 }
    ensures { result ≡ if_head_size (if_head_of header.now) }
{
    match header {
        IfHeader::Bare | IfHeader::Semicolon => 0,
        IfHeader::Simple(simple) => simple_size(simple),
    }
}

/// How many nodes there are of what a range assigns to.
fn target_size(target: &RangeTarget) -> u32
    ensures { result ≡ target_size (target_of target.now) }
{
    match target {
        RangeTarget::Nothing | RangeTarget::Define(_) => 0,
        RangeTarget::Assign(_) => 1,
    }
}

/// How many nodes are between a `for` and its block.
fn for_header_size(header: &ForHeader) -> u32
    requires { for_head_size (for_head_of header.now) < 2 ^ 32 }
    ensures { result ≡ for_head_size (for_head_of header.now) }
{
    match header {
        ForHeader::Forever => 0,
        ForHeader::While(condition) => expression_size(condition),
        ForHeader::Clauses(first, condition, post) => {
            optional_simple_size(first) + optional_size(condition) + optional_simple_size(post)
        }
        ForHeader::Range(target, channel) => target_size(target) + expression_size(channel),
    }
}

/// How many nodes there are of what a clause of a `select` waits for.
fn comm_size(comm: &CommNode) -> u32
    requires { comm_size (comm_of comm.now) < 2 ^ 32 }
    ensures { result ≡ comm_size (comm_of comm.now) }
{
    match comm {
        CommNode::Send(channel, value) => expression_size(channel) + expression_size(value) + 1,
        CommNode::Receive(channel) => expression_size(channel) + 1,
        CommNode::Define(_, _, channel) => expression_size(channel) + 2,
        CommNode::Assign(_, None, channel) => expression_size(channel) + 3,
        CommNode::Assign(_, Some(_), channel) => expression_size(channel) + 4,
    }
}

/// How many nodes follow a `return`.
fn return_size(returned: &ReturnNode) -> u32
    requires { returned_size (returned_of returned.now) < 2 ^ 32 }
    ensures { result ≡ returned_size (returned_of returned.now) }
{
    match returned {
        ReturnNode::Nothing => 0,
        ReturnNode::Value(value) => expression_size(value),
    }
}

/// How many nodes the values of a `var` with a type have.
fn optional_right_size(right: &Option<Vec<ExpressionNode>>) -> u32
    requires { if_any (sum_by expression_size) (option_map right_of right.now) < 2 ^ 32 }
    ensures { result ≡ if_any (sum_by expression_size) (option_map right_of right.now) }
{
    match right {
        None => 0,
        Some(right) => arguments_size(right.as_slice()),
    }
}

/// How many nodes a statement has.
#[cycle(statement_size)]
pub fn statement_size(statement: &StatementNode) -> u32
    requires { statement_size (statement_of statement.now) < 2 ^ 32 }
    ensures { result ≡ statement_size (statement_of statement.now) }
{
    match statement {
        StatementNode::Empty | StatementNode::Break | StatementNode::Continue => 1,
        StatementNode::Simple(simple) => simple_size(simple),
        StatementNode::Typed(_, kind, right) => type_size(kind) + optional_right_size(right) + 1,
        StatementNode::Untyped(_, right) => arguments_size(right.as_slice()) + 1,
        StatementNode::Block(body) => body_size(body.as_slice()) + 2,
        StatementNode::If(branch) => branch_size(branch),
        StatementNode::For(header, body) => {
            for_header_size(header) + body_size(body.as_slice()) + 2
        }
        StatementNode::Select(clauses) => clauses_size(clauses.as_slice()) + 1,
        StatementNode::Go(_, arguments) => arguments_size(arguments.values.as_slice()) + 1,
        StatementNode::Return(returned) => return_size(returned) + 1,
    }
}

/// How many nodes the statements of a block have.
#[cycle(statement_size)]
fn body_size(body: &[StatementNode]) -> u32
    requires { statements_size (body_of body.now) < 2 ^ 32 }
    ensures { result ≡ statements_size (body_of body.now) }
{
    let mut size = 0;
    for statement in body {
        size += statement_size(statement);
    }
    size
}

/// How many nodes an `if` has.
#[cycle(statement_size)]
fn branch_size(branch: &IfNode) -> u32
    requires { branch_size (branch_of branch.now) < 2 ^ 32 }
    ensures { result ≡ branch_size (branch_of branch.now) }
{
    if_header_size(&branch.header)
        + expression_size(&branch.condition)
        + body_size(branch.body.as_slice())
        + otherwise_size(&branch.otherwise)
        + 2
}

/// How many nodes there are in what is after the block of an `if`.
#[cycle(statement_size)]
fn otherwise_size(otherwise: &ElseNode) -> u32
    requires { otherwise_size (otherwise_of otherwise.now) < 2 ^ 32 }
    ensures { result ≡ otherwise_size (otherwise_of otherwise.now) }
{
    match otherwise {
        ElseNode::Nothing => 0,
        ElseNode::Block(body) => body_size(body.as_slice()) + 1,
        ElseNode::If(branch) => branch_size(branch),
    }
}

/// How many nodes the clauses of a `select` have.
#[cycle(statement_size)]
fn clauses_size(all: &[ClauseNode]) -> u32
    requires { clauses_size (clauses (map clause_of all.now)) < 2 ^ 32 }
    ensures { result ≡ clauses_size (clauses (map clause_of all.now)) }
{
    let mut size = 0;
    for clause in all {
        size += clause_size(clause);
    }
    size
}

/// How many nodes a clause of a `select` has.
#[cycle(statement_size)]
fn clause_size(clause: &ClauseNode) -> u32
    requires { if_any comm_size (clause_of clause.now).comm + statements_size (clause_of clause.now).body + 1 < 2 ^ 32 }
    ensures { result ≡ if_any comm_size (clause_of clause.now).comm + statements_size (clause_of clause.now).body + 1 }
{
    let waits = match &clause.comm {
        None => 0,
        Some(comm) => comm_size(comm),
    };
    waits + body_size(clause.body.as_slice()) + 1
}

/// How many nodes fields or parameters have.
fn declared_size(declared: &[DeclaredNode]) -> u32
    requires { sum_by declared_size (map declared_of declared.now) < 2 ^ 32 }
    ensures { result ≡ sum_by declared_size (map declared_of declared.now) }
{
    let mut size = 0;
    for one in declared {
        size += type_size(&one.type_node) + 1;
    }
    size
}

/// How many nodes a function has.
pub fn function_size(function: &FunctionNode) -> u32
    requires { function_size (function_of function.now) < 2 ^ 32 }
    ensures { result ≡ function_size (function_of function.now) }
{
    let result = match &function.result {
        None => 0,
        Some(kind) => type_size(kind),
    };
    declared_size(function.parameters.as_slice()) + result + body_size(function.body.as_slice()) + 2
}

/// How many nodes a declaration has.
pub fn top_size(top: &TopNode) -> u32
    requires { top_size (top_of top.now) < 2 ^ 32 }
    ensures { result ≡ top_size (top_of top.now) }
{
    match top {
        TopNode::Struct(one) => declared_size(one.fields.as_slice()) + 1,
        TopNode::Function(function) => function_size(function),
    }
}
