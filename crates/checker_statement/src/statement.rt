//! The check of statements.

ghost use Rattle.std.specs.Prelude.{◌≡◌, ℕ, ◌+◌, ◌^◌, ◌<◌, Option, Some, option_map, map, true, false, IfOk, IfErr};
ghost use Rattle.syntax.specs.Tree.{For, Select, Clauses, Clause};
ghost use Rattle.syntax.specs.Measures.{if_any, comm_size, returned_size, statement_size, statements_size, branch_size, otherwise_size, for_head_size};
ghost use Rattle.syntax.specs.View.{expression_of, comm_of, returned_of, if_head_of, for_head_of, statement_of, body_of, branch_of, otherwise_of, clause_of, clauses};
ghost use Rattle.type_table.specs.Scopes.{entered, left};
ghost use Rattle.type_table.specs.Views.{yield_of};
ghost use Rattle.type_table.specs.Visible.{types_of, globals_in, scope_of, Keeps, Leaves};
ghost use Rattle.typing_rules.specs.declared.violation.Violation.{Violation as OneViolation};
ghost use Rattle.typing_rules.specs.Violations.{IsBroken};
ghost use Rattle.checker_base.specs.Views.{worth_of, Refuses};
ghost use Rattle.typing_rules.specs.Operations.{Given};
ghost use Rattle.typing_rules.specs.Simples.{comm_simple};
ghost use Rattle.typing_rules.specs.Statements.{IfSimpleHas, after_any, ReturnHas, ReturnStatementHas, default_count, StatementHas, StatementsHave, OtherwiseHas, after, after_all, after_otherwise, after_clauses, PartsHave, after_parts, after_clause, ClauseHas};
ghost use Rattle.checker_statement.specs.Settings.{setting_in};

use crate::header::{broken_at, for_header, guard};
use checker_base::operand::{Operand, checked};
use checker_base::refusal::Refusal;
use checker_base::value::value;
use checker_simple::call::call_alone;
use checker_simple::simple::{comm, simple};
use checker_simple::variables::{typed_variables, untyped_variables};
use go_text::Rule;
use std::alloc::Global;
use syntax::{
    ClauseNode, CommNode, ElseNode, ForHeader, IfNode, NodeId, ReturnNode, StatementNode,
};
use type_table::scope::{Visible, enter, leave};
use type_table::table::TypeTable;
use type_table::value_type::ValueType;
use typing_rules::violation::Violation;

/// The context of a statement.
#[derive(Clone, Copy)]
pub struct Inside<'a> {
    /// The type of the result of its function: `None` if it has no result.
    pub result: Option<ValueType<'a>>,
    /// Whether it is within a `for` or a `select`, so that a `break` is allowed ("Break statements" of the Go
    /// specification).
    pub breaks: bool,
    /// Whether it is within a `for`, so that a `continue` may ("Continue statements").
    pub continues: bool,
}

/// Checks a value that a `return` gives, and returns the number after the `return` ("Return statements" of the Go
/// specification).
fn returns(
    table: &TypeTable<'_>,
    result_type: Option<ValueType<'_>>,
    operand: Operand<'_>,
) -> Result<NodeId, Violation>
    requires small { operand.node + 2 < 2 ^ 32 }
    ensures end { IfOk result (λ end. end ≡ operand.entry.node + 2) }
    ensures none { IfOk result (λ _. (g : Given) → g.worth ≡ Some (worth_of (types_of table.now) operand.entry.worth) → g.nodes.first ≡ operand.entry.first → g.nodes.end ≡ operand.entry.node + 1 → (end : ℕ) → end ≡ operand.entry.node + 2 → (violation : OneViolation) → ¬ (ReturnHas (yield_of (types_of table.now) result_type.entry) (Some g) end violation)) }
    ensures one { IfErr result (λ violation. (g : Given) → g.worth ≡ Some (worth_of (types_of table.now) operand.entry.worth) → g.nodes.first ≡ operand.entry.first → g.nodes.end ≡ operand.entry.node + 1 → (end : ℕ) → end ≡ operand.entry.node + 2 → ReturnHas (yield_of (types_of table.now) result_type.entry) (Some g) end violation) }
{
    match result_type {
        None => Err(Violation::Broken(Rule::Returned, operand.node + 1)),
        Some(kind) => {
            value(table, operand, kind)?;
            Ok(operand.node + 2)
        }
    }
}

/// Checks a `return`, whose nodes have numbers from `first` on, and returns the number after them.
fn return_statement<'a>(
    table: &TypeTable<'a>,
    result_type: Option<ValueType<'a>>,
    visible: &Visible<'a>,
    first: NodeId,
    returned: &'a ReturnNode,
) -> Result<NodeId, Violation>
    requires small { first + returned_size (returned_of returned.now) + 1 < 2 ^ 32 }
    ensures end { IfOk result (λ end. end ≡ first + (returned_size (returned_of returned.now) + 1)) }
    ensures none { IfOk result (λ _. (violation : OneViolation) → ¬ (ReturnStatementHas (globals_in table.now) (yield_of (types_of table.now) result_type.entry) (scope_of table.now visible.now) first (returned_of returned.now) violation)) }
    ensures one { IfErr result (ReturnStatementHas (globals_in table.now) (yield_of (types_of table.now) result_type.entry) (scope_of table.now visible.now) first (returned_of returned.now)) }
{
    match returned {
        ReturnNode::Nothing => match result_type {
            None => Ok(first + 1),
            Some(_) => Err(Violation::Broken(Rule::Returned, first)),
        },
        ReturnNode::Value(one) => {
            let operand = checked(table, visible, first, one)?;
            returns(table, result_type, operand)
        }
    }
}

/// Checks a `break` or a `continue`, which is the node `first`, and returns the number after it; `may` says whether it is
/// allowed there.
fn jump(may: bool, first: NodeId) -> Result<NodeId, Refusal>
    requires small { first + 1 < 2 ^ 32 }
    ensures end { IfOk result (λ end. end ≡ first + 1) }
    ensures none { IfOk result (λ _. (violation : OneViolation) → ¬ ((may ≡ false) × IsBroken Rule.Branch (first + 1) violation)) }
    ensures one { IfErr result (Refuses (λ violation. (may ≡ false) × IsBroken Rule.Branch (first + 1) violation)) }
{
    if may {
        Ok(first + 1)
    } else {
        Err(Refusal::Violated(Violation::Broken(Rule::Branch, first)))
    }
}

/// Checks what a clause of a `select` waits for, if it isn't the default, and returns the number after its nodes. What it
/// declares is then visible.
fn optional_comm<'a>(
    alloc: Global,
    table: &TypeTable<'a>,
    visible: &mut Visible<'a>,
    first: NodeId,
    optional: &'a Option<CommNode>,
) -> Result<NodeId, Refusal>
    requires small { first + if_any comm_size (option_map comm_of optional.now) < 2 ^ 32 }
    ensures end { IfOk result (λ end. end ≡ first + if_any comm_size (option_map comm_of optional.now)) }
    ensures after { IfOk result (λ _. scope_of table.now visible.new ≡ after_any (globals_in table.now) (scope_of table.now visible.old) (option_map comm_simple (option_map comm_of optional.now))) }
    ensures kept { IfOk result (λ _. Keeps visible.old visible.new) }
    ensures none { IfOk result (λ _. (violation : OneViolation) → ¬ (IfSimpleHas (globals_in table.now) (scope_of table.now visible.old) first (option_map comm_simple (option_map comm_of optional.now)) violation)) }
    ensures one { IfErr result (Refuses (IfSimpleHas (globals_in table.now) (scope_of table.now visible.old) first (option_map comm_simple (option_map comm_of optional.now)))) }
{
    match optional {
        None => Ok(first),
        Some(one) => comm(alloc, table, visible, first, one),
    }
}

/// How many defaults a `select` has up to this clause, after `defaults` before it.
fn with_clause(defaults: usize, one: &ClauseNode) -> usize
    requires few { defaults < 2 }
    ensures count { (rest : Clauses) → result + default_count rest ≡ defaults + default_count (Clause (clause_of one.now).comm (clause_of one.now).body rest) }
    ensures few { result < 3 }
{
    match one.comm {
        None => defaults + 1,
        Some(_) => defaults,
    }
}

/// Checks a statement, whose nodes have numbers from `first` on, and returns the number after them. What it declares is
/// then visible.
#[cycle(statement)]
fn statement<'a>(
    alloc: Global,
    table: &TypeTable<'a>,
    inside: Inside<'a>,
    visible: &mut Visible<'a>,
    first: NodeId,
    whole: &'a StatementNode,
) -> Result<NodeId, Refusal>
    requires small { first + statement_size (statement_of whole.now) < 2 ^ 32 }
    ensures end { IfOk result (λ end. end ≡ first + statement_size (statement_of whole.now)) }
    ensures after { IfOk result (λ _. scope_of table.now visible.new ≡ after (globals_in table.now) (scope_of table.now visible.old) (statement_of whole.now)) }
    ensures kept { IfOk result (λ _. Keeps visible.old visible.new) }
    ensures none { IfOk result (λ _. (violation : OneViolation) → ¬ (StatementHas (setting_in table.now inside.entry) (scope_of table.now visible.old) first (statement_of whole.now) violation)) }
    ensures one { IfErr result (Refuses (StatementHas (setting_in table.now inside.entry) (scope_of table.now visible.old) first (statement_of whole.now))) }
{
    match whole {
        StatementNode::Empty => Ok(first + 1),
        StatementNode::Simple(one) => simple(alloc, table, visible, first, one),
        StatementNode::Typed(names, kind, right) => {
            typed_variables(alloc, table, visible, first, names.as_slice(), kind, right)
        }
        StatementNode::Untyped(names, right) => {
            untyped_variables(alloc, table, visible, first, names.as_slice(), right)
        }
        StatementNode::Block(body) => {
            let end = block(alloc, table, inside, visible, first, body.as_slice())?;
            Ok(end + 2)
        }
        StatementNode::If(branch) => if_statement(alloc, table, inside, visible, first, branch),
        StatementNode::For(header, body) => {
            let body = body.as_slice();
            for_statement(alloc, table, inside, visible, first, header, body, whole)
        }
        StatementNode::Select(all) => {
            select(alloc, table, inside, visible, first, all.as_slice(), whole)
        }
        StatementNode::Go(function, arguments) => {
            call_alone(table, visible, first, function, arguments)
        }
        StatementNode::Return(returned) => {
            Ok(return_statement(table, inside.result, visible, first, returned)?)
        }
        StatementNode::Break => jump(inside.breaks, first),
        StatementNode::Continue => jump(inside.continues, first),
    }
}

/// Checks statements, whose nodes have numbers from `first` on, and returns the number after them. What they declare is
/// then visible ("Blocks", "Declarations and scope" and "Statements" of the Go specification).
///
/// Errors: the first violation, in the order of the statements, the header of each before its blocks; `Memory` if an allocation failed,
/// or the frame would have over 2^64 words.
#[cycle(statement)]
pub fn statements<'a>(
    alloc: Global,
    table: &TypeTable<'a>,
    inside: Inside<'a>,
    visible: &mut Visible<'a>,
    first: NodeId,
    body: &'a [StatementNode],
) -> Result<NodeId, Refusal>
    requires small { first + statements_size (body_of body.now) < 2 ^ 32 }
    ensures end { IfOk result (λ end. end ≡ first + statements_size (body_of body.now)) }
    ensures after { IfOk result (λ _. scope_of table.now visible.new ≡ after_all (globals_in table.now) (scope_of table.now visible.old) (body_of body.now)) }
    ensures kept { IfOk result (λ _. Keeps visible.old visible.new) }
    ensures none { IfOk result (λ _. (violation : OneViolation) → ¬ (StatementsHave (setting_in table.now inside.entry) (scope_of table.now visible.old) first (body_of body.now) violation)) }
    ensures one { IfErr result (Refuses (StatementsHave (setting_in table.now inside.entry) (scope_of table.now visible.old) first (body_of body.now))) }
{
    let mut end = first;
    for one in body {
        end = statement(alloc, table, inside, visible, end, one)?;
    }
    Ok(end)
}

/// Checks the statements of a block, whose nodes have numbers from `first` on, and returns the number after them. What
/// they declare is visible no more.
#[cycle(statement)]
fn block<'a>(
    alloc: Global,
    table: &TypeTable<'a>,
    inside: Inside<'a>,
    visible: &mut Visible<'a>,
    first: NodeId,
    body: &'a [StatementNode],
) -> Result<NodeId, Refusal>
    requires small { first + statements_size (body_of body.now) < 2 ^ 32 }
    ensures end { IfOk result (λ end. end ≡ first + statements_size (body_of body.now)) }
    ensures after { IfOk result (λ _. scope_of table.now visible.new ≡ left (scope_of table.now visible.old) (after_all (globals_in table.now) (entered (scope_of table.now visible.old)) (body_of body.now))) }
    ensures left { IfOk result (λ _. Leaves visible.old visible.new) }
    ensures none { IfOk result (λ _. (violation : OneViolation) → ¬ (StatementsHave (setting_in table.now inside.entry) (entered (scope_of table.now visible.old)) first (body_of body.now) violation)) }
    ensures one { IfErr result (Refuses (StatementsHave (setting_in table.now inside.entry) (entered (scope_of table.now visible.old)) first (body_of body.now))) }
{
    let count = visible.entries.len();
    let outer = visible.outer;
    enter(visible);
    let end = statements(alloc, table, inside, visible, first, body)?;
    leave(visible, count, outer);
    Ok(end)
}

/// Checks an `if`, whose nodes have numbers from `first` on, and returns the number after them ("If statements" of the Go
/// specification).
#[cycle(statement)]
fn if_statement<'a>(
    alloc: Global,
    table: &TypeTable<'a>,
    inside: Inside<'a>,
    visible: &mut Visible<'a>,
    first: NodeId,
    branch: &'a IfNode,
) -> Result<NodeId, Refusal>
    requires small { first + branch_size (branch_of branch.now) < 2 ^ 32 }
    ensures end { IfOk result (λ end. end ≡ first + branch_size (branch_of branch.now)) }
    ensures after { IfOk result (λ _. scope_of table.now visible.new ≡ left (scope_of table.now visible.old) (after_parts (globals_in table.now) (entered (scope_of table.now visible.old)) (if_head_of branch.now.header) (body_of branch.now.body.items) (otherwise_of branch.now.otherwise))) }
    ensures left { IfOk result (λ _. Leaves visible.old visible.new) }
    ensures none { IfOk result (λ _. (violation : OneViolation) → ¬ (PartsHave (setting_in table.now inside.entry) (entered (scope_of table.now visible.old)) first (if_head_of branch.now.header) (expression_of branch.now.condition) (body_of branch.now.body.items) (otherwise_of branch.now.otherwise) violation)) }
    ensures one { IfErr result (Refuses (PartsHave (setting_in table.now inside.entry) (entered (scope_of table.now visible.old)) first (if_head_of branch.now.header) (expression_of branch.now.condition) (body_of branch.now.body.items) (otherwise_of branch.now.otherwise))) }
{
    let count = visible.entries.len();
    let outer = visible.outer;
    enter(visible);
    let node = if_parts(alloc, table, inside, visible, first, branch)?;
    leave(visible, count, outer);
    Ok(node + 1)
}

/// Checks the parts of an `if`, whose nodes have numbers from `first` on, within the block that it is, and returns its own
/// node.
#[cycle(statement)]
fn if_parts<'a>(
    alloc: Global,
    table: &TypeTable<'a>,
    inside: Inside<'a>,
    visible: &mut Visible<'a>,
    first: NodeId,
    branch: &'a IfNode,
) -> Result<NodeId, Refusal>
    requires small { first + branch_size (branch_of branch.now) < 2 ^ 32 }
    ensures end { IfOk result (λ node. node + 1 ≡ first + branch_size (branch_of branch.now)) }
    ensures after { IfOk result (λ _. scope_of table.now visible.new ≡ after_parts (globals_in table.now) (scope_of table.now visible.old) (if_head_of branch.now.header) (body_of branch.now.body.items) (otherwise_of branch.now.otherwise)) }
    ensures kept { IfOk result (λ _. Keeps visible.old visible.new) }
    ensures none { IfOk result (λ _. (violation : OneViolation) → ¬ (PartsHave (setting_in table.now inside.entry) (scope_of table.now visible.old) first (if_head_of branch.now.header) (expression_of branch.now.condition) (body_of branch.now.body.items) (otherwise_of branch.now.otherwise) violation)) }
    ensures one { IfErr result (Refuses (PartsHave (setting_in table.now inside.entry) (scope_of table.now visible.old) first (if_head_of branch.now.header) (expression_of branch.now.condition) (body_of branch.now.body.items) (otherwise_of branch.now.otherwise))) }
{
    let start = guard(
        alloc,
        table,
        visible,
        first,
        &branch.header,
        &branch.condition,
    )?;
    let following = block(alloc, table, inside, visible, start, branch.body.as_slice())?;
    otherwise(
        alloc,
        table,
        inside,
        visible,
        following + 1,
        &branch.otherwise,
    )
}

/// Checks what comes after the block of an `if`, and returns the number after its nodes.
#[cycle(statement)]
fn otherwise<'a>(
    alloc: Global,
    table: &TypeTable<'a>,
    inside: Inside<'a>,
    visible: &mut Visible<'a>,
    first: NodeId,
    otherwise: &'a ElseNode,
) -> Result<NodeId, Refusal>
    requires small { first + otherwise_size (otherwise_of otherwise.now) < 2 ^ 32 }
    ensures end { IfOk result (λ end. end ≡ first + otherwise_size (otherwise_of otherwise.now)) }
    ensures after { IfOk result (λ _. scope_of table.now visible.new ≡ after_otherwise (globals_in table.now) (scope_of table.now visible.old) (otherwise_of otherwise.now)) }
    ensures left { IfOk result (λ _. Leaves visible.old visible.new) }
    ensures none { IfOk result (λ _. (violation : OneViolation) → ¬ (OtherwiseHas (setting_in table.now inside.entry) (scope_of table.now visible.old) first (otherwise_of otherwise.now) violation)) }
    ensures one { IfErr result (Refuses (OtherwiseHas (setting_in table.now inside.entry) (scope_of table.now visible.old) first (otherwise_of otherwise.now))) }
{
    match otherwise {
        ElseNode::Nothing => Ok(first),
        ElseNode::Block(body) => {
            let end = block(alloc, table, inside, visible, first, body.as_slice())?;
            Ok(end + 1)
        }
        ElseNode::If(branch) => if_statement(alloc, table, inside, visible, first, branch),
    }
}

/// Checks a `for`, whose nodes have numbers from `first` on, and returns the number after them ("For statements" of the Go
/// specification).
#[cycle(statement)]
fn for_statement<'a>(
    alloc: Global,
    table: &TypeTable<'a>,
    inside: Inside<'a>,
    visible: &mut Visible<'a>,
    first: NodeId,
    header: &'a ForHeader,
    body: &'a [StatementNode],
    whole: &StatementNode,
) -> Result<NodeId, Refusal>
    requires whole { statement_of whole.now ≡ For (for_head_of header.now) (body_of body.now) }
    requires small { first + (for_head_size (for_head_of header.now) + statements_size (body_of body.now) + 2) < 2 ^ 32 }
    ensures end { IfOk result (λ end. end ≡ first + statement_size (For (for_head_of header.now) (body_of body.now))) }
    ensures after { IfOk result (λ _. scope_of table.now visible.new ≡ after (globals_in table.now) (scope_of table.now visible.old) (For (for_head_of header.now) (body_of body.now))) }
    ensures left { IfOk result (λ _. Leaves visible.old visible.new) }
    ensures none { IfOk result (λ _. (violation : OneViolation) → ¬ (StatementHas (setting_in table.now inside.entry) (scope_of table.now visible.old) first (For (for_head_of header.now) (body_of body.now)) violation)) }
    ensures one { IfErr result (Refuses (StatementHas (setting_in table.now inside.entry) (scope_of table.now visible.old) first (For (for_head_of header.now) (body_of body.now)))) }
{
    let count = visible.entries.len();
    let outer = visible.outer;
    enter(visible);
    let start = for_header(alloc, table, visible, first, header, whole)?;
    let within = Inside {
        breaks: true,
        continues: true,
        ..inside
    };
    let end = block(alloc, table, within, visible, start, body)?;
    leave(visible, count, outer);
    Ok(end + 2)
}

/// Checks a `select`, whose nodes have numbers from `first` on, and returns the number after them ("Select statements" of the Go
/// specification). A second default is reported at its clause.
#[cycle(statement)]
fn select<'a>(
    alloc: Global,
    table: &TypeTable<'a>,
    inside: Inside<'a>,
    visible: &mut Visible<'a>,
    first: NodeId,
    all: &'a [ClauseNode],
    whole: &StatementNode,
) -> Result<NodeId, Refusal>
    requires whole { statement_of whole.now ≡ Select (clauses (map clause_of all.now)) }
    requires small { first + statement_size (Select (clauses (map clause_of all.now))) < 2 ^ 32 }
    ensures end { IfOk result (λ end. end ≡ first + statement_size (Select (clauses (map clause_of all.now)))) }
    ensures after { IfOk result (λ _. scope_of table.now visible.new ≡ after_clauses (globals_in table.now) (scope_of table.now visible.old) (clauses (map clause_of all.now))) }
    ensures left { IfOk result (λ _. Leaves visible.old visible.new) }
    ensures none { IfOk result (λ _. (violation : OneViolation) → ¬ (StatementHas (setting_in table.now inside.entry) (scope_of table.now visible.old) first (Select (clauses (map clause_of all.now))) violation)) }
    ensures one { IfErr result (Refuses (StatementHas (setting_in table.now inside.entry) (scope_of table.now visible.old) first (Select (clauses (map clause_of all.now))))) }
{
    let mut end = first;
    let mut defaults = 0;
    for one in all {
        defaults = with_clause(defaults, one);
        if defaults > 1 {
            return Err(Refusal::Violated(broken_at(whole, first, Rule::OneDefault)));
        }
        end = clause(alloc, table, inside, visible, end, one)?;
    }
    Ok(end + 1)
}

/// Checks a clause of a `select`, whose nodes have numbers from `first` on, and returns the number after them.
#[cycle(statement)]
fn clause<'a>(
    alloc: Global,
    table: &TypeTable<'a>,
    inside: Inside<'a>,
    visible: &mut Visible<'a>,
    first: NodeId,
    one: &'a ClauseNode,
) -> Result<NodeId, Refusal>
    requires small { first + (if_any comm_size (clause_of one.now).comm + statements_size (clause_of one.now).body + 1) < 2 ^ 32 }
    ensures end { IfOk result (λ end. end ≡ first + (if_any comm_size (clause_of one.now).comm + statements_size (clause_of one.now).body + 1)) }
    ensures after { IfOk result (λ _. scope_of table.now visible.new ≡ left (scope_of table.now visible.old) (after_clause (globals_in table.now) (entered (scope_of table.now visible.old)) (clause_of one.now).comm (clause_of one.now).body)) }
    ensures left { IfOk result (λ _. Leaves visible.old visible.new) }
    ensures none { IfOk result (λ _. (violation : OneViolation) → ¬ (ClauseHas (setting_in table.now inside.entry) (entered (scope_of table.now visible.old)) first (clause_of one.now).comm (clause_of one.now).body violation)) }
    ensures one { IfErr result (Refuses (ClauseHas (setting_in table.now inside.entry) (entered (scope_of table.now visible.old)) first (clause_of one.now).comm (clause_of one.now).body)) }
{
    let count = visible.entries.len();
    let outer = visible.outer;
    enter(visible);
    let end = clause_parts(alloc, table, inside, visible, first, one)?;
    leave(visible, count, outer);
    Ok(end + 1)
}

/// Checks the parts of a clause of a `select`, whose nodes have numbers from `first` on, within the block that it is, and
/// returns the number after them.
#[cycle(statement)]
fn clause_parts<'a>(
    alloc: Global,
    table: &TypeTable<'a>,
    inside: Inside<'a>,
    visible: &mut Visible<'a>,
    first: NodeId,
    one: &'a ClauseNode,
) -> Result<NodeId, Refusal>
    requires small { first + (if_any comm_size (clause_of one.now).comm + statements_size (clause_of one.now).body) < 2 ^ 32 }
    ensures end { IfOk result (λ end. end ≡ first + (if_any comm_size (clause_of one.now).comm + statements_size (clause_of one.now).body)) }
    ensures after { IfOk result (λ _. scope_of table.now visible.new ≡ after_clause (globals_in table.now) (scope_of table.now visible.old) (clause_of one.now).comm (clause_of one.now).body) }
    ensures kept { IfOk result (λ _. Keeps visible.old visible.new) }
    ensures none { IfOk result (λ _. (violation : OneViolation) → ¬ (ClauseHas (setting_in table.now inside.entry) (scope_of table.now visible.old) first (clause_of one.now).comm (clause_of one.now).body violation)) }
    ensures one { IfErr result (Refuses (ClauseHas (setting_in table.now inside.entry) (scope_of table.now visible.old) first (clause_of one.now).comm (clause_of one.now).body)) }
{
    let following = optional_comm(alloc, table, visible, first, &one.comm)?;
    let within = Inside {
        breaks: true,
        ..inside
    };
    statements(
        alloc,
        table,
        within,
        visible,
        following,
        one.body.as_slice(),
    )
}
