//! Statements ("Statements" of the Go specification).

ghost use Rattle.std.specs.Prelude.{◌≡◌, [], IfOk, List, None, OnOk, Some, map, option_map, ℕ};
ghost use Rattle.syntax.specs.View.{body_of, branch_of, clause_of, clauses, comm_of, expression_of, for_head_of, otherwise_of, simple_of, statement_of, target_of};
ghost use Rattle.syntax.specs.Tree.{Clause, Clauses, Expression, For, ForClauses, NoClause, Range, Select};
ghost use Rattle.type_table.specs.Views.{kind_of};
ghost use Rattle.type_table.specs.Visible.{types_of};
ghost use Rattle.codegen_base.specs.Generated.{ended, inside, made, made_all, made_branch, made_default};
ghost use Rattle.codegen_base.specs.Layouts.{Layout as OneLayout, carried};
ghost use Rattle.codegen_emission.specs.Items.{made_item, made_items};
ghost use Rattle.codegen_flow.specs.Controls.{control};
ghost use Rattle.codegen_emission.specs.Turns.{made_turns};
ghost use Rattle.codegen_emission.specs.Ways.{Reaches, Ways, default_start, made_way, ways_left};
ghost use Rattle.codegen_emission.specs.declared.emitter.Emitter.{Emitter as OneEmitter};
ghost use Rattle.codegen_emission.specs.Branches.{made_condition, made_one_way, made_other, made_two_ways};
ghost use Rattle.codegen_header.specs.Layouts.{layout_of};
ghost use Rattle.codegen_emission.specs.Emitted.{Emits, site_of};
ghost use Rattle.codegen_emission.specs.Contexts.{of_function, of_program, result_of, table_of};
ghost use Rattle.codegen_expression.specs.Contexts.{elements_of, globals_of};

use crate::alone::{emit_any, emit_head};
use crate::context::FunctionContext;
use crate::emitter::{Emitter, hold_test};
use crate::marks::Part;
use crate::single::emit_single;
use crate::turn::{come_round, emit_round};
use bytecode::Instr;
use codegen_flow::flow::{Flow, join, join_way, may_end};
use codegen_flow::select::{
    WayList, add_way, close, end_ways, from_ways, hold, hold_select, leave_select, set_table,
};
use codegen_flow::waits::{aim, fill};
use codegen_flow::way::{begin_other, end_other, end_test, has_other};
use codegen_header::comm::take_comm;
use codegen_header::layout::{enter, leave};
use codegen_header::range::{Ranged, declare_kept, emit_kept, emit_next, emit_unused, take_item};
use codegen_header::select::{push_clauses, select_table};
use codegen_header::test::push_test;
use std::alloc::AllocError;
use syntax::{
    ClauseNode, CommNode, ElseNode, ExpressionNode, ForHeader, IfNode, RangeTarget, SimpleNode,
    StatementNode,
};
use type_table::value_type::ValueType;

/// The statements of a block, in order. What can't be reached is left out.
#[cycle(statement)]
#[tactic(auto, using(crate::proofs::Listing::begins))]
pub(crate) fn emit_statements<'t, 'm, 'a>(
    context: &'t FunctionContext<'t, 'a>,
    emitter: &'m mut Emitter<'a>,
    body: &'a [StatementNode],
) -> Result<Flow, AllocError>
    ensures { IfOk result (λ flow. Emits (table_of context.now) emitter.old emitter.new (control flow) (of_function context.now made_all (site_of (table_of context.now) emitter.old) (body_of body.now))) }
{
    let mut flow = Flow::through(context.program.alloc);
    for statement in body {
        let one = emit_marked(context, emitter, statement)?;
        let goes_on = one.reaches_end;
        join(&mut flow, one)?;
        if !goes_on {
            return Ok(flow);
        }
    }
    Ok(flow)
}

/// A block.
#[cycle(statement)]
fn emit_block<'t, 'm, 'a>(
    context: &'t FunctionContext<'t, 'a>,
    emitter: &'m mut Emitter<'a>,
    body: &'a [StatementNode],
) -> Result<Flow, AllocError>
    ensures { IfOk result (λ flow. Emits (table_of context.now) emitter.old emitter.new (control flow) (ended (layout_of (table_of context.now) emitter.old.layout) (of_function context.now made_all (inside (site_of (table_of context.now) emitter.old)) (body_of body.now)))) }
{
    let mark = enter(&mut emitter.layout);
    let flow = emit_statements(context, emitter, body)?;
    leave(&mut emitter.layout, mark);
    Ok(flow)
}

/// The turns of a loop without a test.
#[cycle(statement)]
fn emit_endless<'t, 'm, 'a>(
    context: &'t FunctionContext<'t, 'a>,
    emitter: &'m mut Emitter<'a>,
    body: &'a [StatementNode],
    post: Option<&'a SimpleNode>,
) -> Result<Flow, AllocError>
    ensures { IfOk result (λ flow. Emits (table_of context.now) emitter.old emitter.new (control flow) (of_function context.now made_turns (site_of (table_of context.now) emitter.old) None (body_of body.now) (option_map (λ (s : _). simple_of s.now) post.entry))) }
{
    let head = emitter.next_place()?;
    let within = emit_block(context, emitter, body)?;
    let again = emitter.next_place()?;
    let turns = within.comes_round();
    emit_round(context, emitter, turns, head, post)?;
    let stop = emitter.next_place()?;
    fill(within.waits.as_slice(), stop, again, &mut emitter.code);
    Ok(Flow::after_loop(context.program.alloc, within.has_break))
}

/// The turns of a loop with a test.
#[cycle(statement)]
fn emit_tested<'t, 'm, 'c, 'a>(
    context: &'t FunctionContext<'t, 'a>,
    emitter: &'m mut Emitter<'a>,
    body: &'a [StatementNode],
    condition: &'c ExpressionNode,
    post: Option<&'a SimpleNode>,
) -> Result<Flow, AllocError>
    ensures { IfOk result (λ flow. Emits (table_of context.now) emitter.old emitter.new (control flow) (of_function context.now made_turns (site_of (table_of context.now) emitter.old) (Some (expression_of condition.now)) (body_of body.now) (option_map (λ (s : _). simple_of s.now) post.entry))) }
{
    let head = emitter.next_place()?;
    let layout = &emitter.layout;
    let code = &mut emitter.code;
    push_test(context.program, layout, condition, code)?;
    let test = hold_test(&mut emitter.code)?;
    let within = emit_block(context, emitter, body)?;
    let again = emitter.next_place()?;
    let turns = within.comes_round();
    emit_round(context, emitter, turns, head, post)?;
    let stop = emitter.next_place()?;
    aim(&mut emitter.code, test, Instr::Unless(stop));
    fill(within.waits.as_slice(), stop, again, &mut emitter.code);
    Ok(Flow::through(context.program.alloc))
}

/// The turns of a loop.
#[cycle(statement)]
fn emit_turns<'t, 'm, 'c, 'a>(
    context: &'t FunctionContext<'t, 'a>,
    emitter: &'m mut Emitter<'a>,
    body: &'a [StatementNode],
    condition: Option<&'c ExpressionNode>,
    post: Option<&'a SimpleNode>,
) -> Result<Flow, AllocError>
    ensures { IfOk result (λ flow. Emits (table_of context.now) emitter.old emitter.new (control flow) (of_function context.now made_turns (site_of (table_of context.now) emitter.old) (option_map (λ (e : _). expression_of e.now) condition.entry) (body_of body.now) (option_map (λ (s : _). simple_of s.now) post.entry))) }
{
    match condition {
        Some(condition) => emit_tested(context, emitter, body, condition, post),
        None => emit_endless(context, emitter, body, post),
    }
}

/// A loop with clauses.
#[cycle(statement)]
fn emit_clauses<'t, 'm, 'c, 'a>(
    context: &'t FunctionContext<'t, 'a>,
    emitter: &'m mut Emitter<'a>,
    body: &'a [StatementNode],
    first: Option<&'a SimpleNode>,
    condition: Option<&'c ExpressionNode>,
    post: Option<&'a SimpleNode>,
) -> Result<Flow, AllocError>
    ensures { IfOk result (λ flow. Emits (table_of context.now) emitter.old emitter.new (control flow) (of_function context.now made (site_of (table_of context.now) emitter.old) (For (ForClauses (option_map (λ (s : _). simple_of s.now) first.entry) (option_map (λ (e : _). expression_of e.now) condition.entry) (option_map (λ (s : _). simple_of s.now) post.entry)) (body_of body.now)))) }
{
    let mark = enter(&mut emitter.layout);
    emit_any(context, emitter, first)?;
    let flow = emit_turns(context, emitter, body, condition, post)?;
    leave(&mut emitter.layout, mark);
    Ok(flow)
}

/// A loop with the clauses of a header.
#[cycle(statement)]
fn emit_header_clauses<'t, 'm, 'a>(
    context: &'t FunctionContext<'t, 'a>,
    emitter: &'m mut Emitter<'a>,
    body: &'a [StatementNode],
    first: &'a Option<SimpleNode>,
    condition: &'a Option<ExpressionNode>,
    post: &'a Option<SimpleNode>,
) -> Result<Flow, AllocError>
    ensures { IfOk result (λ flow. Emits (table_of context.now) emitter.old emitter.new (control flow) (of_function context.now made (site_of (table_of context.now) emitter.old) (For (ForClauses (option_map simple_of first.now) (option_map expression_of condition.now) (option_map simple_of post.now)) (body_of body.now)))) }
{
    emit_clauses(
        context,
        emitter,
        body,
        first.as_ref(),
        condition.as_ref(),
        post.as_ref(),
    )
}

/// A loop.
#[cycle(statement)]
#[tactic(auto, using(crate::proofs::Looping::emits_turns))]
fn emit_loop<'t, 'm, 'a>(
    context: &'t FunctionContext<'t, 'a>,
    emitter: &'m mut Emitter<'a>,
    header: &'a ForHeader,
    body: &'a [StatementNode],
) -> Result<Flow, AllocError>
    ensures { IfOk result (λ flow. Emits (table_of context.now) emitter.old emitter.new (control flow) (of_function context.now made (site_of (table_of context.now) emitter.old) (For (for_head_of header.now) (body_of body.now)))) }
{
    match header {
        ForHeader::Forever => emit_turns(context, emitter, body, None, None),
        ForHeader::While(condition) => emit_turns(context, emitter, body, Some(condition), None),
        ForHeader::Clauses(first, condition, post) => {
            emit_header_clauses(context, emitter, body, first, condition, post)
        }
        ForHeader::Range(target, channel) => emit_range(context, emitter, body, target, channel),
    }
}

/// What follows `else`.
#[cycle(statement)]
#[tactic(auto, using(crate::proofs::Emitting::emits_nothing))]
fn emit_other<'t, 'm, 'a>(
    context: &'t FunctionContext<'t, 'a>,
    emitter: &'m mut Emitter<'a>,
    otherwise: &'a ElseNode,
) -> Result<Flow, AllocError>
    ensures { IfOk result (λ flow. Emits (table_of context.now) emitter.old emitter.new (control flow) (of_function context.now made_other (site_of (table_of context.now) emitter.old) (otherwise_of otherwise.now))) }
{
    match otherwise {
        ElseNode::Nothing => Ok(Flow::through(context.program.alloc)),
        ElseNode::Block(body) => {
            let body = body.as_slice();
            emit_block(context, emitter, body)
        }
        ElseNode::If(branch) => emit_branch(context, emitter, branch),
    }
}

/// What follows `else`, with its marks.
#[cycle(statement)]
#[tactic(auto, using(crate::proofs::Emitting::emits_marked))]
fn emit_marked_other<'t, 'm, 'a>(
    context: &'t FunctionContext<'t, 'a>,
    emitter: &'m mut Emitter<'a>,
    otherwise: &'a ElseNode,
) -> Result<Flow, AllocError>
    ensures { IfOk result (λ flow. Emits (table_of context.now) emitter.old emitter.new (control flow) (of_function context.now made_other (site_of (table_of context.now) emitter.old) (otherwise_of otherwise.now))) }
{
    emitter.marks.begin(Part::Else, emitter.code.len())?;
    let flow = emit_other(context, emitter, otherwise)?;
    emitter.marks.end(emitter.code.len())?;
    Ok(flow)
}

/// A condition with two ways.
#[cycle(statement)]
fn emit_two_ways<'t, 'm, 'a>(
    context: &'t FunctionContext<'t, 'a>,
    emitter: &'m mut Emitter<'a>,
    branch: &'a IfNode,
) -> Result<Flow, AllocError>
    ensures { IfOk result (λ flow. Emits (table_of context.now) emitter.old emitter.new (control flow) (of_function context.now made_two_ways (site_of (table_of context.now) emitter.old) (expression_of branch.now.condition) (body_of branch.now.body.items) (otherwise_of branch.now.otherwise))) }
{
    let layout = &emitter.layout;
    let condition = &branch.condition;
    let code = &mut emitter.code;
    push_test(context.program, layout, condition, code)?;
    let test = hold_test(&mut emitter.code)?;
    let body = branch.body.as_slice();
    let mut flow = emit_block(context, emitter, body)?;
    let leads = flow.reaches_end;
    let over = begin_other(test, leads, &mut emitter.code)?;
    let otherwise = &branch.otherwise;
    let other = emit_marked_other(context, emitter, otherwise)?;
    end_other(over, leads, &mut emitter.code)?;
    join_way(&mut flow, other)?;
    Ok(flow)
}

/// A condition with one way.
#[cycle(statement)]
fn emit_one_way<'t, 'm, 'a>(
    context: &'t FunctionContext<'t, 'a>,
    emitter: &'m mut Emitter<'a>,
    branch: &'a IfNode,
) -> Result<Flow, AllocError>
    ensures { IfOk result (λ flow. Emits (table_of context.now) emitter.old emitter.new (control flow) (of_function context.now made_one_way (site_of (table_of context.now) emitter.old) (expression_of branch.now.condition) (body_of branch.now.body.items))) }
{
    let layout = &emitter.layout;
    let condition = &branch.condition;
    let code = &mut emitter.code;
    push_test(context.program, layout, condition, code)?;
    let test = hold_test(&mut emitter.code)?;
    let body = branch.body.as_slice();
    let mut flow = emit_block(context, emitter, body)?;
    end_test(test, &mut emitter.code)?;
    may_end(&mut flow);
    Ok(flow)
}

/// A condition, and what is done if it is true and if it is false.
#[cycle(statement)]
#[tactic(auto, using(crate::proofs::Branching::with_other, crate::proofs::Branching::without_other))]
fn emit_ways<'t, 'm, 'a>(
    context: &'t FunctionContext<'t, 'a>,
    emitter: &'m mut Emitter<'a>,
    branch: &'a IfNode,
) -> Result<Flow, AllocError>
    ensures { IfOk result (λ flow. Emits (table_of context.now) emitter.old emitter.new (control flow) (of_function context.now made_condition (site_of (table_of context.now) emitter.old) (expression_of branch.now.condition) (body_of branch.now.body.items) (otherwise_of branch.now.otherwise))) }
{
    if has_other(&branch.otherwise) {
        emit_two_ways(context, emitter, branch)
    } else {
        emit_one_way(context, emitter, branch)
    }
}

/// An `if`.
#[cycle(statement)]
fn emit_branch<'t, 'm, 'a>(
    context: &'t FunctionContext<'t, 'a>,
    emitter: &'m mut Emitter<'a>,
    branch: &'a IfNode,
) -> Result<Flow, AllocError>
    ensures { IfOk result (λ flow. Emits (table_of context.now) emitter.old emitter.new (control flow) (of_function context.now made_branch (site_of (table_of context.now) emitter.old) (branch_of branch.now))) }
{
    let mark = enter(&mut emitter.layout);
    emit_head(context, emitter, &branch.header)?;
    let flow = emit_ways(context, emitter, branch)?;
    leave(&mut emitter.layout, mark);
    Ok(flow)
}

/// Emits what is done with an item of a range: it goes to its target, and the body is done.
#[cycle(statement)]
fn emit_item<'t, 'm, 'a>(
    context: &'t FunctionContext<'t, 'a>,
    emitter: &'m mut Emitter<'a>,
    body: &'a [StatementNode],
    kind: ValueType<'a>,
    target: &'a RangeTarget,
) -> Result<Flow, AllocError>
    ensures { IfOk result (λ flow. Emits (table_of context.now) emitter.old emitter.new (control flow) (of_function context.now made_item (site_of (table_of context.now) emitter.old) (kind_of (types_of (table_of context.now)) kind.entry) (target_of target.now) (body_of body.now))) }
{
    let mark = enter(&mut emitter.layout);
    let layout = &mut emitter.layout;
    let code = &mut emitter.code;
    take_item(context.program, layout, kind, target, code)?;
    let flow = emit_block(context, emitter, body)?;
    leave(&mut emitter.layout, mark);
    Ok(flow)
}

/// The items of a range, one after the other.
#[cycle(statement)]
fn emit_items<'t, 'm, 'a>(
    context: &'t FunctionContext<'t, 'a>,
    emitter: &'m mut Emitter<'a>,
    body: &'a [StatementNode],
    ranged: Ranged<'a>,
    target: &'a RangeTarget,
) -> Result<Flow, AllocError>
    ensures { IfOk result (λ flow. (around : OneLayout) (channel : Expression) → ranged.entry.place ≡ around.scope.words → of_program context.now carried around.scope channel ≡ kind_of (types_of (table_of context.now)) ranged.entry.item → Emits (table_of context.now) emitter.old emitter.new (control flow) (of_function context.now made_items around channel (site_of (table_of context.now) emitter.old) (target_of target.now) (body_of body.now))) }
{
    let head = emitter.next_place()?;
    emit_next(context.program, ranged, &mut emitter.code)?;
    let test = hold_test(&mut emitter.code)?;
    let kind = ranged.item;
    let within = emit_item(context, emitter, body, kind, target)?;
    let again = emitter.next_place()?;
    come_round(within.comes_round(), head, &mut emitter.code)?;
    let exit = emitter.next_place()?;
    emit_unused(context.program, kind, &mut emitter.code)?;
    let stop = emitter.next_place()?;
    aim(&mut emitter.code, test, Instr::Unless(exit));
    fill(within.waits.as_slice(), stop, again, &mut emitter.code);
    Ok(Flow::through(context.program.alloc))
}

/// A loop over what is received from a channel.
#[cycle(statement)]
fn emit_range<'t, 'm, 'a>(
    context: &'t FunctionContext<'t, 'a>,
    emitter: &'m mut Emitter<'a>,
    body: &'a [StatementNode],
    target: &'a RangeTarget,
    channel: &'a ExpressionNode,
) -> Result<Flow, AllocError>
    ensures { IfOk result (λ flow. Emits (table_of context.now) emitter.old emitter.new (control flow) (of_function context.now made (site_of (table_of context.now) emitter.old) (For (Range (target_of target.now) (expression_of channel.now)) (body_of body.now)))) }
{
    let layout = &emitter.layout;
    let ranged = emit_kept(context.program, layout, channel, &mut emitter.code)?;
    let mark = enter(&mut emitter.layout);
    let layout = &mut emitter.layout;
    declare_kept(context.program, context.blank, layout, ranged.channel)?;
    let flow = emit_items(context, emitter, body, ranged, target)?;
    leave(&mut emitter.layout, mark);
    Ok(flow)
}

/// Emits a way of a select, which is a block: first what was received is stored or dropped.
#[cycle(statement)]
fn emit_way<'t, 'm, 'a>(
    context: &'t FunctionContext<'t, 'a>,
    emitter: &'m mut Emitter<'a>,
    body: &'a [StatementNode],
    comm: &'a CommNode,
) -> Result<Flow, AllocError>
    ensures { IfOk result (λ flow. Emits (table_of context.now) emitter.old emitter.new (control flow) (of_function context.now made_way (site_of (table_of context.now) emitter.old) (comm_of comm.now) (body_of body.now))) }
{
    let mark = enter(&mut emitter.layout);
    let layout = &mut emitter.layout;
    let code = &mut emitter.code;
    take_comm(context.program, layout, comm, code)?;
    let flow = emit_statements(context, emitter, body)?;
    leave(&mut emitter.layout, mark);
    Ok(flow)
}

/// A way of a select, with its marks.
#[cycle(statement)]
#[tactic(auto, using(crate::proofs::Emitting::emits_marked))]
fn emit_marked_way<'t, 'm, 'a>(
    context: &'t FunctionContext<'t, 'a>,
    emitter: &'m mut Emitter<'a>,
    body: &'a [StatementNode],
    comm: &'a CommNode,
) -> Result<Flow, AllocError>
    ensures { IfOk result (λ flow. Emits (table_of context.now) emitter.old emitter.new (control flow) (of_function context.now made_way (site_of (table_of context.now) emitter.old) (comm_of comm.now) (body_of body.now))) }
{
    emitter.marks.begin(Part::Clause, emitter.code.len())?;
    let flow = emit_way(context, emitter, body, comm)?;
    emitter.marks.end(emitter.code.len())?;
    Ok(flow)
}

/// The way of a clause, after those of the clauses before it; a default's comes last.
#[cycle(statement)]
fn emit_clause<'t, 'm, 'w, 'a>(
    context: &'t FunctionContext<'t, 'a>,
    emitter: &'m mut Emitter<'a>,
    clause: &'a ClauseNode,
    list: &'w mut WayList,
) -> Result<(), AllocError>
    ensures { OnOk result ((whole left all : Clauses) (first : OneEmitter) → Reaches (globals_of context.now.program.now) (elements_of context.now.program.now) (result_of context.now) (table_of context.now) whole first emitter.old list.old (Clause (clause_of clause.now).comm (clause_of clause.now).body left) all → Reaches (globals_of context.now.program.now) (elements_of context.now.program.now) (result_of context.now) (table_of context.now) whole first emitter.new list.new left all) }
{
    let Some(comm) = &clause.comm else {
        return Ok(());
    };
    let place = emitter.next_place()?;
    let body = clause.body.as_slice();
    let flow = emit_marked_way(context, emitter, body, comm)?;
    let held = hold(flow.reaches_end, &mut emitter.code)?;
    add_way(list, place, held, flow)?;
    Ok(())
}

/// The ways of all clauses but a default, in order.
#[cycle(statement)]
fn emit_each_way<'t, 'm, 'a>(
    context: &'t FunctionContext<'t, 'a>,
    emitter: &'m mut Emitter<'a>,
    all: &'a [ClauseNode],
) -> Result<WayList, AllocError>
    ensures { IfOk result (λ list. (whole : Clauses) → Reaches (globals_of context.now.program.now) (elements_of context.now.program.now) (result_of context.now) (table_of context.now) whole emitter.old emitter.new list NoClause (clauses (map clause_of all.now))) }
{
    let mut list = WayList::new(context.program.alloc);
    for clause in all {
        let ways = &mut list;
        emit_clause(context, emitter, clause, ways)?;
    }
    Ok(list)
}

/// The default's way, if there is a default.
#[cycle(statement)]
fn emit_default<'t, 'm, 'a>(
    context: &'t FunctionContext<'t, 'a>,
    emitter: &'m mut Emitter<'a>,
    all: &'a [ClauseNode],
) -> Result<Option<Flow>, AllocError>
    ensures { IfOk result (λ flow. (noted : List ℕ) → Ways (table_of context.now) emitter.old emitter.new.code.items emitter.new noted (default_start noted emitter.old (option_map control flow)) (option_map control flow) (of_function context.now made_default (site_of (table_of context.now) emitter.old) (clauses (map clause_of all.now)))) }
{
    for clause in all {
        if clause.comm.is_none() {
            let body = clause.body.as_slice();
            let flow = emit_block(context, emitter, body)?;
            return Ok(Some(flow));
        }
    }
    Ok(None)
}

/// All ways of a select, a default's last.
#[cycle(statement)]
fn emit_all_ways<'t, 'm, 'a>(
    context: &'t FunctionContext<'t, 'a>,
    emitter: &'m mut Emitter<'a>,
    all: &'a [ClauseNode],
) -> Result<WayList, AllocError>
    ensures { IfOk result (λ list. Ways (table_of context.now) emitter.old emitter.new.code.items emitter.new [] list.places.items (option_map control list.flow) (of_function context.now ways_left (clauses (map clause_of all.now)) (site_of (table_of context.now) emitter.old) (clauses (map clause_of all.now)))) }
{
    let mut list = emit_each_way(context, emitter, all)?;
    let place = emitter.next_place()?;
    let default = emit_default(context, emitter, all)?;
    let there = default.is_some();
    close(list.held.as_slice(), there, &mut emitter.code)?;
    end_ways(&mut list, place, default)?;
    Ok(list)
}

/// A select.
#[cycle(statement)]
fn emit_select<'t, 'm, 'a>(
    context: &'t FunctionContext<'t, 'a>,
    emitter: &'m mut Emitter<'a>,
    all: &'a [ClauseNode],
) -> Result<Flow, AllocError>
    ensures { IfOk result (λ flow. Emits (table_of context.now) emitter.old emitter.new (control flow) (of_function context.now made (site_of (table_of context.now) emitter.old) (Select (clauses (map clause_of all.now))))) }
{
    let layout = &emitter.layout;
    push_clauses(context.program, layout, all, &mut emitter.code)?;
    let at = emitter.selects.len();
    hold_select(
        context.program.alloc,
        at,
        &mut emitter.code,
        &mut emitter.selects,
    )?;
    let list = emit_all_ways(context, emitter, all)?;
    let places = list.places.as_slice();
    let made = select_table(context.program, &emitter.layout, all, places)?;
    let ways = from_ways(context.program.alloc, list.flow);
    let flow = leave_select(context.program.alloc, &ways, &mut emitter.code)?;
    set_table(&mut emitter.selects, at, made);
    Ok(flow)
}

/// A statement.
#[cycle(statement)]
fn emit_statement<'t, 'm, 'a>(
    context: &'t FunctionContext<'t, 'a>,
    emitter: &'m mut Emitter<'a>,
    statement: &'a StatementNode,
) -> Result<Flow, AllocError>
    ensures { IfOk result (λ flow. Emits (table_of context.now) emitter.old emitter.new (control flow) (of_function context.now made (site_of (table_of context.now) emitter.old) (statement_of statement.now))) }
{
    match statement {
        StatementNode::Block(body) => {
            let body = body.as_slice();
            emit_block(context, emitter, body)
        }
        StatementNode::If(branch) => emit_branch(context, emitter, branch),
        StatementNode::For(header, body) => emit_loop(context, emitter, header, body.as_slice()),
        StatementNode::Select(all) => {
            let all = all.as_slice();
            emit_select(context, emitter, all)
        }
        _ => emit_single(context, emitter, statement),
    }
}

/// A statement of a block, with its marks.
#[cycle(statement)]
#[tactic(auto, using(crate::proofs::Emitting::emits_marked))]
fn emit_marked<'t, 'm, 'a>(
    context: &'t FunctionContext<'t, 'a>,
    emitter: &'m mut Emitter<'a>,
    statement: &'a StatementNode,
) -> Result<Flow, AllocError>
    ensures { IfOk result (λ flow. Emits (table_of context.now) emitter.old emitter.new (control flow) (of_function context.now made (site_of (table_of context.now) emitter.old) (statement_of statement.now))) }
{
    emitter.marks.begin(Part::Statement, emitter.code.len())?;
    let flow = emit_statement(context, emitter, statement)?;
    emitter.marks.end(emitter.code.len())?;
    Ok(flow)
}
