//! Selects ("Select statements" of the Go specification).

ghost use Rattle.std.specs.Prelude.{◌≡◌, ◌∷◌, [], IfOk, OnOk, map};
ghost use Rattle.syntax.specs.View.{clause_of, clauses, comm_of};
ghost use Rattle.type_table.specs.Scopes.{Yield};
ghost use Rattle.codegen_base.specs.Generated.{default_at, default_places, pushes_clauses, pushes_comm, select_table, table_clause, table_clauses};
ghost use Rattle.codegen_expression.specs.Emission.{Puts};
ghost use Rattle.codegen_simple.specs.Layouts.{layout_in};
ghost use Rattle.codegen_expression.specs.Contexts.{elements_of, globals_of};

use crate::carried::carried;
use bytecode::{Clause, Instr, SelectTable};
use codegen_expression::channel::push_channel;
use codegen_expression::context::Context;
use codegen_expression::emission::push;
use codegen_expression::shape::shape_of;
use codegen_expression::value::push_own;
use codegen_simple::layout::Layout;
use std::alloc::AllocError;
use syntax::{ClauseNode, CommNode};

/// Pushes the channel of a clause, and what is sent on it.
fn push_comm<'k>(
    context: &Context<'_, 'k>,
    layout: &Layout<'k>,
    comm: &'k CommNode,
    code: &mut Vec<Instr>,
) -> Result<(), AllocError>
    ensures { (yields : Yield) → OnOk result (Puts code.old.items code.new.items (pushes_comm (globals_of context.now) (elements_of context.now) yields (layout_in context.now layout.now) (comm_of comm.now))) }
{
    let visible = &layout.visible;
    match comm {
        CommNode::Send(channel, value) => {
            let kind = push_channel(context, visible, channel, code)?;
            push(context, visible, kind, value, code)?;
        }
        CommNode::Receive(channel)
        | CommNode::Define(_, _, channel)
        | CommNode::Assign(_, _, channel) => {
            push_own(context, visible, channel, code)?;
        }
    }
    Ok(())
}

/// Like `push_comm`, for a clause; a default pushes nothing.
fn push_clause<'k>(
    context: &Context<'_, 'k>,
    layout: &Layout<'k>,
    clause: &'k ClauseNode,
    code: &mut Vec<Instr>,
) -> Result<(), AllocError>
    ensures { (yields : Yield) → OnOk result (Puts code.old.items code.new.items (pushes_clauses (globals_of context.now) (elements_of context.now) yields (layout_in context.now layout.now) (clauses (clause_of clause.now ∷ [])))) }
{
    if let Some(comm) = &clause.comm {
        push_comm(context, layout, comm, code)?;
    }
    Ok(())
}

/// Pushes the channels of all clauses, and what is sent on them, in order.
///
/// Errors: out of memory.
pub fn push_clauses<'t, 'y, 'm, 'a>(
    context: &'t Context<'t, 'a>,
    layout: &'y Layout<'a>,
    all: &'a [ClauseNode],
    code: &'m mut Vec<Instr>,
) -> Result<(), AllocError>
    ensures { (yields : Yield) → OnOk result (Puts code.old.items code.new.items (pushes_clauses (globals_of context.now) (elements_of context.now) yields (layout_in context.now layout.now) (clauses (map clause_of all.now)))) }
{
    let Some((clause, all)) = all.split_first() else {
        return Ok(());
    };
    push_clause(context, layout, clause, code)?;
    push_clauses(context, layout, all, code)
}

/// The entry of a clause whose way begins at pc `to`.
fn table_clause<'k>(
    context: &Context<'_, 'k>,
    layout: &Layout<'k>,
    comm: &'k CommNode,
    to: u32,
) -> Clause
    ensures { (yields : Yield) → result ≡ table_clause (globals_of context.now) (elements_of context.now) yields (layout_in context.now layout.now) (comm_of comm.now) to }
{
    let visible = &layout.visible;
    match comm {
        CommNode::Send(channel, _) => {
            let shape = shape_of(context, carried(context.table, visible, channel));
            Clause::Send(shape, to)
        }
        CommNode::Receive(channel)
        | CommNode::Define(_, _, channel)
        | CommNode::Assign(_, _, channel) => {
            let shape = shape_of(context, carried(context.table, visible, channel));
            Clause::Receive(shape, to)
        }
    }
}

/// The entries of clauses whose ways begin at the pcs `places`.
fn table_clauses<'t, 'y, 'p, 'a>(
    context: &'t Context<'t, 'a>,
    layout: &'y Layout<'a>,
    all: &'a [ClauseNode],
    places: &'p [u32],
) -> Result<Vec<Clause>, AllocError>
    ensures { IfOk result (λ made. (yields : Yield) → made.items ≡ table_clauses (globals_of context.now) (elements_of context.now) yields (layout_in context.now layout.now) (clauses (map clause_of all.now)) places.now) }
{
    let Some((clause, all)) = all.split_first() else {
        return Ok(Vec::new(context.alloc));
    };
    let Some(comm) = &clause.comm else {
        let others = table_clauses(context, layout, all, places)?;
        return Ok(others);
    };
    let Some((to, places)) = places.split_first() else {
        return Ok(Vec::new(context.alloc));
    };
    let first = table_clause(context, layout, comm, *to);
    let mut made = table_clauses(context, layout, all, places)?;
    made.insert(0, first)?;
    Ok(made)
}

/// The pc at which the default of a select begins, if it has one.
fn default_place<'p>(all: &'p [ClauseNode], places: &'p [u32]) -> Option<u32>
    ensures { (globals : _) (elements : _) (yields : Yield) → result ≡ default_at (default_places globals elements yields (clauses (map clause_of all.now)) places.now) }
{
    let Some((clause, all)) = all.split_first() else {
        return places.first().copied();
    };
    match &clause.comm {
        None => default_place(all, places),
        Some(_) => match places.split_first() {
            Some((_, places)) => default_place(all, places),
            None => None,
        },
    }
}

/// The table of a select whose ways begin at the pcs `places`, that of the default last.
///
/// Errors: out of memory.
pub fn select_table<'a>(
    context: &Context<'_, 'a>,
    layout: &Layout<'a>,
    all: &'a [ClauseNode],
    places: &[u32],
) -> Result<SelectTable, AllocError>
    ensures { IfOk result (λ made. (yields : Yield) → made ≡ select_table (globals_of context.now) (elements_of context.now) yields (layout_in context.now layout.now) (clauses (map clause_of all.now)) places.now) }
{
    let made = table_clauses(context, layout, all, places)?;
    Ok(SelectTable::new(made, default_place(all, places)))
}
