//! What the clauses of a select do with what was received ("Select statements" of the Go specification).

ghost use Rattle.std.specs.Prelude.{◌≡◌, ◌++◌, ◌∷◌, [], IfOk, OnOk, map, option_map};
ghost use Rattle.syntax.specs.Tree.{CommAssign, CommDefine, CommReceive};
ghost use Rattle.syntax.specs.View.{comm_of, expression_of, name_of, place_of};
ghost use Rattle.type_table.specs.Types.{BoolType};
ghost use Rattle.type_table.specs.Scopes.{Yield};
ghost use Rattle.type_table.specs.Views.{kind_of};
ghost use Rattle.type_table.specs.Visible.{Keeps};
ghost use Rattle.codegen_base.specs.Generated.{after_comm, comm_plan, one_or_two, unless_two};
ghost use Rattle.codegen_base.specs.Layouts.{declaring_all};
ghost use Rattle.codegen_base.specs.Statements.{assigns, name_spots, place_spots};
ghost use Rattle.plan.specs.Plan.{Skip};
ghost use Rattle.codegen_simple.specs.Spots.{spot_in};
ghost use Rattle.codegen_simple.specs.Layouts.{layout_in};
ghost use Rattle.codegen_simple.specs.Simples.{Appends};
ghost use Rattle.codegen_expression.specs.Contexts.{elements_of, globals_of, scope_in, types_in};
ghost use Rattle.codegen_header.specs.Received.{unwanted};

use crate::carried::carried;
use bytecode::Instr;
use codegen_expression::context::Context;
use codegen_expression::operand::{put, words_of};
use codegen_simple::assignment::assign;
use codegen_simple::define::name_spot;
use codegen_simple::layout::{Layout, declare_new};
use codegen_simple::place::place_spot;
use codegen_simple::spot::Spot;
use std::alloc::AllocError;
use syntax::{CommNode, ExpressionNode, Name, PlaceNode};
use type_table::value_type::ValueType;

/// Declares a name for an item of this type, if it is new, and one for whether the item was sent, and returns their spots.
fn define_received<'a>(
    context: &Context<'_, 'a>,
    layout: &mut Layout<'a>,
    kind: ValueType<'a>,
    item: &'a Name,
    sent: &'a Option<Name>,
) -> Result<Vec<Spot>, AllocError>
    ensures spots { IfOk result (λ spots. (yields : Yield) → map spot_in spots.items ≡ name_spots (globals_of context.now) (elements_of context.now) (layout_in context.now layout.old) (one_or_two (globals_of context.now) (elements_of context.now) yields (name_of item.now) (option_map name_of sent.now)) (kind_of (types_in context.now) kind.entry ∷ (BoolType ∷ []))) }
    ensures after { (yields : Yield) → OnOk result (layout_in context.now layout.new ≡ declaring_all (globals_of context.now) (elements_of context.now) (one_or_two (globals_of context.now) (elements_of context.now) yields (name_of item.now) (option_map name_of sent.now)) (kind_of (types_in context.now) kind.entry ∷ (BoolType ∷ [])) (layout_in context.now layout.old)) }
    ensures kept { OnOk result (Keeps layout.old.visible layout.new.visible) }
{
    let mut spots = Vec::new(context.alloc);
    spots.push(name_spot(context, layout, item, kind)?)?;
    declare_new(context, layout, kind, item)?;
    let Some(sent) = sent else {
        return Ok(spots);
    };
    spots.push(name_spot(context, layout, sent, ValueType::Bool)?)?;
    declare_new(context, layout, ValueType::Bool, sent)?;
    Ok(spots)
}

/// Drops whether an item was sent, unless it is wanted.
fn drop_sent(wanted: bool, code: &mut Vec<Instr>) -> Result<(), AllocError>
    ensures { OnOk result (code.new.items ≡ code.old.items ++ unwanted wanted) }
{
    if !wanted {
        code.push(Instr::Discard(1))?;
    }
    Ok(())
}

/// Stores what was received in names, which are declared if they are new.
fn emit_define<'a>(
    context: &Context<'_, 'a>,
    layout: &mut Layout<'a>,
    channel: &'a ExpressionNode,
    item: &'a Name,
    sent: &'a Option<Name>,
    code: &mut Vec<Instr>,
) -> Result<(), AllocError>
    ensures emitted { (yields : Yield) → OnOk result (Appends code.old.items code.new.items (comm_plan (globals_of context.now) (elements_of context.now) yields (layout_in context.now layout.old) (CommDefine (name_of item.now) (option_map name_of sent.now) (expression_of channel.now)))) }
    ensures after { (yields : Yield) → OnOk result (layout_in context.now layout.new ≡ after_comm (globals_of context.now) (elements_of context.now) yields (CommDefine (name_of item.now) (option_map name_of sent.now) (expression_of channel.now)) (layout_in context.now layout.old)) }
    ensures kept { OnOk result (Keeps layout.old.visible layout.new.visible) }
{
    let kind = carried(context.table, &layout.visible, channel);
    drop_sent(sent.is_some(), code)?;
    let spots = define_received(context, layout, kind, item, sent)?;
    assign(context.alloc, spots.as_slice(), code)
}

/// The spots of an item of this type, and of whether it was sent.
fn received_spots<'a>(
    context: &Context<'_, 'a>,
    layout: &Layout<'a>,
    kind: ValueType<'a>,
    item: &PlaceNode,
    sent: &Option<PlaceNode>,
) -> Result<Vec<Spot>, AllocError>
    ensures { IfOk result (λ spots. (yields : Yield) → map spot_in spots.items ≡ place_spots (globals_of context.now) (elements_of context.now) (scope_in context.now layout.now.visible) (one_or_two (globals_of context.now) (elements_of context.now) yields (place_of item.now) (option_map place_of sent.now)) (kind_of (types_in context.now) kind.entry ∷ (BoolType ∷ []))) }
{
    let visible = &layout.visible;
    let mut spots = Vec::new(context.alloc);
    spots.push(place_spot(context, visible, item, kind)?)?;
    let Some(sent) = sent else {
        return Ok(spots);
    };
    spots.push(place_spot(context, visible, sent, ValueType::Bool)?)?;
    Ok(spots)
}

/// Stores what was received in lvalues.
fn emit_assign<'a>(
    context: &Context<'_, 'a>,
    layout: &Layout<'a>,
    channel: &'a ExpressionNode,
    item: &PlaceNode,
    sent: &Option<PlaceNode>,
    code: &mut Vec<Instr>,
) -> Result<(), AllocError>
    ensures { (yields : Yield) → OnOk result (Appends code.old.items code.new.items (comm_plan (globals_of context.now) (elements_of context.now) yields (layout_in context.now layout.now) (CommAssign (place_of item.now) (option_map place_of sent.now) (expression_of channel.now)))) }
{
    let kind = carried(context.table, &layout.visible, channel);
    drop_sent(sent.is_some(), code)?;
    let spots = received_spots(context, layout, kind, item, sent)?;
    assign(context.alloc, spots.as_slice(), code)
}

/// Drops what was received.
fn emit_dropped<'a>(
    context: &Context<'_, 'a>,
    layout: &Layout<'a>,
    channel: &'a ExpressionNode,
    code: &mut Vec<Instr>,
) -> Result<(), AllocError>
    ensures { (yields : Yield) → OnOk result (Appends code.old.items code.new.items (comm_plan (globals_of context.now) (elements_of context.now) yields (layout_in context.now layout.now) (CommReceive (expression_of channel.now)))) }
{
    let kind = carried(context.table, &layout.visible, channel);
    let Some(count) = words_of(context, kind).checked_add(1) else {
        return Err(AllocError);
    };
    put(code, Instr::Discard(count))
}

/// Stores what was received as the clause says; declares names for it.
///
/// Errors: out of memory.
pub fn take_comm<'a>(
    context: &Context<'_, 'a>,
    layout: &mut Layout<'a>,
    comm: &'a CommNode,
    code: &mut Vec<Instr>,
) -> Result<(), AllocError>
    ensures emitted { (yields : Yield) → OnOk result (Appends code.old.items code.new.items (comm_plan (globals_of context.now) (elements_of context.now) yields (layout_in context.now layout.old) (comm_of comm.now))) }
    ensures after { (yields : Yield) → OnOk result (layout_in context.now layout.new ≡ after_comm (globals_of context.now) (elements_of context.now) yields (comm_of comm.now) (layout_in context.now layout.old)) }
    ensures kept { OnOk result (Keeps layout.old.visible layout.new.visible) }
{
    match comm {
        CommNode::Send(_, _) => Ok(()),
        CommNode::Receive(channel) => emit_dropped(context, layout, channel, code),
        CommNode::Define(item, sent, channel) => {
            emit_define(context, layout, channel, item, sent, code)
        }
        CommNode::Assign(item, sent, channel) => {
            emit_assign(context, layout, channel, item, sent, code)
        }
    }
}
