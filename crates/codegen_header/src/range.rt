//! Loops over what is received from a channel ("For statements with range clause" of the Go specification).

ghost use Rattle.std.specs.Prelude.{◌≡◌, IfOk, List, OnOk};
ghost use Rattle.bytecode.specs.declared.instr.Instr.TheVariants as instrs;
ghost use Rattle.syntax.specs.Tree.{AssignTarget, DefineTarget, Expression};
ghost use Rattle.syntax.specs.View.{expression_of, name_of, place_of, target_of};
ghost use Rattle.type_table.specs.Scopes.{Scope, Yield};
ghost use Rattle.type_table.specs.Views.{kind_of};
ghost use Rattle.type_table.specs.Visible.{Keeps};
ghost use Rattle.meaning.specs.Variables.{blank};
ghost use Rattle.codegen_base.specs.Generated.{keeps, receives, takes};
ghost use Rattle.codegen_base.specs.Layouts.{Layout as OneLayout, following_target, carried, declaring, declaring_new, type_of};
ghost use Rattle.codegen_base.specs.Pushes.{drops};
ghost use Rattle.codegen_base.specs.Statements.{stores, width};
ghost use Rattle.plan.specs.Plan.{Do, Skip};
ghost use Rattle.codegen_simple.specs.Spots.{spot_in};
ghost use Rattle.codegen_simple.specs.Layouts.{layout_in};
ghost use Rattle.codegen_simple.specs.Simples.{Appends};
ghost use Rattle.codegen_expression.specs.Contexts.{elements_of, globals_of, scope_in, types_in};

use crate::blank::Blank;
use crate::carried::carried;
use bytecode::Instr;
use codegen_expression::context::Context;
use codegen_expression::operand::{number, put, words_of};
use codegen_expression::shape::shape_of;
use codegen_expression::value::push_own;
use codegen_simple::define::name_spot;
use codegen_simple::layout::{Layout, declare, declare_new};
use codegen_simple::place::place_spot;
use codegen_simple::spot::{Spot, drop_words, store};
use std::alloc::AllocError;
use syntax::{ExpressionNode, Name, PlaceNode, RangeTarget};
use type_table::value_type::ValueType;

/// What a range receives from: the type of its channel, the type of the items, and the local in which the channel is kept.
#[derive(Clone, Copy)]
pub struct Ranged<'a> {
    pub channel: ValueType<'a>,
    pub item: ValueType<'a>,
    pub place: u32,
}

/// A channel goes to the next local.
///
/// Errors: out of memory.
#[tactic(auto, using(crate::proofs::Ranging::appends_keeps))]
pub fn emit_kept<'a>(
    context: &Context<'_, 'a>,
    layout: &Layout<'a>,
    channel: &'a ExpressionNode,
    code: &mut Vec<Instr>,
) -> Result<Ranged<'a>, AllocError>
    ensures emitted { (yields : Yield) → OnOk result (Appends code.old.items code.new.items (keeps (globals_of context.now) (elements_of context.now) yields (layout_in context.now layout.now) (expression_of channel.now))) }
    ensures channel { IfOk result (λ ranged. type_of (globals_of context.now) (elements_of context.now) (scope_in context.now layout.now.visible) (expression_of channel.now) ≡ kind_of (types_in context.now) ranged.channel) }
    ensures item { IfOk result (λ ranged. carried (globals_of context.now) (elements_of context.now) (scope_in context.now layout.now.visible) (expression_of channel.now) ≡ kind_of (types_in context.now) ranged.item) }
    ensures place { IfOk result (λ ranged. ranged.place ≡ layout.now.visible.words) }
{
    let item = carried(context.table, &layout.visible, channel);
    let place = number(layout.visible.words)?;
    let channel = push_own(context, &layout.visible, channel, code)?;
    code.push(Instr::Store(place, 1))?;
    Ok(Ranged {
        channel,
        item,
        place,
    })
}

/// Declares the local in which a channel of this type is kept, in a block of its own.
///
/// Errors: out of memory.
pub fn declare_kept<'a>(
    context: &Context<'_, 'a>,
    hidden: &'a Blank,
    layout: &mut Layout<'a>,
    kind: ValueType<'a>,
) -> Result<(), AllocError>
    ensures after { OnOk result (layout_in context.now layout.new ≡ declaring (globals_of context.now) (elements_of context.now) (kind_of (types_in context.now) kind.entry) blank (layout_in context.now layout.old)) }
    ensures kept { OnOk result (Keeps layout.old.visible layout.new.visible) }
{
    declare(context, layout, kind, hidden.name())
}

/// Receives the next item.
///
/// Errors: out of memory.
#[tactic(auto, using(crate::proofs::Ranging::appends_receives))]
pub fn emit_next<'k>(
    context: &Context<'_, 'k>,
    ranged: Ranged<'k>,
    code: &mut Vec<Instr>,
) -> Result<(), AllocError>
    ensures { (yields : Yield) (layout : OneLayout) (channel : Expression) → ranged.entry.place ≡ layout.scope.words → carried (globals_of context.now) (elements_of context.now) layout.scope channel ≡ kind_of (types_in context.now) ranged.entry.item → OnOk result (Appends code.old.items code.new.items (receives (globals_of context.now) (elements_of context.now) yields layout channel)) }
{
    code.push(Instr::Load(ranged.place, 1))?;
    put(code, Instr::Receive(shape_of(context, ranged.item)))
}

/// Drops a value of this type that is not used.
///
/// Errors: out of memory.
pub fn emit_unused<'k>(
    context: &Context<'_, 'k>,
    kind: ValueType<'k>,
    code: &mut Vec<Instr>,
) -> Result<(), AllocError>
    ensures { (scope : Scope) → OnOk result (Appends code.old.items code.new.items (drops (width (globals_of context.now) (elements_of context.now) scope (kind_of (types_in context.now) kind.entry)) Skip)) }
{
    drop_words(words_of(context, kind), code)
}

/// A value goes to its spot, and the clock ticks.
#[tactic(auto, using(crate::proofs::Ranging::appends_stored))]
fn emit_stored(spot: Spot, code: &mut Vec<Instr>) -> Result<(), AllocError>
    ensures { OnOk result (Appends code.old.items code.new.items (stores (spot_in spot) (Do instrs.Tick Skip))) }
{
    store(spot, code)?;
    put(code, Instr::Tick)
}

/// An item of this type goes to a name, which is declared.
#[tactic(auto, using(crate::proofs::Ranging::appends_at))]
fn take_name<'a>(
    context: &Context<'_, 'a>,
    layout: &mut Layout<'a>,
    kind: ValueType<'a>,
    name: &'a Name,
    code: &mut Vec<Instr>,
) -> Result<(), AllocError>
    ensures emitted { (yields : Yield) → OnOk result (Appends code.old.items code.new.items (takes (globals_of context.now) (elements_of context.now) yields (layout_in context.now layout.old) (kind_of (types_in context.now) kind.entry) (DefineTarget (name_of name.now)))) }
    ensures after { OnOk result (layout_in context.now layout.new ≡ declaring_new (globals_of context.now) (elements_of context.now) (kind_of (types_in context.now) kind.entry) (name_of name.now) (layout_in context.now layout.old)) }
    ensures kept { OnOk result (Keeps layout.old.visible layout.new.visible) }
{
    let spot = name_spot(context, layout, name, kind)?;
    declare_new(context, layout, kind, name)?;
    emit_stored(spot, code)?;
    Ok(())
}

/// Stores an item of this type in an lvalue.
#[tactic(auto, using(crate::proofs::Ranging::appends_at))]
fn take_place<'a>(
    context: &Context<'_, 'a>,
    layout: &Layout<'a>,
    kind: ValueType<'a>,
    place: &PlaceNode,
    code: &mut Vec<Instr>,
) -> Result<(), AllocError>
    ensures { (yields : Yield) → OnOk result (Appends code.old.items code.new.items (takes (globals_of context.now) (elements_of context.now) yields (layout_in context.now layout.now) (kind_of (types_in context.now) kind.entry) (AssignTarget (place_of place.now)))) }
{
    let spot = place_spot(context, &layout.visible, place, kind)?;
    emit_stored(spot, code)?;
    Ok(())
}

/// Stores an item of this type in the target of a range; declares a name for it.
///
/// Errors: out of memory.
pub fn take_item<'a>(
    context: &Context<'_, 'a>,
    layout: &mut Layout<'a>,
    kind: ValueType<'a>,
    target: &'a RangeTarget,
    code: &mut Vec<Instr>,
) -> Result<(), AllocError>
    ensures emitted { (yields : Yield) → OnOk result (Appends code.old.items code.new.items (takes (globals_of context.now) (elements_of context.now) yields (layout_in context.now layout.old) (kind_of (types_in context.now) kind.entry) (target_of target.now))) }
    ensures after { OnOk result (layout_in context.now layout.new ≡ following_target (globals_of context.now) (elements_of context.now) (kind_of (types_in context.now) kind.entry) (target_of target.now) (layout_in context.now layout.old)) }
    ensures kept { OnOk result (Keeps layout.old.visible layout.new.visible) }
{
    match target {
        RangeTarget::Nothing => emit_unused(context, kind, code),
        RangeTarget::Define(name) => take_name(context, layout, kind, name, code),
        RangeTarget::Assign(place) => take_place(context, layout, kind, place, code),
    }
}
