//! The instructions of calls and of operations on channels ("Calls", "Receive operator" and others of the Go specification).

ghost use Rattle.std.specs.Prelude.{◌≡◌, ◌++◌, ◌<◌, ◌∷◌, [], IfOk, IfSome, OnOk, Some, map, option_map};
ghost use Rattle.syntax.specs.Tree.{Make};
ghost use Rattle.syntax.specs.View.{expression_of, name_of, type_of as written_of};
ghost use Rattle.type_table.specs.Types.{element_type};
ghost use Rattle.type_table.specs.Views.{kind_of};
ghost use Rattle.type_table.specs.Visible.{globals_in, types_of};
ghost use Rattle.checker_base.specs.Views.{IsSmall, worth_of};
ghost use Rattle.typing_rules.specs.Calls.{parameters_of};
ghost use Rattle.typing_rules.specs.Worths.{Typed, element_of, worth};
ghost use Rattle.meaning.specs.Expressions.{number_of};
ghost use Rattle.meaning.specs.Values.{known};
ghost use Rattle.codegen_base.specs.declared.element.Element.{Element as OneElement};
ghost use Rattle.codegen_base.specs.declared.element.Element.TheVariants as variants;
ghost use Rattle.codegen_base.specs.Elements.{element_of as element_for, found_at};
ghost use Rattle.codegen_base.specs.Layouts.{carried};
ghost use Rattle.codegen_base.specs.Pushes.{pushes_own};
ghost use Rattle.codegen_base.specs.Statements.{pushes_arguments, pushes_received};
ghost use Rattle.codegen_expression.specs.Emission.{IsPlaced, Puts, making, receiving};
ghost use Rattle.codegen_expression.specs.Contexts.{elements_of, globals_of, scope_in, types_in, worth_in};

use crate::context::Context;
use crate::element_list::ElementList;
use crate::emission::{emit_arguments, emit_channel};
use crate::operand::{carried_shape, kind_in, number, put};
use crate::shape::element_of;
use crate::value::push_own;
use bytecode::Instr;
use checker_base::operand::{worth_made, worth_received};
use checker_base::worth::Worth;
use codegen_base::element::Element;
use std::alloc::AllocError;
use syntax::{ArgumentsNode, ExpressionNode, Name, TypeNode};
use type_table::layout::function_number;
use type_table::scope::Visible;
use type_table::table::TypeTable;
use type_table::value_type::{ValueType, element_in, type_in};

/// The number of the function of this name, or 0 if there is none.
pub(crate) fn callee(table: &TypeTable<'_>, name: &Name) -> usize
    ensures { result ≡ number_of (globals_in table.now) (name_of name.now) }
{
    function_number(table, name.bytes.as_slice()).unwrap_or(0)
}

/// The types of the parameters of the function with this number, or no types if there is none.
pub(crate) fn parameters_at<'a, 't>(table: &'a TypeTable<'t>, number: usize) -> &'a [ValueType<'t>]
    ensures { map (kind_of (types_of table.now)) result.now ≡ map known (parameters_of (globals_in table.now) number) }
{
    if number < table.functions.len() {
        table.functions[number].parameters.as_slice()
    } else {
        &[]
    }
}

/// A type, if it is known; otherwise an int.
pub fn known<'t>(kind: Option<ValueType<'t>>) -> ValueType<'t>
    ensures { (types : _) → kind_of types result ≡ known (option_map (kind_of types) kind.entry) }
{
    match kind {
        Some(kind) => kind,
        None => ValueType::Int,
    }
}

/// The type of what a channel of this type carries; of what is no channel, an int.
fn carried_by<'t>(table: &TypeTable<'t>, kind: ValueType<'t>) -> ValueType<'t>
    ensures { kind_of (types_of table.now) result ≡ known (element_type (kind_of (types_of table.now) kind.entry)) }
{
    match kind {
        ValueType::Channel(_, carried) => element_in(table, carried),
        _ => ValueType::Int,
    }
}

/// The type of what a channel carries.
#[tactic(auto, using(crate::proofs::Requesting::carried_in))]
pub fn carried_in<'t>(table: &TypeTable<'t>, channel: Option<Worth<'t>>) -> ValueType<'t>
    ensures { kind_of (types_of table.now) result ≡ known (element_of (option_map (worth_of (types_of table.now)) channel.entry)) }
{
    carried_by(table, kind_in(channel))
}

/// A channel, or what was received from one: its type or constant value, and the index of its type's element, if it is known.
#[derive(Clone, Copy)]
pub(crate) struct Placed<'k> {
    pub worth: Option<Worth<'k>>,
    pub place: Option<usize>,
}

/// The index that the element at `place` carries, if it is a channel's. `place` may name an element that is not there.
fn place_within(elements: &ElementList, place: Option<usize>) -> Option<usize>
    ensures { (element : OneElement) → IfSome place (λ n. found_at elements.now element ≡ Some n) → IfSome result (λ n. (element ≡ variants.Channel n) × (0 < n)) }
{
    match elements.element_at(place?) {
        Some(Element::Channel(carried)) if carried > 0 => Some(carried),
        _ => None,
    }
}

/// The index of the element of what a channel carries.
fn item_place<'k>(context: &Context<'_, 'k>, channel: Placed<'k>) -> Option<usize>
    requires { IsPlaced (elements_of context.now) (worth_in context.now channel.worth) channel.place }
    ensures { result ≡ found_at (elements_of context.now) (element_for (elements_of context.now) (known (element_of (worth_in context.now channel.entry.worth)))) }
{
    match place_within(context.elements, channel.place) {
        Some(place) => Some(place),
        None => {
            let item = carried_in(context.table, channel.worth);
            let element = element_of(context.table, context.elements, item);
            context.elements.found_at(element)
        }
    }
}

/// Receives from a channel, which is pushed: its item and whether it was sent are pushed. Returns the item's type.
pub(crate) fn put_receive<'k>(
    context: &Context<'_, 'k>,
    channel: Placed<'k>,
    code: &mut Vec<Instr>,
) -> Result<Placed<'k>, AllocError>
    requires { IsPlaced (elements_of context.now) (worth_in context.now channel.worth) channel.place }
    ensures worth { IfOk result (λ item. worth_in context.now item.worth ≡ option_map Typed (element_of (worth_in context.now channel.entry.worth))) }
    ensures small { IfOk result (λ item. IfSome item.worth IsSmall) }
    ensures placed { IfOk result (λ item. IsPlaced (elements_of context.now) (worth_in context.now item.worth) item.place) }
    ensures received { OnOk result (code.new.items ≡ code.old.items ++ receiving (elements_of context.now) (worth_in context.now channel.entry.worth) ∷ []) }
{
    let place = item_place(context, channel);
    put(code, Instr::Receive(number(place.unwrap_or(0))?))?;
    Ok(Placed {
        worth: worth_received(context.table, channel.worth),
        place,
    })
}

/// Makes a channel of this type, the size of whose buffer is pushed.
pub(crate) fn put_make<'k>(
    context: &Context<'_, 'k>,
    visible: &Visible<'k>,
    kind: &'k TypeNode,
    code: &mut Vec<Instr>,
) -> Result<Option<Worth<'k>>, AllocError>
    ensures worth { IfOk result (λ made. worth_in context.now made ≡ worth (globals_of context.now) (scope_in context.now visible.now) (Make (written_of kind.now))) }
    ensures small { IfOk result (λ made. IfSome made IsSmall) }
    ensures put { OnOk result (code.new.items ≡ code.old.items ++ making (globals_of context.now) (elements_of context.now) (scope_in context.now visible.now) (written_of kind.now) ∷ []) }
{
    let channel = known(type_in(context.table, visible, kind));
    put(code, Instr::Make(carried_shape(context, channel)))?;
    Ok(worth_made(context.table, visible, kind))
}

/// Pushes a channel, and returns the type of what it carries.
///
/// Errors: out of memory.
pub fn push_channel<'k>(
    context: &Context<'_, 'k>,
    visible: &Visible<'k>,
    channel: &'k ExpressionNode,
    code: &mut Vec<Instr>,
) -> Result<ValueType<'k>, AllocError>
    ensures kind { IfOk result (λ kind. carried (globals_of context.now) (elements_of context.now) (scope_in context.now visible.now) (expression_of channel.now) ≡ kind_of (types_in context.now) kind) }
    ensures pushed { OnOk result (Puts code.old.items code.new.items (pushes_own (globals_of context.now) (elements_of context.now) (scope_in context.now visible.now) (expression_of channel.now))) }
{
    let kind = push_own(context, visible, channel, code)?;
    Ok(carried_by(context.table, kind))
}

/// Receives from a channel: the item and whether it was sent are pushed. Returns the item's type.
///
/// Errors: out of memory.
pub fn push_received<'k>(
    context: &Context<'_, 'k>,
    visible: &Visible<'k>,
    channel: &'k ExpressionNode,
    code: &mut Vec<Instr>,
) -> Result<ValueType<'k>, AllocError>
    ensures kind { IfOk result (λ kind. carried (globals_of context.now) (elements_of context.now) (scope_in context.now visible.now) (expression_of channel.now) ≡ kind_of (types_in context.now) kind) }
    ensures pushed { OnOk result (Puts code.old.items code.new.items (pushes_received (globals_of context.now) (elements_of context.now) (scope_in context.now visible.now) (expression_of channel.now))) }
{
    let channel = emit_channel(context, visible, channel, code)?;
    let item = put_receive(context, channel, code)?;
    Ok(kind_in(item.worth))
}

/// Pushes the arguments of a call of the function of this name, and returns its number.
///
/// Errors: out of memory.
pub fn push_arguments<'k>(
    context: &Context<'_, 'k>,
    visible: &Visible<'k>,
    name: &Name,
    arguments: &'k ArgumentsNode,
    code: &mut Vec<Instr>,
) -> Result<u32, AllocError>
    ensures number { IfOk result (λ n. n ≡ number_of (globals_of context.now) (name_of name.now)) }
    ensures pushed { OnOk result (Puts code.old.items code.new.items (pushes_arguments (globals_of context.now) (elements_of context.now) (scope_in context.now visible.now) (number_of (globals_of context.now) (name_of name.now)) (map expression_of arguments.now.values.items))) }
{
    let values = arguments.values.as_slice();
    emit_arguments(context, visible, name, values, code)
}
