//! The shapes of what channels carry, and the kinds of the words of values.

ghost use Rattle.std.specs.Prelude.{◌≡◌, ◌+◌, ◌++◌, ◌<◌, ◌≤◌, ◌^◌, IfOk, OnOk, length, map};
ghost use Rattle.bytecode.specs.declared.instr.WordKind.{WordKind as OneKind};
ghost use Rattle.syntax.specs.View.{type_of};
ghost use Rattle.type_table.specs.Scopes.{nothing_declared, type_in};
ghost use Rattle.type_table.specs.Views.{kind_of, kind_size};
ghost use Rattle.type_table.specs.Visible.{types_of};
ghost use Rattle.meaning.specs.Values.{known};
ghost use Rattle.codegen_base.specs.Elements.{element_of, shape_of, with_type, word_kind, kinds_of};
ghost use Rattle.codegen_expression.specs.Depths.{depth};
ghost use Rattle.codegen_expression.specs.Contexts.{elements_of, globals_of, types_in};

use crate::context::Context;
use crate::element_list::ElementList;
use bytecode::WordKind;
use codegen_base::element::Element;
use std::alloc::AllocError;
use type_table::table::TypeTable;
use type_table::value_type::{ValueType, element_in};
use type_table::zero::parts;

/// What a channel of this type's values carries.
pub fn element_of<'k>(table: &TypeTable<'k>, elements: &ElementList, kind: ValueType<'k>) -> Element
    ensures { result ≡ element_of elements.now (kind_of (types_of table.now) kind.entry) }
{
    match kind {
        ValueType::Int => Element::Int,
        ValueType::Bool => Element::Bool,
        ValueType::Struct(number) => Element::Struct(number),
        ValueType::Channel(_, carried) => {
            let carried = element_of(table, elements, element_in(table, carried));
            Element::Channel(elements.place_of(carried) as usize)
        }
    }
}

/// The number of the shape of values of a type.
pub fn shape_of<'k>(context: &Context<'_, 'k>, kind: ValueType<'k>) -> u32
    ensures { result ≡ shape_of (elements_of context.now) (kind_of (types_in context.now) kind.entry) }
{
    let element = element_of(context.table, context.elements, kind);
    context.elements.place_of(element)
}

/// Notes the elements of the channels in a type, innermost first, and returns what a channel of the type carries.
#[tactic(auto, using(crate::proofs::Counting::with_length, crate::proofs::Finding::element_kept))]
pub fn note_kind<'t, 'e, 'k>(
    table: &'t TypeTable<'k>,
    elements: &'e mut ElementList,
    kind: ValueType<'k>,
) -> Result<Element, AllocError>
    requires room { length elements.old + depth (kind_of (types_of table.now) kind) < 2 ^ 32 }
    ensures count { OnOk result (length elements.new ≤ length elements.old + depth (kind_of (types_of table.now) kind.entry)) }
    ensures noted { OnOk result (elements.new ≡ with_type elements.old (kind_of (types_of table.now) kind.entry)) }
    ensures element { IfOk result (λ element. element ≡ element_of elements.new (kind_of (types_of table.now) kind.entry)) }
{
    match kind {
        ValueType::Int => Ok(Element::Int),
        ValueType::Bool => Ok(Element::Bool),
        ValueType::Struct(number) => Ok(Element::Struct(number)),
        ValueType::Channel(_, carried) => {
            let carried = note_kind(table, elements, element_in(table, carried))?;
            elements.note(carried)?;
            Ok(Element::Channel(elements.place_of(carried) as usize))
        }
    }
}

/// The kind of the word of a value; a struct has many.
pub fn word_kind<'k>(context: &Context<'_, 'k>, kind: ValueType<'k>) -> WordKind
    ensures { result ≡ word_kind (elements_of context.now) (kind_of (types_in context.now) kind.entry) }
{
    match kind {
        ValueType::Int | ValueType::Struct(_) => WordKind::Int,
        ValueType::Bool => WordKind::Bool,
        ValueType::Channel(_, carried) => {
            WordKind::Chan(shape_of(context, element_in(context.table, carried)))
        }
    }
}

/// Puts the kinds of a value's words after the others.
pub fn put_kinds<'a>(
    context: &Context<'_, 'a>,
    kind: ValueType<'a>,
    kinds: &mut Vec<WordKind>,
) -> Result<(), AllocError>
    ensures { OnOk result (kinds.new.items ≡ kinds.old.items ++ kinds_of (globals_of context.now).structs (elements_of context.now) (kind_of (types_in context.now) kind.entry)) }
{
    for part in parts(context.alloc, context.table, kind)?.iter() {
        kinds.push(word_kind(context, *part))?;
    }
    Ok(())
}
