//! The shapes of what channels carry.

ghost use Rattle.std.specs.Prelude.{◌≡◌, IfOk};
ghost use Rattle.codegen_base.specs.Elements.{element_kinds, shapes_of};
ghost use Rattle.codegen_expression.specs.Contexts.{elements_of, globals_of};

use bytecode::{Shape, WordKind};
use codegen_base::element::Element;
use codegen_expression::context::Context;
use codegen_expression::operand::number;
use codegen_expression::shape::put_kinds;
use std::alloc::AllocError;
use type_table::value_type::ValueType;

/// The kinds of the words that a channel carries.
fn element_kinds(context: &Context<'_, '_>, element: Element) -> Result<Vec<WordKind>, AllocError>
    ensures { IfOk result (λ kinds. kinds.items ≡ element_kinds (globals_of context.now).structs (elements_of context.now) element) }
{
    let mut kinds = Vec::new(context.alloc);
    match element {
        Element::Int => {
            kinds.push(WordKind::Int)?;
        }
        Element::Bool => {
            kinds.push(WordKind::Bool)?;
        }
        Element::Struct(number) => {
            let kind = ValueType::Struct(number);
            put_kinds(context, kind, &mut kinds)?;
        }
        Element::Channel(shape) => {
            kinds.push(WordKind::Chan(number(shape)?))?;
        }
    }
    Ok(kinds)
}

/// The shapes of what channels carry, in the order of their numbers.
pub(crate) fn shapes_of(context: &Context<'_, '_>) -> Result<Vec<Shape>, AllocError>
    ensures { IfOk result (λ shapes. shapes.items ≡ shapes_of (globals_of context.now).structs (elements_of context.now)) }
{
    let mut shapes = Vec::new(context.alloc);
    for element in context.elements.elements() {
        let kinds = element_kinds(context, *element)?;
        shapes.push(Shape::new(kinds))?;
    }
    Ok(shapes)
}
