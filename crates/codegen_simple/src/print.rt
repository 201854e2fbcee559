//! What is printed ("Bootstrapping" of the Go specification).

ghost use Rattle.std.specs.Prelude.{◌≡◌, ◌++◌, ◌∷◌, [], IfOk, List, OnOk, map, option_map};
ghost use Rattle.syntax.specs.View.{part_of, simple_of};
ghost use Rattle.checker_base.specs.Views.{worth_of};
ghost use Rattle.codegen_base.specs.declared.element.Element.{Element};
ghost use Rattle.codegen_base.specs.Statements.{printed_as, printed_part, pushes_parts, simple_prints};
ghost use Rattle.codegen_expression.specs.Emission.{Puts};
ghost use Rattle.codegen_expression.specs.Contexts.{elements_of, globals_of, scope_in};

use bytecode::{Instr, Part, PrintTable, Text};
use checker_base::operand::worth;
use checker_base::worth::Worth;
use codegen_expression::context::Context;
use codegen_expression::value::push_own;
use std::alloc::AllocError;
use syntax::{PartNode, SimpleNode};
use type_table::scope::Visible;
use type_table::value_type::ValueType;

/// How a value of this type or constant is printed.
fn printed_as(worth: Option<Worth<'_>>) -> Part
    ensures { (types : _) → result ≡ printed_as (option_map (worth_of types) worth.entry) }
{
    match worth {
        Some(Worth::Typed(ValueType::Bool)) => Part::Bool,
        _ => Part::Int,
    }
}

/// How a part is printed.
fn printed_part<'k>(
    context: &Context<'_, 'k>,
    visible: &Visible<'k>,
    part: &'k PartNode,
) -> Result<Part, AllocError>
    ensures { IfOk result (λ made. (elements : List Element) → made ≡ printed_part (globals_of context.now) elements (scope_in context.now visible.now) (part_of part.now)) }
{
    match part {
        PartNode::Value(value) => Ok(printed_as(worth(context.table, visible, value))),
        PartNode::Text(bytes) => {
            let bytes = Vec::from_slice(context.alloc, bytes.as_slice())?;
            Ok(Part::Text(Text::new(bytes)))
        }
    }
}

/// How parts are printed, in order.
fn printed_parts<'t, 'v, 'k>(
    context: &'t Context<'t, 'k>,
    visible: &'v Visible<'k>,
    parts: &'k [PartNode],
) -> Result<Vec<Part>, AllocError>
    ensures { IfOk result (λ made. (elements : List Element) → made.items ≡ map (printed_part (globals_of context.now) elements (scope_in context.now visible.now)) (map part_of parts.now)) }
{
    let Some((part, parts)) = parts.split_first() else {
        return Ok(Vec::new(context.alloc));
    };
    let first = printed_part(context, visible, part)?;
    let mut made = printed_parts(context, visible, parts)?;
    made.insert(0, first)?;
    Ok(made)
}

/// Appends the print table of a statement to the others, if it prints.
///
/// Errors: out of memory.
pub fn put_prints<'k>(
    context: &Context<'_, 'k>,
    visible: &Visible<'k>,
    simple: &'k SimpleNode,
    prints: &mut Vec<PrintTable>,
) -> Result<(), AllocError>
    ensures { (elements : List Element) → OnOk result (prints.new.items ≡ prints.old.items ++ simple_prints (globals_of context.now) elements (scope_in context.now visible.now) (simple_of simple.now)) }
{
    match simple {
        SimpleNode::Print(line, parts, _) => {
            let parts = printed_parts(context, visible, parts.as_slice())?;
            prints.push(PrintTable::new(parts, *line))?;
            Ok(())
        }
        _ => Ok(()),
    }
}

/// Pushes what is printed of a part.
fn push_part<'k>(
    context: &Context<'_, 'k>,
    visible: &Visible<'k>,
    part: &'k PartNode,
    code: &mut Vec<Instr>,
) -> Result<(), AllocError>
    ensures { OnOk result (Puts code.old.items code.new.items (pushes_parts (globals_of context.now) (elements_of context.now) (scope_in context.now visible.now) (part_of part.now ∷ []))) }
{
    match part {
        PartNode::Value(value) => {
            push_own(context, visible, value, code)?;
            Ok(())
        }
        PartNode::Text(_) => Ok(()),
    }
}

/// Pushes what is printed, in order.
///
/// Errors: out of memory.
#[tactic(auto, using(crate::proofs::Printing::puts_part))]
pub fn push_parts<'t, 'v, 'm, 'k>(
    context: &'t Context<'t, 'k>,
    visible: &'v Visible<'k>,
    parts: &'k [PartNode],
    code: &'m mut Vec<Instr>,
) -> Result<(), AllocError>
    ensures { OnOk result (Puts code.old.items code.new.items (pushes_parts (globals_of context.now) (elements_of context.now) (scope_in context.now visible.now) (map part_of parts.now))) }
{
    let Some((part, parts)) = parts.split_first() else {
        return Ok(());
    };
    push_part(context, visible, part, code)?;
    push_parts(context, visible, parts, code)
}
