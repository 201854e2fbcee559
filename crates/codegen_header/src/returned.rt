//! Returns ("Return statements" of the Go specification).

ghost use Rattle.std.specs.Prelude.{◌≡◌, OnOk};
ghost use Rattle.syntax.specs.View.{returned_of};
ghost use Rattle.type_table.specs.Views.{kind_of, yield_of};
ghost use Rattle.codegen_base.specs.Generated.{result_type, return_plan};
ghost use Rattle.codegen_expression.specs.Emission.{Puts};
ghost use Rattle.codegen_simple.specs.Layouts.{layout_in};
ghost use Rattle.codegen_simple.specs.Simples.{Appends};
ghost use Rattle.codegen_expression.specs.Contexts.{elements_of, globals_of, scope_in, types_in};
ghost use Rattle.codegen_header.specs.Returned.{pushes_returned};

use bytecode::Instr;
use codegen_expression::context::Context;
use codegen_expression::emission::push;
use codegen_expression::operand::put;
use codegen_simple::layout::Layout;
use std::alloc::AllocError;
use syntax::ReturnNode;
use type_table::scope::Visible;
use type_table::value_type::ValueType;

/// The type of what a function returns that has this result.
fn result_type<'a>(kind: Option<ValueType<'a>>) -> ValueType<'a>
    ensures { (types : _) (globals : _) (elements : _) → kind_of types result ≡ result_type globals elements (yield_of types kind.entry) }
{
    match kind {
        Some(kind) => kind,
        None => ValueType::Bool,
    }
}

/// Pushes what is returned from a function that has a result of this type, or none.
fn push_returned<'k>(
    context: &Context<'_, 'k>,
    visible: &Visible<'k>,
    kind: Option<ValueType<'k>>,
    returned: &'k ReturnNode,
    code: &mut Vec<Instr>,
) -> Result<(), AllocError>
    ensures { OnOk result (Puts code.old.items code.new.items (pushes_returned (globals_of context.now) (elements_of context.now) (yield_of (types_in context.now) kind.entry) (scope_in context.now visible.now) (returned_of returned.now))) }
{
    match returned {
        ReturnNode::Nothing => Ok(()),
        ReturnNode::Value(value) => {
            let kind = result_type(kind);
            push(context, visible, kind, value, code)
        }
    }
}

/// A return from a function that has a result of this type, or none.
///
/// Errors: out of memory.
pub fn emit_return<'k>(
    context: &Context<'_, 'k>,
    layout: &Layout<'k>,
    kind: Option<ValueType<'k>>,
    returned: &'k ReturnNode,
    code: &mut Vec<Instr>,
) -> Result<(), AllocError>
    ensures { OnOk result (Appends code.old.items code.new.items (return_plan (globals_of context.now) (elements_of context.now) (yield_of (types_in context.now) kind.entry) (layout_in context.now layout.now) (returned_of returned.now))) }
{
    let visible = &layout.visible;
    push_returned(context, visible, kind, returned, code)?;
    put(code, Instr::Return)
}
