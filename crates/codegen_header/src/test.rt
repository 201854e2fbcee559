//! Conditions ("If statements", "For statements with single condition" of the Go specification).

ghost use Rattle.std.specs.Prelude.{OnOk};
ghost use Rattle.syntax.specs.View.{expression_of};
ghost use Rattle.codegen_base.specs.Generated.{tests};
ghost use Rattle.codegen_expression.specs.Emission.{Puts};
ghost use Rattle.codegen_simple.specs.Layouts.{layout_in};
ghost use Rattle.codegen_expression.specs.Contexts.{elements_of, globals_of};

use bytecode::Instr;
use codegen_expression::context::Context;
use codegen_expression::emission::push;
use codegen_simple::layout::Layout;
use std::alloc::AllocError;
use syntax::ExpressionNode;
use type_table::value_type::ValueType;

/// Pushes a condition.
///
/// Errors: out of memory.
pub fn push_test<'k>(
    context: &Context<'_, 'k>,
    layout: &Layout<'k>,
    condition: &'k ExpressionNode,
    code: &mut Vec<Instr>,
) -> Result<(), AllocError>
    ensures { OnOk result (Puts code.old.items code.new.items (tests (globals_of context.now) (elements_of context.now) (layout_in context.now layout.now) (expression_of condition.now))) }
{
    let visible = &layout.visible;
    push(context, visible, ValueType::Bool, condition, code)
}
