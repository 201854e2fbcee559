//! Declarations of variables ("Variable declarations" of the Go specification).

ghost use Rattle.std.specs.Prelude.{◌≡◌, IfOk, None, OnOk, length, map, option_map};
ghost use Rattle.syntax.specs.View.{expression_of, name_of, right_of, type_of};
ghost use Rattle.type_table.specs.Scopes.{type_in};
ghost use Rattle.type_table.specs.Views.{kind_of};
ghost use Rattle.type_table.specs.Visible.{Keeps};
ghost use Rattle.meaning.specs.Values.{known};
ghost use Rattle.codegen_base.specs.Generated.{same_types, variables_plan, zero_values};
ghost use Rattle.codegen_base.specs.Layouts.{declaring_all, declaring_each};
ghost use Rattle.codegen_base.specs.Statements.{defines, right_types};
ghost use Rattle.codegen_expression.specs.Emission.{Puts};
ghost use Rattle.codegen_simple.specs.Layouts.{layout_in};
ghost use Rattle.codegen_simple.specs.Simples.{Appends};
ghost use Rattle.codegen_expression.specs.Contexts.{elements_of, globals_of, scope_in, types_in};

use bytecode::Instr;
use codegen_expression::channel::known;
use codegen_expression::context::Context;
use codegen_expression::operand::push_zeros;
use codegen_simple::assignment::assign;
use codegen_simple::define::define_names;
use codegen_simple::layout::Layout;
use codegen_simple::right::right_kinds;
use codegen_simple::simple::define_as;
use std::alloc::{AllocError, Global};
use syntax::{ExpressionNode, Name, TypeNode};
use type_table::value_type::{ValueType, type_in};

/// A type, once for each name.
fn same_types<'a>(
    alloc: Global,
    names: &[Name],
    kind: ValueType<'a>,
) -> Result<Vec<ValueType<'a>>, AllocError>
    ensures { IfOk result (λ kinds. kinds.items ≡ map (λ (_ : _). kind.entry) names.now) }
{
    let mut kinds = Vec::new(alloc);
    for _name in names {
        kinds.push(kind)?;
    }
    Ok(kinds)
}

/// Pushes the zero value of a type for each name.
fn push_zero_values<'t, 'n, 'm, 'a>(
    context: &'t Context<'t, 'a>,
    names: &'n [Name],
    kind: ValueType<'a>,
    code: &'m mut Vec<Instr>,
) -> Result<(), AllocError>
    ensures { OnOk result (Puts code.old.items code.new.items (zero_values (globals_of context.now) (elements_of context.now) 0 (map name_of names.now) (kind_of (types_in context.now) kind.entry))) }
{
    let Some((_name, names)) = names.split_first() else {
        return Ok(());
    };
    push_zeros(context, kind, code)?;
    push_zero_values(context, names, kind, code)
}

/// Declares variables with these types, which are zero.
#[tactic(auto, using(crate::proofs::Zeros::appends_zeros, crate::proofs::Zeros::declared_each))]
fn zero_as<'a>(
    context: &Context<'_, 'a>,
    layout: &mut Layout<'a>,
    names: &'a [Name],
    kind: ValueType<'a>,
    kinds: &[ValueType<'a>],
    code: &mut Vec<Instr>,
) -> Result<(), AllocError>
    requires { map (kind_of (types_in context.now)) kinds.now ≡ same_types (globals_of context.now) (elements_of context.now) (map name_of names.now) (kind_of (types_in context.now) kind) }
    ensures emitted { OnOk result (Appends code.old.items code.new.items (variables_plan (globals_of context.now) (elements_of context.now) (layout_in context.now layout.old) (map name_of names.now) (kind_of (types_in context.now) kind.entry) None)) }
    ensures after { OnOk result (layout_in context.now layout.new ≡ declaring_each (globals_of context.now) (elements_of context.now) (kind_of (types_in context.now) kind.entry) (map name_of names.now) (layout_in context.now layout.old)) }
    ensures kept { OnOk result (Keeps layout.old.visible layout.new.visible) }
{
    push_zero_values(context, names, kind, code)?;
    let spots = define_names(context, layout, names, kinds)?;
    assign(context.alloc, spots.as_slice(), code)
}

/// Declares variables of a type, which take the values of a right side; without one they are zero.
fn emit_known<'a>(
    context: &Context<'_, 'a>,
    layout: &mut Layout<'a>,
    names: &'a [Name],
    kind: ValueType<'a>,
    right: &'a Option<Vec<ExpressionNode>>,
    code: &mut Vec<Instr>,
) -> Result<(), AllocError>
    ensures emitted { OnOk result (Appends code.old.items code.new.items (variables_plan (globals_of context.now) (elements_of context.now) (layout_in context.now layout.old) (map name_of names.now) (kind_of (types_in context.now) kind.entry) (option_map right_of right.now))) }
    ensures after { OnOk result (layout_in context.now layout.new ≡ declaring_each (globals_of context.now) (elements_of context.now) (kind_of (types_in context.now) kind.entry) (map name_of names.now) (layout_in context.now layout.old)) }
    ensures kept { OnOk result (Keeps layout.old.visible layout.new.visible) }
{
    let same = same_types(context.alloc, names, kind)?;
    let kinds = same.as_slice();
    match right {
        Some(right) => define_as(context, layout, names, kinds, right.as_slice(), code),
        None => zero_as(context, layout, names, kind, kinds, code),
    }
}

/// Declares variables of a type, which take the values of a right side; without one they are zero.
///
/// Errors: out of memory.
pub fn emit_typed<'a>(
    context: &Context<'_, 'a>,
    layout: &mut Layout<'a>,
    names: &'a [Name],
    kind: &'a TypeNode,
    right: &'a Option<Vec<ExpressionNode>>,
    code: &mut Vec<Instr>,
) -> Result<(), AllocError>
    ensures emitted { OnOk result (Appends code.old.items code.new.items (variables_plan (globals_of context.now) (elements_of context.now) (layout_in context.now layout.old) (map name_of names.now) (known (type_in (types_in context.now) (scope_in context.now layout.old.visible) (type_of kind.now))) (option_map right_of right.now))) }
    ensures after { OnOk result (layout_in context.now layout.new ≡ declaring_each (globals_of context.now) (elements_of context.now) (known (type_in (types_in context.now) (scope_in context.now layout.old.visible) (type_of kind.now))) (map name_of names.now) (layout_in context.now layout.old)) }
    ensures kept { OnOk result (Keeps layout.old.visible layout.new.visible) }
{
    let kind = known(type_in(context.table, &layout.visible, kind));
    emit_known(context, layout, names, kind, right, code)
}

/// Variables are declared, and take what a right side gives, with its types.
///
/// Errors: out of memory.
pub fn emit_untyped<'a>(
    context: &Context<'_, 'a>,
    layout: &mut Layout<'a>,
    names: &'a [Name],
    right: &'a [ExpressionNode],
    code: &mut Vec<Instr>,
) -> Result<(), AllocError>
    ensures emitted { OnOk result (Appends code.old.items code.new.items (defines (globals_of context.now) (elements_of context.now) (layout_in context.now layout.old) (map name_of names.now) (right_types (globals_of context.now) (elements_of context.now) (scope_in context.now layout.old.visible) (length (map name_of names.now)) (map expression_of right.now)) (map expression_of right.now))) }
    ensures after { OnOk result (layout_in context.now layout.new ≡ declaring_all (globals_of context.now) (elements_of context.now) (map name_of names.now) (right_types (globals_of context.now) (elements_of context.now) (scope_in context.now layout.old.visible) (length (map name_of names.now)) (map expression_of right.now)) (layout_in context.now layout.old)) }
    ensures kept { OnOk result (Keeps layout.old.visible layout.new.visible) }
{
    let given = right_kinds(context, &layout.visible, names.len(), right)?;
    let kinds = given.as_slice();
    define_as(context, layout, names, kinds, right, code)
}
