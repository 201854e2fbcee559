//! The code of functions.

ghost use Rattle.std.specs.Prelude.{◌≡◌, ◌++◌, [], IfOk, OnOk, length, string_bytes};
ghost use Rattle.plan.specs.Plan.{flat, tables};
ghost use Rattle.syntax.specs.View.{function_of};
ghost use Rattle.type_table.specs.declared.table.TypeTable.{TypeTable as OneTable};
ghost use Rattle.type_table.specs.Views.{yield_of};
ghost use Rattle.codegen_base.specs.Generated.{result_kinds};
ghost use Rattle.codegen_base.specs.Layouts.{empty};
ghost use Rattle.codegen_base.specs.Program.{first_layout, function_code, label, made_function, result_of};
ghost use Rattle.codegen_emission.specs.Layouts.{layout_in, layout_of};
ghost use Rattle.codegen_expression.specs.Contexts.{elements_of, globals_of, types_in};
ghost use Rattle.codegen.specs.Codes.{IsKnown};

use crate::head::{declare_parameters, result_type};
use bytecode::{Function, WordKind};
use codegen_emission::blank::Blank;
use codegen_emission::body::emit_body;
use codegen_emission::context::FunctionContext;
use codegen_emission::emitter::Emitter;
use codegen_emission::layout::Layout;
use codegen_expression::context::Context;
use codegen_expression::operand::number;
use codegen_expression::shape::put_kinds;
use std::alloc::{AllocError, Global};
use std::mem::replace;
use syntax::FunctionNode;
use type_table::value_type::ValueType;

/// A function's name as text.
fn label(alloc: Global, name: &[u8]) -> Result<String, AllocError>
    ensures { IfOk result (λ text. string_bytes text ≡ label name.now) }
{
    match str::from_utf8(name) {
        Ok(text) => String::from_str(alloc, text),
        Err(_) => Ok(String::new(alloc)),
    }
}

/// The kinds of what a function returns.
fn result_kinds<'a>(
    context: &Context<'_, 'a>,
    kind: Option<ValueType<'a>>,
) -> Result<Vec<WordKind>, AllocError>
    ensures { IfOk result (λ kinds. kinds.items ≡ result_kinds (globals_of context.now) (elements_of context.now) (yield_of (types_in context.now) kind.entry)) }
{
    let mut kinds = Vec::new(context.alloc);
    if let Some(kind) = kind {
        put_kinds(context, kind, &mut kinds)?;
    }
    Ok(kinds)
}

/// A function begins: it has no instructions and no variables yet.
fn begin(alloc: Global, emitter: &mut Emitter<'_>)
    ensures code { emitter.new.code.items ≡ [] }
    ensures layout { (table : OneTable) → layout_of table emitter.new.layout ≡ empty }
    ensures prints { emitter.new.prints.items ≡ emitter.old.prints.items }
    ensures selects { emitter.new.selects.items ≡ emitter.old.selects.items }
{
    emitter.code = Vec::new(alloc);
    emitter.layout = Layout::new(alloc);
}

/// Declares the parameters of a function, and returns how many words they take.
fn begin_function<'a>(
    context: &Context<'_, 'a>,
    emitter: &mut Emitter<'a>,
    function: &'a FunctionNode,
) -> Result<u32, AllocError>
    ensures params { IfOk result (λ params. params ≡ length (first_layout (globals_of context.now) (elements_of context.now) (function_of function.now)).locals) }
    ensures code { OnOk result (emitter.new.code.items ≡ []) }
    ensures layout { OnOk result (layout_in context.now emitter.new.layout ≡ first_layout (globals_of context.now) (elements_of context.now) (function_of function.now)) }
    ensures prints { OnOk result (emitter.new.prints.items ≡ emitter.old.prints.items) }
    ensures selects { OnOk result (emitter.new.selects.items ≡ emitter.old.selects.items) }
{
    begin(context.alloc, emitter);
    emitter.marks.begin_function()?;
    let parameters = function.parameters.as_slice();
    declare_parameters(context, &mut emitter.layout, parameters)?;
    let params = number(emitter.layout.locals.len())?;
    Ok(params)
}

/// The function that was emitted, with these words of parameters and this result.
fn finished<'a>(
    context: &Context<'_, 'a>,
    emitter: &mut Emitter<'a>,
    function: &'a FunctionNode,
    params: u32,
    kind: Option<ValueType<'a>>,
) -> Result<Function, AllocError>
    ensures code { IfOk result (λ code. code ≡ record { name = label (function_of function.now).name; params = params; locals = emitter.old.layout.locals.items; results = result_kinds (globals_of context.now) (elements_of context.now) (yield_of (types_in context.now) kind.entry); instrs = emitter.old.code.items }) }
    ensures prints { OnOk result (emitter.new.prints.items ≡ emitter.old.prints.items) }
    ensures selects { OnOk result (emitter.new.selects.items ≡ emitter.old.selects.items) }
{
    let results = result_kinds(context, kind)?;
    let name = label(context.alloc, function.name.bytes.as_slice())?;
    let locals = replace(&mut emitter.layout.locals, Vec::new(context.alloc));
    let instrs = replace(&mut emitter.code, Vec::new(context.alloc));
    Ok(Function::new(name, params, locals, results, instrs))
}

/// The code of a function, whose tables are appended.
///
/// Errors: out of memory.
pub(crate) fn function_code<'a>(
    context: &Context<'_, 'a>,
    blank: &'a Blank,
    emitter: &mut Emitter<'a>,
    function: &'a FunctionNode,
) -> Result<Function, AllocError>
    requires known { IsKnown (result_of (globals_of context.now) (elements_of context.now) (function_of function.now)) }
    ensures code { IfOk result (λ code. code ≡ function_code (globals_of context.now) (elements_of context.now) (function_of function.now) (made_function (globals_of context.now) (elements_of context.now) (length emitter.old.prints.items) (length emitter.old.selects.items) (function_of function.now))) }
    ensures prints { OnOk result (emitter.new.prints.items ≡ emitter.old.prints.items ++ (made_function (globals_of context.now) (elements_of context.now) (length emitter.old.prints.items) (length emitter.old.selects.items) (function_of function.now)).prints) }
    ensures selects { OnOk result (emitter.new.selects.items ≡ emitter.old.selects.items ++ tables 0 (made_function (globals_of context.now) (elements_of context.now) (length emitter.old.prints.items) (length emitter.old.selects.items) (function_of function.now)).plan) }
{
    let params = begin_function(context, emitter, function)?;
    let result_type = result_type(context.table, function.result.as_ref());
    let within = FunctionContext {
        program: context,
        blank,
        result_type,
    };
    emit_body(&within, emitter, function.body.as_slice())?;
    let code = finished(context, emitter, function, params, result_type)?;
    Ok(code)
}
