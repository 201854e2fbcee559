//! The code of a file.

ghost use Rattle.std.specs.Prelude.{◌≡◌, ◌++◌, ◌∷◌, ◌<◌, ◌^◌, [], All, IfOk, List, OnOk, length, map, sum_by};
ghost use Rattle.syntax.specs.Measures.{top_size};
ghost use Rattle.syntax.specs.Spans.{tree_of};
ghost use Rattle.syntax.specs.Tree.{Top};
ghost use Rattle.syntax.specs.View.{top_of};
ghost use Rattle.type_table.specs.Visible.{globals_in, types_of};
ghost use Rattle.typing_rules.specs.Files.{IsTyped};
ghost use Rattle.checker.specs.Trees.{tree_in};
ghost use Rattle.codegen_base.specs.Program.{all_prints, all_selects, code_of, functions_code, noting_tops};
ghost use Rattle.codegen_expression.specs.Contexts.{elements_of, globals_of, types_in};
ghost use Rattle.codegen.specs.Codes.{HasKnownResult, code_with};

use crate::function::function_code;
use crate::shapes::shapes_of;
use bytecode::{Code, Function};
use checker::Typed;
use codegen_emission::blank::Blank;
use codegen_emission::emitter::Emitter;
use codegen_emission::layout::Layout;
use codegen_emission::marks::Marks;
use codegen_expression::context::Context;
use codegen_expression::noting::elements_in;
use std::alloc::{AllocError, Global};
use syntax::TopNode;
use type_table::table::TypeTable;

/// Appends the code of a function, and its tables.
#[tactic(auto, using(crate::proofs::Functions::functions_put, crate::proofs::Functions::prints_put, crate::proofs::Functions::selects_put))]
fn put_top<'a>(
    context: &Context<'_, 'a>,
    blank: &'a Blank,
    emitter: &mut Emitter<'a>,
    functions: &mut Vec<Function>,
    top: &'a TopNode,
) -> Result<(), AllocError>
    requires known { HasKnownResult (types_in context.now) (top_of top.now) }
    ensures functions { OnOk result ((rest : List Top) → functions.new.items ++ functions_code (globals_of context.now) (elements_of context.now) (length emitter.new.prints.items) (length emitter.new.selects.items) rest ≡ functions.old.items ++ functions_code (globals_of context.now) (elements_of context.now) (length emitter.old.prints.items) (length emitter.old.selects.items) (top_of top.now ∷ rest)) }
    ensures prints { OnOk result ((rest : List Top) → emitter.new.prints.items ++ all_prints (globals_of context.now) (elements_of context.now) (length emitter.new.prints.items) (length emitter.new.selects.items) rest ≡ emitter.old.prints.items ++ all_prints (globals_of context.now) (elements_of context.now) (length emitter.old.prints.items) (length emitter.old.selects.items) (top_of top.now ∷ rest)) }
    ensures selects { OnOk result ((rest : List Top) → emitter.new.selects.items ++ all_selects (globals_of context.now) (elements_of context.now) (length emitter.new.prints.items) (length emitter.new.selects.items) rest ≡ emitter.old.selects.items ++ all_selects (globals_of context.now) (elements_of context.now) (length emitter.old.prints.items) (length emitter.old.selects.items) (top_of top.now ∷ rest)) }
{
    if let TopNode::Function(function) = top {
        let code = function_code(context, blank, emitter, function)?;
        functions.push(code)?;
    }
    Ok(())
}

/// Appends the code of functions, and their tables.
fn put_tops<'a>(
    context: &Context<'_, 'a>,
    blank: &'a Blank,
    emitter: &mut Emitter<'a>,
    functions: &mut Vec<Function>,
    tops: &'a [TopNode],
) -> Result<(), AllocError>
    requires known { All (λ (top : _). HasKnownResult (types_in context.now) (top_of top)) tops.now }
    ensures functions { OnOk result (functions.new.items ≡ functions.old.items ++ functions_code (globals_of context.now) (elements_of context.now) (length emitter.old.prints.items) (length emitter.old.selects.items) (map top_of tops.now)) }
    ensures prints { OnOk result (emitter.new.prints.items ≡ emitter.old.prints.items ++ all_prints (globals_of context.now) (elements_of context.now) (length emitter.old.prints.items) (length emitter.old.selects.items) (map top_of tops.now)) }
    ensures selects { OnOk result (emitter.new.selects.items ≡ emitter.old.selects.items ++ all_selects (globals_of context.now) (elements_of context.now) (length emitter.old.prints.items) (length emitter.old.selects.items) (map top_of tops.now)) }
{
    for top in tops {
        put_top(context, blank, emitter, functions, top)?;
    }
    Ok(())
}

/// The code of these declarations, which the table holds, and its marks.
fn generate<'a>(
    alloc: Global,
    table: &TypeTable<'a>,
    blank: &'a Blank,
    tops: &'a [TopNode],
) -> Result<(Code, Marks), AllocError>
    requires small { sum_by top_size (map top_of tops.now) < 2 ^ 32 }
    requires known { All (λ (top : _). HasKnownResult (types_of table.now) (top_of top)) tops.now }
    ensures { IfOk result (λ made. made.0 ≡ code_with (globals_in table.now) (noting_tops (types_of table.now) (map top_of tops.now) []) (map top_of tops.now)) }
{
    let elements = elements_in(alloc, table, tops)?;
    let context = Context {
        table,
        elements: &elements,
        alloc,
    };
    let shapes = shapes_of(&context)?;
    let mut functions = Vec::new(alloc);
    let mut emitter = Emitter {
        code: Vec::new(alloc),
        prints: Vec::new(alloc),
        selects: Vec::new(alloc),
        layout: Layout::new(alloc),
        marks: Marks::new(alloc),
    };
    put_tops(&context, blank, &mut emitter, &mut functions, tops)?;
    let code = Code::new(functions, shapes, emitter.prints).with_selects(emitter.selects);
    Ok((code, emitter.marks))
}

/// The code of a checked file and its marks, with a name under which ranges keep their channels.
fn file_code<'a>(
    alloc: Global,
    typed: &'a Typed,
    blank: &'a Blank,
) -> Result<(Code, Marks), AllocError>
    ensures code { IfOk result (λ made. made.0 ≡ code_of (tree_of (tree_in typed.now))) }
    ensures typed { IfOk result (λ _. IsTyped (tree_of (tree_in typed.now))) }
{
    let table = typed.table(alloc)?;
    let tops = typed.tree().file().tops.as_slice();
    let made = generate(alloc, &table, blank, tops)?;
    Ok(made)
}

/// The code of a checked file, and its marks.
///
/// Errors: out of memory, as which a number of the code of 2^32 or more counts.
pub(crate) fn code_of(alloc: Global, typed: &Typed) -> Result<(Code, Marks), AllocError>
    ensures code { IfOk result (λ made. made.0 ≡ code_of (tree_of (tree_in typed.now))) }
    ensures typed { IfOk result (λ _. IsTyped (tree_of (tree_in typed.now))) }
{
    let blank = Blank::new(alloc)?;
    let made = file_code(alloc, typed, &blank)?;
    Ok(made)
}
