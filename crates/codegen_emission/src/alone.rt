//! Simple statements, alone and in headers.

ghost use Rattle.std.specs.Prelude.{OnOk, option_map};
ghost use Rattle.syntax.specs.View.{if_head_of, simple_of};
ghost use Rattle.typing_rules.specs.Statements.{head_simple};
ghost use Rattle.codegen_base.specs.Generated.{ended, inside, made_any, made_post, made_simple};
ghost use Rattle.codegen_flow.specs.Controls.{through};
ghost use Rattle.codegen_header.specs.Layouts.{layout_of};
ghost use Rattle.codegen_emission.specs.Emitted.{Emits, site_of};
ghost use Rattle.codegen_emission.specs.Contexts.{of_program, table_of};

use crate::context::FunctionContext;
use crate::emitter::Emitter;
use crate::marks::Part;
use codegen_expression::operand::number;
use codegen_header::layout::{enter, leave};
use codegen_header::print::put_prints;
use codegen_header::simple::emit_simple;
use std::alloc::AllocError;
use syntax::{IfHeader, SimpleNode};

/// A simple statement.
///
/// Errors: out of memory.
pub fn emit_alone<'a>(
    context: &FunctionContext<'_, 'a>,
    emitter: &mut Emitter<'a>,
    simple: &'a SimpleNode,
) -> Result<(), AllocError>
    ensures { OnOk result (Emits (table_of context.now) emitter.old emitter.new through (of_program context.now made_simple (site_of (table_of context.now) emitter.old) (simple_of simple.now))) }
{
    let first = number(emitter.prints.len())?;
    let visible = &emitter.layout.visible;
    put_prints(context.program, visible, simple, &mut emitter.prints)?;
    let layout = &mut emitter.layout;
    let code = &mut emitter.code;
    emit_simple(context.program, layout, first, simple, code)?;
    Ok(())
}

/// A simple statement of a header, with its marks.
///
/// Errors: out of memory.
#[tactic(auto, using(crate::proofs::Emitting::emits_marked))]
fn emit_marked<'a>(
    context: &FunctionContext<'_, 'a>,
    emitter: &mut Emitter<'a>,
    part: Part,
    simple: &'a SimpleNode,
) -> Result<(), AllocError>
    ensures { OnOk result (Emits (table_of context.now) emitter.old emitter.new through (of_program context.now made_simple (site_of (table_of context.now) emitter.old) (simple_of simple.now))) }
{
    emitter.marks.begin(part, emitter.code.len())?;
    emit_alone(context, emitter, simple)?;
    emitter.marks.end(emitter.code.len())
}

/// The simple statement at the end of a header, in a block of its own.
fn emit_inside<'a>(
    context: &FunctionContext<'_, 'a>,
    emitter: &mut Emitter<'a>,
    simple: &'a SimpleNode,
) -> Result<(), AllocError>
    ensures { OnOk result (Emits (table_of context.now) emitter.old emitter.new through (ended (layout_of (table_of context.now) emitter.old.layout) (of_program context.now made_simple (inside (site_of (table_of context.now) emitter.old)) (simple_of simple.now)))) }
{
    let mark = enter(&mut emitter.layout);
    emit_marked(context, emitter, Part::Post, simple)?;
    leave(&mut emitter.layout, mark);
    Ok(())
}

/// A simple statement that may be left out.
///
/// Errors: out of memory.
#[tactic(auto, using(crate::proofs::Emitting::emits_none))]
pub fn emit_any<'a>(
    context: &FunctionContext<'_, 'a>,
    emitter: &mut Emitter<'a>,
    simple: Option<&'a SimpleNode>,
) -> Result<(), AllocError>
    ensures { OnOk result (Emits (table_of context.now) emitter.old emitter.new through (of_program context.now made_any (site_of (table_of context.now) emitter.old) (option_map (λ (s : _). simple_of s.now) simple.entry))) }
{
    match simple {
        Some(simple) => emit_marked(context, emitter, Part::Head, simple),
        None => Ok(()),
    }
}

/// What comes before the condition of an `if`.
///
/// Errors: out of memory.
#[tactic(auto, using(crate::proofs::Emitting::emits_none))]
pub fn emit_head<'a>(
    context: &FunctionContext<'_, 'a>,
    emitter: &mut Emitter<'a>,
    header: &'a IfHeader,
) -> Result<(), AllocError>
    ensures { OnOk result (Emits (table_of context.now) emitter.old emitter.new through (of_program context.now made_any (site_of (table_of context.now) emitter.old) (head_simple (if_head_of header.now)))) }
{
    match header {
        IfHeader::Simple(simple) => emit_marked(context, emitter, Part::Head, simple),
        IfHeader::Bare | IfHeader::Semicolon => Ok(()),
    }
}

/// What is done after each turn of a loop.
///
/// Errors: out of memory.
#[tactic(auto, using(crate::proofs::Emitting::emits_none))]
pub fn emit_post<'a>(
    context: &FunctionContext<'_, 'a>,
    emitter: &mut Emitter<'a>,
    post: Option<&'a SimpleNode>,
) -> Result<(), AllocError>
    ensures { OnOk result (Emits (table_of context.now) emitter.old emitter.new through (of_program context.now made_post (layout_of (table_of context.now) emitter.old.layout) (site_of (table_of context.now) emitter.old) (option_map (λ (s : _). simple_of s.now) post.entry))) }
{
    match post {
        Some(post) => emit_inside(context, emitter, post),
        None => Ok(()),
    }
}
