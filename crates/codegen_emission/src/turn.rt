//! What is done between the turns of a loop.

ghost use Rattle.std.specs.Prelude.{◌≡◌, ◌∷◌, ◌++◌, [], OnOk, cond, option_map, take};
ghost use Rattle.bytecode.specs.declared.instr.Instr.TheVariants as instrs;
ghost use Rattle.syntax.specs.View.{simple_of};
ghost use Rattle.codegen_base.specs.Generated.{made_post};
ghost use Rattle.codegen_emission.specs.Turns.{Rounds};
ghost use Rattle.codegen_header.specs.Layouts.{layout_of};
ghost use Rattle.codegen_emission.specs.Emitted.{site_of};
ghost use Rattle.codegen_emission.specs.Contexts.{of_program, table_of};

use crate::alone::emit_post;
use crate::context::FunctionContext;
use crate::emitter::Emitter;
use bytecode::Instr;
use std::alloc::AllocError;
use syntax::SimpleNode;

/// Leads back to the head of a loop. If its body never comes round again, the instructions from `following` on are dropped.
fn come_back(
    comes_round: bool,
    following: usize,
    head: u32,
    code: &mut Vec<Instr>,
) -> Result<(), AllocError>
    ensures { OnOk result (code.new.items ≡ cond comes_round (code.old.items ++ instrs.Loop head ∷ []) (take following code.old.items)) }
{
    if !comes_round {
        code.truncate(following);
    }
    come_round(comes_round, head, code)
}

/// Leads back to the head of a loop, if its body comes round again.
///
/// Errors: out of memory.
pub fn come_round(comes_round: bool, head: u32, code: &mut Vec<Instr>) -> Result<(), AllocError>
    ensures { OnOk result (code.new.items ≡ code.old.items ++ cond comes_round (instrs.Loop head ∷ []) []) }
{
    if comes_round {
        code.push(Instr::Loop(head))?;
    }
    Ok(())
}

/// What is done after each turn of a loop, and the way back to its head. If its body never comes round again, there are
/// no instructions.
///
/// Errors: out of memory.
pub fn emit_round<'a>(
    context: &FunctionContext<'_, 'a>,
    emitter: &mut Emitter<'a>,
    comes_round: bool,
    head: u32,
    post: Option<&'a SimpleNode>,
) -> Result<(), AllocError>
    ensures { OnOk result (Rounds (table_of context.now) comes_round head emitter.old emitter.new (of_program context.now made_post (layout_of (table_of context.now) emitter.old.layout) (site_of (table_of context.now) emitter.old) (option_map (λ (s : _). simple_of s.now) post.entry))) }
{
    let following = emitter.code.len();
    emit_post(context, emitter, post)?;
    come_back(comes_round, following, head, &mut emitter.code)
}
