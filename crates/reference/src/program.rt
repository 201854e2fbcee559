//! The program that a checked tree is.

ghost use Rattle.std.specs.Prelude.{◌≡◌, IfOk};
ghost use Rattle.checker.specs.Trees.{tree_in};
ghost use Rattle.syntax.specs.Spans.{tree_of};
ghost use Rattle.syntax.specs.View.{file_of};

use checker::Typed;
use reference_task::program::Program;
use std::alloc::{AllocError, Global};

/// The program that a checked tree is.
pub fn program_of(alloc: Global, typed: &Typed) -> Result<Program<'_>, AllocError>
    ensures { IfOk result (λ program. file_of program.file.now ≡ tree_of (tree_in typed.now)) }
{
    let table = typed.table(alloc)?;
    let file = typed.tree().file();
    Ok(Program { file, table })
}
