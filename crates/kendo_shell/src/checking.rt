//! The check of a source file.

ghost use Rattle.command_line.specs.declared.arguments.Subcommand.TheVariants as subcommands;
ghost use Rattle.kendo_shell.specs.Answers.{Finds};

use go_text::Fault;
use kendo_reading::check_bytes;
use std::alloc::Global;
use word::end::End;

/// Checks a source file.
///
/// Errors: by the numbers 1 to 10 why it is no program, with line and column; `Memory`.
pub fn check(alloc: Global, bytes: Vec<u8>) -> Result<End, Fault>
    ensures { Finds subcommands.Check bytes.items result }
{
    check_bytes(alloc, bytes)?;
    Ok(End::Finished)
}
