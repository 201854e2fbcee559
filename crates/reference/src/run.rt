//! The run of a program as its source says.

ghost use Rattle.std.specs.Prelude.{◌≡◌, ◌⊎◌, ◌↔◌, IfErr, IfOk, IsErrOf, true};
ghost use Rattle.syntax.specs.Spans.{tree_of};
ghost use Rattle.checker.specs.Trees.{tree_in};
ghost use Rattle.meaning.specs.Source.{source_kind};
ghost use Rattle.whole_run.specs.Runs.{BeginsOutput, IsLimit, IsWhole};

use crate::program::program_of;
use crate::source::Source;
use checker::Typed;
use go_text::Fault;
use one_thread::run;
use std::alloc::Global;
use word::Write;
use word::end::End;

/// Runs a program as its source says, up to the clock limit (1 to 2^62 steps), and returns how the run ended. What is
/// written begins the output of the program; at an end it is all of it.
///
/// Errors: `BadLimit`; `Write`; `Memory`.
pub fn run_source<O: Write>(
    alloc: Global,
    typed: &Typed,
    limit: u64,
    out: &mut O,
) -> Result<End, Fault>
    ensures limit { IsErrOf result Fault.BadLimit ↔ (IsLimit limit → ⊥) }
    ensures nothing { IsErrOf result Fault.BadLimit → O.contents out.new ≡ O.contents out.old }
    ensures begins { BeginsOutput (source_kind (tree_of (tree_in typed.now))) limit (O.contents out.old) (O.contents out.new) }
    ensures whole { IfOk result (λ end. IsWhole (source_kind (tree_of (tree_in typed.now))) limit (O.contents out.old) (O.contents out.new) end) }
    ensures write { IsErrOf result Fault.Write → O.has_failed out.new ≡ true }
    ensures only { IfErr result (λ fault. (fault ≡ Fault.Memory) ⊎ ((fault ≡ Fault.Write) ⊎ (fault ≡ Fault.BadLimit))) }
{
    if limit < 1 || limit > 1 << 62 {
        return Err(Fault::BadLimit);
    }
    let program = program_of(alloc, typed)?;
    run(alloc, &Source { program }, limit, out)
}
