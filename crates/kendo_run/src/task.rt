//! The commands that this program does.

ghost use Rattle.std.specs.Prelude.{◌≡◌, ◌⊎◌, IfNone, IfSome, IsTrue, false};
ghost use Rattle.std.specs.Option.{is_some};
ghost use Rattle.kendo_run.specs.Tasks.{IsAnother, subcommand_of};

use command_line::arguments::{Invocation, Subcommand};

/// What this program does with a source file.
#[derive(Clone, Copy)]
pub(crate) enum Task {
    /// It is checked.
    Check,
    /// It is run.
    Run {
        /// How many workers; the run judges whether it is 1 to 64.
        workers: u64,
        /// The last logical time; the run judges whether it is 1 to 2^62.
        limit: u64,
    },
}

/// The command's task, if this program does it: `None` for another command, or if it is to explain, to report as JSON, to compare or to
/// write values.
pub(crate) fn task_of(invocation: &Invocation<'_, '_>) -> Option<Task>
    ensures some { IfSome result (λ task. subcommand_of task ≡ invocation.now.subcommand) }
    ensures plain { IfSome result (λ _. (invocation.now.explains ≡ false) × (invocation.now.json ≡ false) × (is_some invocation.now.against ≡ false) × (is_some invocation.now.values ≡ false)) }
    ensures none { IfNone result (IsTrue invocation.now.explains ⊎ (IsTrue invocation.now.json ⊎ (IsTrue (is_some invocation.now.against) ⊎ (IsTrue (is_some invocation.now.values) ⊎ IsAnother invocation.now.subcommand)))) }
{
    if invocation.explains
        || invocation.json
        || invocation.against.is_some()
        || invocation.values.is_some()
    {
        return None;
    }
    match invocation.subcommand {
        Subcommand::Check => Some(Task::Check),
        Subcommand::Run { workers, limit } => Some(Task::Run { workers, limit }),
        Subcommand::List
        | Subcommand::Reference { .. }
        | Subcommand::Paused { .. }
        | Subcommand::Timeline { .. }
        | Subcommand::Explore { .. }
        | Subcommand::Test { .. }
        | Subcommand::Inspect { .. } => None,
    }
}
