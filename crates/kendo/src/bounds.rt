//! The bounds of workers and limits.

ghost use Rattle.std.specs.Prelude.{IsTrue, ◌↔◌};
ghost use Rattle.whole_run.specs.Runs.{IsLimit, IsWorkers};

use command_line::arguments::Subcommand;

/// How many workers a run has at most.
pub(crate) const MOST_WORKERS: u64 = 64;

/// Whether a run can have so many workers.
pub(crate) fn has_workers(workers: u64) -> bool
    ensures { IsTrue result ↔ IsWorkers workers }
{
    1 <= workers && workers <= MOST_WORKERS
}

/// Whether a run can have this limit.
pub(crate) fn has_limit(limit: u64) -> bool
    ensures { IsTrue result ↔ IsLimit limit }
{
    1 <= limit && limit <= 1 << 62
}

/// Whether the command is not refused for its workers or its limit.
pub(crate) fn is_in_bounds(subcommand: Subcommand) -> bool {
    match subcommand {
        Subcommand::Check | Subcommand::List => true,
        Subcommand::Run { workers, limit } | Subcommand::Paused { workers, limit } => {
            has_workers(workers) && has_limit(limit)
        }
        Subcommand::Reference { limit }
        | Subcommand::Timeline { limit }
        | Subcommand::Inspect { limit }
        | Subcommand::Explore { limit, .. }
        | Subcommand::Test { limit, .. } => has_limit(limit),
    }
}
