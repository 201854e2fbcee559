//! The explanation of the end of a run by a plan.

ghost use Rattle.std.specs.Prelude.{◌≤◌, ◌^◌};

use crate::run::last_moment;
use checker::Typed;
use end_explanation::end_explanation;
use go_text::{Memory, Source};
use inspection::Scene;
use paused_goroutine::Paused;
use pauses::Plan;
use std::alloc::Global;
use watched_goroutine::Watched;

/// Where the goroutines of a program are at the end of its run by a plan up to the clock limit (1 to 2^62), in lines, as
/// `end_explanation` writes them. FILE in them is the path as it was typed; `cause` says why the run panicked, if it did.
///
/// Errors: out of memory.
pub fn paused_end(
    alloc: Global,
    path: &str,
    source: &Source,
    typed: &Typed,
    plan: &Plan,
    limit: u64,
    cause: &str,
) -> Result<Vec<u8>, Memory>
    requires limit { limit ≤ 2 ^ 62 }
{
    let program = Watched::new(alloc, typed)?;
    let paused = Paused { program, plan };
    let last = last_moment(alloc, &paused, limit)?;
    let scene = Scene {
        alloc,
        path,
        source,
        tree: typed.tree(),
        table: &paused.program.source.program.table,
    };
    end_explanation(scene, &last.moment, &last.shown, limit, cause)
}
