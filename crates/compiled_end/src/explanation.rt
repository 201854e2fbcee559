//! The explanation of the end of a run.

ghost use Rattle.std.specs.Prelude.{◌≤◌, ◌^◌};

use crate::compiled::Compiled;
use crate::second_run::last_moment;
use checker::Typed;
use end_explanation::end_explanation;
use go_text::{Memory, Source};
use inspection::Scene;
use std::alloc::Global;

/// Where the goroutines of a program are at the end of its run up to the clock limit (1 to 2^62), in lines, as `end_explanation`
/// writes them. FILE in them is the path as it was typed; `cause` says why the run panicked, if it did.
///
/// Errors: out of memory.
pub fn compiled_end(
    alloc: Global,
    path: &str,
    source: &Source,
    typed: &Typed,
    limit: u64,
    cause: &str,
) -> Result<Vec<u8>, Memory>
    requires limit { (1 ≤ limit) × (limit ≤ 2 ^ 62) }
{
    let Ok(compiled) = Compiled::new(alloc, typed) else {
        return Err(Memory);
    };
    let last = last_moment(alloc, &compiled, limit)?;
    let scene = Scene {
        alloc,
        path,
        source,
        tree: compiled.tree,
        table: &compiled.table,
    };
    end_explanation(scene, &last.moment, &last.shown, limit, cause)
}
