//! Goroutines that are shown.

use go_text::Memory;
use one_thread::Goroutine;
use paused_goroutine::PausedState;
use std::alloc::Global;
use watched_goroutine::Placed;

/// A goroutine that is shown.
#[derive(Clone, Copy)]
pub struct Row<'s, 't> {
    pub number: u64,
    /// Its clock.
    pub time: u64,
    pub is_asleep: bool,
    /// Whether it was woken at its send by a close, and panics next.
    pub is_doomed: bool,
    /// For how many ticks it still waits since the plan says so.
    pub left: u64,
    pub placed: &'s Placed<'t>,
}

/// The goroutines of a run without a plan, in the order of their numbers.
///
/// Errors: out of memory.
pub fn plain_rows<'s, 't>(
    alloc: Global,
    goroutines: &'s [Option<Goroutine<Placed<'t>>>],
) -> Result<Vec<Row<'s, 't>>, Memory> {
    let mut rows = Vec::new(alloc);
    for (number, one) in goroutines.iter().enumerate() {
        if let Some(one) = one {
            rows.push(Row {
                number: number as u64,
                time: one.clock.time(),
                is_asleep: one.asleep,
                is_doomed: one.doomed,
                left: 0,
                placed: &one.state,
            })?;
        }
    }
    Ok(rows)
}

/// Like `plain_rows`, of a run with a plan.
///
/// Errors: out of memory.
pub fn paused_rows<'s, 't>(
    alloc: Global,
    goroutines: &'s [Option<Goroutine<PausedState<Placed<'t>>>>],
) -> Result<Vec<Row<'s, 't>>, Memory> {
    let mut rows = Vec::new(alloc);
    for (number, one) in goroutines.iter().enumerate() {
        if let Some(one) = one {
            rows.push(Row {
                number: number as u64,
                time: one.clock.time(),
                is_asleep: one.asleep,
                is_doomed: one.doomed,
                left: one.state.progress.left,
                placed: &one.state.state,
            })?;
        }
    }
    Ok(rows)
}
