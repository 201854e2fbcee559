//! Delays of goroutines.

use go_text::Memory;
use local_states::Origins;
use pauses::{Change, Pause, Plan};
use std::alloc::Global;

/// What is changed at one request of one goroutine.
#[derive(Clone, Copy)]
pub struct Delay {
    /// The goroutine's number among those of the search.
    pub goroutine: u32,
    /// The number of the request among those that the goroutine makes, counted from 1.
    pub request: u64,
    pub change: Change,
    /// The number of the goroutine's state there.
    pub local: u32,
}

/// The plan of some delays.
///
/// Errors: out of memory.
pub fn plan_of(alloc: Global, goroutines: &Origins, delays: &[Delay]) -> Result<Plan, Memory> {
    let mut pauses = Vec::with_capacity(alloc, delays.len())?;
    for delay in delays {
        let mut way = Vec::new(alloc);
        for number in goroutines.way(alloc, delay.goroutine)?.iter() {
            way.push(u64::from(*number))?;
        }
        pauses.push(Pause {
            way,
            request: delay.request,
            change: delay.change,
        })?;
    }
    Ok(Plan { pauses })
}
