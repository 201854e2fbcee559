//! In how many orders the same lines are printed.

use crate::exploration::Options;
use go_text::Memory;
use orders::Search;
use program_states::{Ending, Scope, Space};
use std::alloc::Global;
use verifier::Verified;

/// The most states that are visited to count orders.
const MOST_STATES: usize = 50_000;

/// In how many orders the lines of the ends that were found are printed.
#[derive(Clone, Copy, PartialEq, Eq)]
pub(crate) enum Orders {
    /// Those of each end in one.
    One,
    /// All ends are printed in this many ways.
    Ways(usize),
    /// Those of an end in several, which were not counted.
    Several,
}

/// In how many orders the same lines are printed in a program that was searched without regard to the order of lines. They are
/// counted if this takes few states.
///
/// Errors: out of memory.
pub(crate) fn orders_of_lines(
    alloc: Global,
    code: &Verified,
    search: &Search<'_>,
    options: Options,
) -> Result<Orders, Memory> {
    if !search.is_mixed() {
        return Ok(Orders::One);
    }
    if !search.is_whole() || search.visited() > MOST_STATES {
        return Ok(Orders::Several);
    }
    let scope = Scope {
        lines_in_order: true,
        ..options.scope
    };
    let mut ordered = Search::new(alloc, Space::new(alloc, code, scope))?;
    if ordered.visit_some(MOST_STATES)? {
        return Ok(Orders::Several);
    }
    let ends = ordered.ends().iter();
    let ways = ends
        .filter(|found| !matches!(found.ending, Ending::Limit(_)))
        .count();
    Ok(Orders::Ways(ways))
}
