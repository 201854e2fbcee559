//! Goroutines at the end of a run.

use diagnostic_words::words::Words;
use go_text::Memory;
use inspection::values::push_variables;
use reference_scope::scope::Scope;
use std::alloc::Global;
use syntax::NodeId;
use watched_goroutine::Wish;

/// A function that runs, by its number, and the node of the operation or the statement that it is at.
#[derive(Clone, Copy)]
pub struct Call {
    pub function: usize,
    pub node: NodeId,
}

/// A goroutine that has not ended.
#[derive(Drop)]
pub struct Goroutine {
    pub number: u64,
    /// Its clock.
    pub clock: u64,
    /// What it waits for; none if it is awake.
    pub wish: Option<Wish>,
    /// Whether it is awake and makes no other request before it ends.
    pub is_ending: bool,
    /// The functions that run, the one called last at the end.
    pub calls: Vec<Call>,
    /// The channels that it holds, as often as it does.
    pub held: Vec<u32>,
    /// The line with the variables of the function that was called last; empty if it has none or is not printed.
    pub variables: Vec<u8>,
}

impl Goroutine {
    /// The function that was called last.
    pub(crate) fn last(&self) -> Option<Call> {
        self.calls.last().copied()
    }
}

/// The line with the variables that a function sees; empty if there are none.
///
/// Errors: out of memory.
pub fn variables_line(alloc: Global, scope: &Scope<'_>) -> Result<Vec<u8>, Memory> {
    let mut said = Words::new(alloc);
    push_variables(&mut said, "  ", scope);
    Ok(said.into_bytes()?)
}
