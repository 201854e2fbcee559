//! From instructions to the parts of a program that they come from.

use crate::nodes::Filling;
use crate::walk::Walk;
use bytecode::Code;
use codegen::Marks;
use go_text::Memory;
use std::alloc::Global;
use syntax::{NodeId, Tree};

/// The statements and operations that the instructions of a program come from, function by function.
#[derive(Drop)]
pub struct StatementMap {
    functions: Vec<FunctionMap>,
}

/// The statements and operations that the instructions of a function come from.
#[derive(Drop)]
pub(crate) struct FunctionMap {
    /// The function's own node.
    pub own: NodeId,
    /// The node that the instruction at each index comes from. The instructions after the last statement are left out.
    pub nodes: Vec<NodeId>,
}

impl StatementMap {
    /// The map of the program of this tree, which has this code with these marks.
    ///
    /// Errors: out of memory.
    pub fn new(
        alloc: Global,
        tree: &Tree,
        code: &Code,
        marks: &Marks,
    ) -> Result<StatementMap, Memory> {
        let parts = Walk::parts_of(alloc, tree.file(), marks.as_slice())?;
        let functions = Filling::functions_of(alloc, code, marks.as_slice(), parts.as_slice())?;
        Ok(StatementMap { functions })
    }

    /// The own node of what the instruction at `index` of function `function` comes from: of a call, a receive, a `make`, a
    /// `len`, a `cap`, a division or a shift that it does within an expression; else of the statement, the simple statement of a
    /// header or the clause of a `select`; of the function if it comes from none of these.
    pub fn node(&self, function: usize, index: usize) -> Option<NodeId> {
        let Some(map) = self.functions.get(function) else {
            return None;
        };
        Some(map.nodes.get(index).copied().unwrap_or(map.own))
    }
}
