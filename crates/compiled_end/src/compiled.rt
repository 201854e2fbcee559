//! A program that is compiled, and what its code comes from.

use checker::Typed;
use codegen::{Marks, compile_marked};
use end_explanation::Call;
use go_text::Fault;
use goroutine_vm::Frame;
use statement_map::StatementMap;
use std::alloc::Global;
use std::sync::Arc;
use syntax::{FileNode, Tree};
use type_table::table::TypeTable;
use verifier::{Verified, verify};

/// A program that is compiled.
#[derive(Drop)]
pub(crate) struct Compiled<'t> {
    pub tree: &'t Tree,
    /// What is declared in it.
    pub table: TypeTable<'t>,
    pub code: Arc<Verified>,
    /// The parts of the source that the code comes from.
    pub marks: Marks,
    map: StatementMap,
}

impl<'t> Compiled<'t> {
    /// A checked program.
    ///
    /// Errors: out of memory.
    pub(crate) fn new(alloc: Global, typed: &'t Typed) -> Result<Compiled<'t>, Fault> {
        let table = typed.table(alloc)?;
        let (code, marks) = compile_marked(alloc, typed)?;
        let map = StatementMap::new(alloc, typed.tree(), &code, &marks)?;
        let verified = verify(alloc, code)?;
        let code = Arc::new(alloc, verified)?;
        Ok(Compiled {
            tree: typed.tree(),
            table,
            code,
            marks,
            map,
        })
    }

    /// The syntax tree of the file.
    pub(crate) fn file(&self) -> &'t FileNode {
        self.tree.file()
    }

    /// Where a function is whose next instruction is this one.
    pub(crate) fn call(&self, function: usize, index: usize) -> Call {
        Call {
            function,
            node: self.map.node(function, index).unwrap_or(0),
        }
    }

    /// Where a function that runs is. One that waits for another function is at its call, which is the instruction before the next one.
    pub(crate) fn call_of(&self, frame: &Frame, waits: bool) -> Call {
        let next = frame.place();
        let index = if waits { next.saturating_sub(1) } else { next };
        self.call(frame.function(), index)
    }
}
