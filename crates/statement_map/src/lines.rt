//! The lines of a source file on which the nodes of its tree begin.

use go_text::{Memory, Source};
use std::alloc::Global;
use syntax::{NodeId, Tree};

/// A program's tree, and where the lines of its source file end.
#[derive(Drop)]
pub struct NodeLines<'a> {
    tree: &'a Tree,
    /// The offsets of the newlines, in bytes.
    ends: Vec<u32>,
}

impl<'a> NodeLines<'a> {
    /// The lines of the program of this tree.
    ///
    /// Errors: out of memory.
    pub fn new(alloc: Global, source: &Source, tree: &'a Tree) -> Result<NodeLines<'a>, Memory> {
        Ok(NodeLines {
            tree,
            ends: ends_of(alloc, source)?,
        })
    }

    /// The line on which a node begins, counted from 1.
    pub fn line(&self, node: NodeId) -> u32 {
        if node >= self.tree.count() {
            return 1;
        }
        let from = self.tree.span(node).from;
        let before = self.ends.as_slice().partition_point(|end| *end < from);
        u32::try_from(before).unwrap_or(u32::MAX).saturating_add(1)
    }

    /// The line of each node, by its number.
    ///
    /// Errors: out of memory.
    pub fn all(&self, alloc: Global) -> Result<Vec<u32>, Memory> {
        let mut lines = Vec::new(alloc);
        for node in 0..self.tree.count() {
            lines.push(self.line(node))?;
        }
        Ok(lines)
    }
}

/// The offsets of the newlines of a source file, in bytes.
fn ends_of(alloc: Global, source: &Source) -> Result<Vec<u32>, Memory> {
    let mut ends = Vec::new(alloc);
    for (offset, byte) in source.as_str().as_bytes().iter().enumerate() {
        if *byte == b'\n' {
            ends.push(offset as u32)?;
        }
    }
    Ok(ends)
}
