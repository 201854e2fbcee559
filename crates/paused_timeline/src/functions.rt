//! The functions of a program, by the nodes of its tree.

use diagnostic_scope::ends::top_end;
use go_text::Memory;
use std::alloc::Global;
use syntax::{NodeId, TopNode};
use timeline::Site;

/// The nodes of a function, which follow each other.
#[derive(Clone, Copy)]
struct Nodes {
    first: NodeId,
    /// The number after the last one.
    end: NodeId,
}

/// The functions of a program, in their order.
#[derive(Drop)]
pub(crate) struct Functions {
    all: Vec<Nodes>,
}

impl Functions {
    /// The functions among these declarations, which are all of a file.
    ///
    /// Errors: out of memory.
    pub(crate) fn new(alloc: Global, tops: &[TopNode]) -> Result<Functions, Memory> {
        let mut all = Vec::new(alloc);
        let mut first = 0;
        for top in tops {
            let end = top_end(alloc, first, top);
            if let TopNode::Function(_) = top {
                all.push(Nodes { first, end })?;
            }
            first = end;
        }
        Ok(Functions { all })
    }

    /// The function that a node belongs to, and its index there; `None` if it belongs to none.
    pub(crate) fn site(&self, node: NodeId) -> Option<Site> {
        let function = self
            .all
            .as_slice()
            .partition_point(|nodes| nodes.end <= node);
        let first = self.all.get(function)?.first;
        Some(Site {
            function,
            index: node.checked_sub(first)? as usize,
        })
    }

    /// The node of a function at an index.
    pub(crate) fn node(&self, site: Site) -> Option<NodeId> {
        let first = self.all.get(site.function)?.first;
        first.checked_add(u32::try_from(site.index).ok()?)
    }

    /// The lines of the nodes of each function, from those of all nodes.
    ///
    /// Errors: out of memory.
    pub(crate) fn lines(&self, alloc: Global, lines: &[u32]) -> Result<Vec<Vec<u32>>, Memory> {
        let mut by_function = Vec::new(alloc);
        for nodes in self.all.iter() {
            let own = lines.get(nodes.first as usize..nodes.end as usize);
            by_function.push(Vec::from_slice(alloc, own.unwrap_or(&[]))?)?;
        }
        Ok(by_function)
    }
}
