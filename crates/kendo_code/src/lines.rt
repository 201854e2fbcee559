//! Where in a source file the instructions of its code come from.

use bytecode::Code;
use channel_names::mention_at;
use go_text::{Memory, Source};
use statement_map::{NodeLines, StatementMap};
use std::alloc::Global;
use syntax::Tree;
use timeline::{Mention, Recording};

/// For each function of the code, the line of each instruction, counted from 1: that on which the operation or the statement
/// that it comes from begins.
///
/// Errors: out of memory.
pub(crate) fn lines_of(
    alloc: Global,
    source: &Source,
    tree: &Tree,
    code: &Code,
    map: &StatementMap,
) -> Result<Vec<Vec<u32>>, Memory> {
    let text = NodeLines::new(alloc, source, tree)?;
    let mut lines = Vec::new(alloc);
    for (number, function) in code.functions().iter().enumerate() {
        let mut here = Vec::new(alloc);
        for index in 0..function.instrs().len() {
            here.push(text.line(map.node(number, index).unwrap_or(0)))?;
        }
        lines.push(here)?;
    }
    Ok(lines)
}

/// What the program calls the channels of a recording of its run.
///
/// Errors: out of memory.
pub(crate) fn mentions_of(
    alloc: Global,
    tree: &Tree,
    map: &StatementMap,
    recording: &Recording,
) -> Result<Vec<Mention>, Memory> {
    let sites = recording.channel_sites(alloc)?;
    let mut mentions = Vec::new(alloc);
    for site in sites.iter() {
        let node = map.node(site.function, site.index).unwrap_or(0);
        mentions.push(mention_at(alloc, tree.file(), node, *site)?)?;
    }
    Ok(mentions)
}
