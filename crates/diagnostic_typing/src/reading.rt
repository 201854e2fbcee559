//! The tree of a text, or what is wrong with the text as far as to its tree.

use go_text::{Fault, Memory, Source};
use parser::parse;
use scanner::{Token, scan};
use std::alloc::Global;
use syntax::Tree;

/// The tree of these tokens of a text.
///
/// Errors: the first fault, if there is one.
fn tree_of(alloc: Global, source: &Source, tokens: &[Token]) -> Result<Tree, Fault> {
    if u32::try_from(tokens.len()).is_err() {
        return Err(Fault::TooLong);
    }
    parse(alloc, source, tokens)
}

/// The first fault of the tokens of a text or of its tree, if it has one; `Memory` if a request for memory was refused.
pub fn fault_of(alloc: Global, source: &Source) -> Option<Fault> {
    match scan(alloc, source) {
        Ok(tokens) => match tree_of(alloc, source, tokens.as_slice()) {
            Ok(_) => None,
            Err(fault) => Some(fault),
        },
        Err(fault) => Some(fault),
    }
}

/// A text, and its tree.
#[derive(Drop)]
pub(crate) struct ReadText {
    pub source: Source,
    pub tree: Tree,
}

/// Reads a text; `None` if it has a fault.
///
/// Errors: a request for memory was refused.
pub(crate) fn read(alloc: Global, text: &str) -> Result<Option<ReadText>, Memory> {
    let bytes = Vec::from_slice(alloc, text.as_bytes())?;
    let Ok(source) = Source::new(bytes) else {
        return Ok(None);
    };
    let tree = match scan(alloc, &source) {
        Ok(tokens) => tree_of(alloc, &source, tokens.as_slice()),
        Err(fault) => Err(fault),
    };
    match tree {
        Ok(tree) => Ok(Some(ReadText { source, tree })),
        Err(Fault::Memory) => Err(Memory),
        Err(_) => Ok(None),
    }
}
