//! The tokens of a program, and the nodes of its tree, as lines.

use crate::kinds::kind_name;
use go_text::{Fault, Source, Span};
use parser::parse;
use row_format::row_error::{RowError, shown};
use scanner::{Token, scan};
use std::alloc::Global;
use syntax::Tree;

/// The tokens of a program, one a line: its kind, where it begins and ends, and its bytes.
pub fn tokens(alloc: Global, text: &[u8]) -> Result<Vec<u8>, RowError> {
    let source = Source::new(Vec::from_slice(alloc, text)?)?;
    let mut lines = String::new(alloc);
    for Token { kind, span } in scan(alloc, &source)? {
        let place = placed(alloc, text, span)?;
        let name = kind_name(kind);
        writeln!(lines, "{name} {place}")?;
    }
    Ok(lines.into_bytes())
}

/// The nodes of a program's tree, one a line, in the order of their numbers: where it begins and ends, and its bytes.
pub fn spans(alloc: Global, text: &[u8]) -> Result<Vec<u8>, RowError> {
    let tree = tree(alloc, text)?;
    let mut lines = String::new(alloc);
    for node in 0..tree.count() {
        let place = placed(alloc, text, tree.span(node))?;
        writeln!(lines, "{place}")?;
    }
    Ok(lines.into_bytes())
}

/// Where a span begins and ends, and its bytes.
fn placed(alloc: Global, text: &[u8], span: Span) -> Result<String, RowError> {
    let Span { from, to } = span;
    let bytes = text
        .get(from as usize..to as usize)
        .unwrap_or(b"".as_slice());
    let bytes = shown(alloc, bytes, 0)?;
    Ok(format!(in alloc; "{from} {to} {bytes}")?)
}

/// The tree of a program.
fn tree(alloc: Global, text: &[u8]) -> Result<Tree, Fault> {
    let source = Source::new(Vec::from_slice(alloc, text)?)?;
    let tokens = scan(alloc, &source)?;
    if u32::try_from(tokens.len()).is_err() {
        return Err(Fault::TooLong);
    }
    parse(alloc, &source, tokens.as_slice())
}
