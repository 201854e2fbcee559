//! What is wrong with a program.

use crate::record::Record;
use diagnostic::{Diagnostic, diagnostics};
use go_text::{Fault, Memory};
use std::alloc::Global;

/// The lines of what is wrong with the program in `file`, which this fault refuses: an object for each error that `diagnostics` finds.
///
/// Errors: out of memory.
pub fn error_lines(
    alloc: Global,
    file: &str,
    bytes: &[u8],
    fault: &Fault,
) -> Result<Vec<u8>, Memory> {
    let mut lines = Vec::new(alloc);
    let text = str::from_utf8(bytes).unwrap_or("");
    for found in diagnostics(alloc, text, fault)?.iter() {
        lines.append(&mut error_record(file, found).line(alloc)?)?;
    }
    Ok(lines)
}

/// The object of an error.
fn error_record<'r>(file: &'r str, found: &'r Diagnostic) -> Record<'r> {
    let (code, name) = match found.fault.title().split_once(' ') {
        Some((number, name)) => (number.parse::<u8>().unwrap_or(0), name),
        None => (0, ""),
    };
    let position = found.position.as_ref();
    Record::Error {
        file,
        line: position.map(|position| position.line),
        column: position.map(|position| position.column),
        code,
        name,
        rule: match found.fault {
            Fault::Typing { rule, .. } => Some(rule as u8),
            Fault::Limit { kind, .. } => Some(kind as u8),
            _ => None,
        },
        message: found.message.as_str(),
        hint: found.hint.as_ref().map(|hint| hint.as_str()),
    }
}
