//! What is wrong with a program: as data, and in sentences, with the line of the program and marks under the location.
#![tactic(auto)]

ghost use Rattle.std.specs.Prelude.{◌≡◌, ◌++◌, IfOk, codes, decimal, string_bytes};
ghost use Rattle.diagnostic.specs.Diagnostics.{BeginsWith, IsDiagnostic, IsOf, heading_at, position_of};
ghost use Rattle.diagnostic_syntax.specs.Places.{place_of};

mod advice;
mod declaration;
mod hint;
mod parts;
mod phrase;
mod readable;
mod recovery;
mod sentence;

use crate::advice::Advice;
pub use crate::advice::Diagnostic;
use crate::recovery::others_read;
use diagnostic_syntax::place_of;
use diagnostic_typing::{OtherList, others};
use go_text::{Fault, Memory, Place, Position};
use std::alloc::{AllocError, Global};
use typing_rules::violation::Violation;

/// What is wrong with a program: `FILE:LINE:COLUMN: SENTENCE` if the fault has a location, else `FILE: SENTENCE`. After it, if
/// there is a location, come its line of the program and a line with marks under it, and if one is known a line `hint: ..` with
/// what to write instead. FILE is the path as it was typed.
///
/// # Errors
///
/// `Memory` if memory is refused.
pub fn explanation(alloc: Global, path: &str, text: &str, fault: &Fault) -> Result<Vec<u8>, Memory>
    ensures { IfOk result (λ printed. IsDiagnostic path.now fault.now printed.items) }
{
    let lines = Advice::on(alloc, text, fault)?.into_lines(text, fault)?;
    headed(alloc, path, fault, lines.as_slice())
}

/// What is wrong with a program, as `explanation` has it, and then what else is wrong with it, as `diagnostics` finds it. If there is
/// more than that, a last line says how much.
///
/// # Errors
///
/// `Memory` if memory is refused.
pub fn explanations(alloc: Global, path: &str, text: &str, fault: &Fault) -> Result<Vec<u8>, Memory>
    ensures { IfOk result (λ printed. IsDiagnostic path.now fault.now printed.items) }
{
    let mut lines = Advice::on(alloc, text, fault)?.into_lines(text, fault)?;
    let others = others_explained(alloc, path, text, fault)?;
    lines.extend_from_slice(others.as_slice())?;
    headed(alloc, path, fault, lines.as_slice())
}

/// What is wrong with a program, the given fault first. Others follow in the order of the program, nine at most: if the fault is a
/// typing rule or a limit at a node of the program's tree, the first violation of each other declaration, or of each other
/// function; else the first error of each other declaration that keeps it from being read. None of them follows from another one.
///
/// # Errors
///
/// `Memory` if memory is refused.
pub fn diagnostics(alloc: Global, text: &str, fault: &Fault) -> Result<Vec<Diagnostic>, Memory>
    ensures { IfOk result (λ found. BeginsWith fault.now found.items) }
{
    let first = diagnostic_of(alloc, text, fault)?;
    let mut others = others_found(alloc, text, fault)?;
    let mut found = Vec::new(alloc);
    found.push(first)?;
    found.append(&mut others)?;
    Ok(found)
}

/// What is wrong with a program by this fault of it.
fn diagnostic_of(alloc: Global, text: &str, fault: &Fault) -> Result<Diagnostic, Memory>
    ensures { IfOk result (IsOf fault.now) }
{
    let (message, hint) = Advice::on(alloc, text, fault)?.into_strings(alloc)?;
    Ok(Diagnostic {
        fault: *fault,
        position: position_of(place_of(fault)),
        message,
        hint,
    })
}

/// What else is wrong with a program than `fault`.
fn others_found(alloc: Global, text: &str, fault: &Fault) -> Result<Vec<Diagnostic>, Memory> {
    let mut found = Vec::new(alloc);
    for other in others_of(alloc, text, fault)?.kept.as_slice() {
        found.push(diagnostic_of(alloc, other.text.as_str(), &other.fault)?)?;
    }
    Ok(found)
}

/// The heading of a fault, and what is wrong after it.
fn headed(alloc: Global, path: &str, fault: &Fault, lines: &[u8]) -> Result<Vec<u8>, Memory>
    ensures { IfOk result (λ printed. IsDiagnostic path.now fault.now printed.items) }
{
    let place = place_of(fault);
    let heading = heading(alloc, path, position_of(place))?;
    let mut whole = heading.into_bytes();
    whole.extend_from_slice(lines)?;
    Ok(whole)
}

/// The violation that a program is refused for, if it is one at a node of its tree.
fn violation_of(fault: &Fault) -> Option<Violation> {
    match *fault {
        Fault::Typing { rule, node, .. } => Some(Violation::Broken(rule, node)),
        Fault::Limit {
            kind,
            node: Some(node),
            ..
        } => Some(Violation::Exceeded(kind, node)),
        _ => None,
    }
}

/// The faults of a program other than `fault`.
fn others_of(alloc: Global, text: &str, fault: &Fault) -> Result<OtherList, Memory> {
    match violation_of(fault) {
        Some(violation) => others(alloc, text, violation),
        None => others_read(alloc, text, fault),
    }
}

/// The explanations of what else is wrong with a program than `fault`, and how many more there are.
fn others_explained(
    alloc: Global,
    path: &str,
    text: &str,
    fault: &Fault,
) -> Result<Vec<u8>, Memory> {
    let mut printed = Vec::new(alloc);
    let found = others_of(alloc, text, fault)?;
    for other in found.kept.as_slice() {
        let one = explanation(alloc, path, other.text.as_str(), &other.fault)?;
        printed.extend_from_slice(one.as_slice())?;
    }
    if found.is_cut {
        printed.extend_from_slice(b"and more\n")?;
    } else if found.more > 0 {
        let count = found.more;
        let line = format!(in alloc; "and {count} more\n")?;
        printed.extend_from_slice(line.as_str().as_bytes())?;
    }
    Ok(printed)
}

/// `FILE: `, or `FILE:LINE:COLUMN: ` if line and column are known.
fn heading(alloc: Global, path: &str, position: Option<Position>) -> Result<String, AllocError>
    ensures { IfOk result (λ text. string_bytes text ≡ heading_at path.now position) }
{
    match position {
        Some(position) => placed_heading(alloc, path, position.line, position.column),
        None => format!(in alloc; "{path}: "),
    }
}

/// `FILE:LINE:COLUMN: `.
fn placed_heading(alloc: Global, path: &str, line: u32, column: u32) -> Result<String, AllocError>
    ensures { IfOk result (λ text. string_bytes text ≡ path.now ++ (codes ":" ++ (decimal line ++ (codes ":" ++ (decimal column ++ codes ": "))))) }
{
    format!(in alloc; "{path}:{line}:{column}: ")
}

/// The line and the column of a location, if there is one and they are known.
fn position_of(place: Option<Place>) -> Option<Position>
    ensures { result ≡ position_of place }
{
    match place {
        Some(place) => place.position,
        None => None,
    }
}
