//! What else is wrong with a program that has no syntax tree: the first error of each other declaration. No error that is found
//! follows from another one: a declaration is read alone, and one whose brackets are not closed is left out.

use crate::parts::{Part, parts_of};
use crate::readable::{Readable, located, read_tokens};
use diagnostic_syntax::place_of;
use diagnostic_typing::{Other, OtherList, blanked, fault_of};
use go_text::{Fault, Memory, Source, Span};
use scanner::TokenKind;
use std::alloc::Global;

/// The beginning of each program.
const PACKAGE: &str = "package main\n";

/// The first errors of the declarations of a program other than the one that `fault` is in, in the order of the program. There are
/// none if the program does not begin with `package main`, as then nothing is known of what follows.
///
/// # Errors
///
/// `Memory` if memory is refused.
pub(crate) fn others_read(alloc: Global, text: &str, fault: &Fault) -> Result<OtherList, Memory> {
    let mut others = OtherList::new(alloc);
    let Some(place) = place_of(fault) else {
        return Ok(others);
    };
    let Some(read) = read_tokens(alloc, text)? else {
        return Ok(others);
    };
    let Some(clause) = package_clause(&read) else {
        return Ok(others);
    };
    let search = Search {
        alloc,
        text,
        read: &read,
        clause,
    };
    for part in parts_of(alloc, &read)?.as_slice() {
        if part.is_after(fault, place.span.from) {
            search.put(&mut others, *part, place.span.from)?;
        }
    }
    Ok(others)
}

/// The span of `package main`, if a program begins with it.
fn package_clause(read: &Readable) -> Option<Span> {
    let first = read.tokens.first()?;
    let second = read.tokens.get(1)?;
    let span = Span {
        from: first.span.from,
        to: second.span.to,
    };
    let name = read
        .text()
        .get(second.span.from as usize..second.span.to as usize);
    if first.kind == TokenKind::Package && name == Some("main") {
        Some(span)
    } else {
        None
    }
}

/// A program in which errors are looked for.
#[derive(Clone, Copy)]
struct Search<'s> {
    alloc: Global,
    /// The program.
    text: &'s str,
    /// The program as far as its tokens can be read.
    read: &'s Readable,
    /// The span of `package main`.
    clause: Span,
}

impl Search<'_> {
    /// Keeps the first error of a part, if it has one that does not lie at the offset `known`. It is only counted, without a copy of
    /// the program, if another one was only counted before.
    fn put(&self, others: &mut OtherList, part: Part, known: u32) -> Result<(), Memory> {
        if let Some(fault) = self.read.wrong_token(part.span) {
            let text = format!(in self.alloc; "{}", self.text)?;
            return others.keep(Other { fault, text });
        }
        if !part.is_closed || self.is_right(part.span)? {
            return Ok(());
        }
        if others.more > 0 {
            others.more = others.more.saturating_add(1);
            return Ok(());
        }
        let text = self.alone(part.span)?;
        let Ok(source) = Source::new(Vec::from_slice(self.alloc, text.as_bytes())?) else {
            return Ok(());
        };
        match fault_of(self.alloc, &source) {
            Some(Fault::Memory) => Err(Memory),
            Some(fault) if part.has(&fault) && !lies_at(&fault, known) => others.keep(Other {
                fault: located(&source, fault),
                text,
            }),
            _ => Ok(()),
        }
    }

    /// Whether a part can be read.
    fn is_right(&self, span: Span) -> Result<bool, Memory> {
        let part = self.read.text().get(span.from as usize..span.to as usize);
        let part = part.unwrap_or("");
        let clause = if span.from > 0 { PACKAGE } else { "" };
        let text = format!(in self.alloc; "{clause}{part}")?;
        let length = text.len();
        let Ok(source) = Source::new(text.into_bytes()) else {
            return Ok(true);
        };
        match fault_of(self.alloc, &source) {
            Some(Fault::Memory) => Err(Memory),
            Some(fault) => Ok(!lies_before(&fault, length)),
            None => Ok(true),
        }
    }

    /// The program with blanks instead of all but the package clause and a part.
    fn alone(&self, span: Span) -> Result<String, Memory> {
        let between = Span {
            from: self.clause.to,
            to: span.from,
        };
        let after = Span {
            from: span.to,
            to: u32::MAX,
        };
        let text = blanked(self.alloc, self.read.text(), between)?;
        blanked(self.alloc, text.as_str(), after)
    }
}

/// Whether a fault lies in the first `length` bytes.
fn lies_before(fault: &Fault, length: usize) -> bool {
    match place_of(fault) {
        Some(place) => (place.span.from as usize) < length,
        None => false,
    }
}

/// Whether a fault lies at an offset.
fn lies_at(fault: &Fault, offset: u32) -> bool {
    match place_of(fault) {
        Some(place) => place.span.from == offset,
        None => false,
    }
}
