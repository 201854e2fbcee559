//! The tokens that could come next at a syntax error.

use crate::nesting::Nesting;
use crate::place_of;
use crate::site::{NEWLINE, Site};
use diagnostic_typing::fault_of;
use diagnostic_words::words::Words;
use go_text::{Fault, Memory, Source};
use std::alloc::Global;

/// A piece of text for each token; names, numbers and strings have one each. `x` is any name that can be declared. Names of
/// built-in functions have one each too, since the grammar distinguishes them.
const PIECES: &str =
    "x 1 \"\" if return for go var select break continue print println close make len cap func type package \
main struct chan range else case default import const defer switch goto fallthrough interface map ( ) . <- ++ -- , := = += -= *= \
/= %= &= |= ^= <<= >>= &^= * / % + - & | ^ << >> &^ == != < <= > >= && || ! ~ ... : ; [ ] { }";

/// A name for tokens that could all come next: the name, and the tokens, separated by spaces.
#[derive(Clone, Copy)]
struct Wanted(&'static str, &'static str);

/// The best names come first. A name is printed if all of its tokens could come next and the first of them has no name yet. A token
/// that has none is printed as it is.
static WANTED: [Wanted; 37] = [
    Wanted(
        "a statement",
        "if x 1 ( { ; <- return for go var select break continue print println close make len cap",
    ),
    Wanted("an expression", "+ - ! ^ x 1 ( <- make len cap"),
    Wanted("a type", "chan x <- ("),
    Wanted("an operand", "1 x ( make len cap"),
    Wanted("a name", "x"),
    Wanted("a string", "\"\""),
    Wanted("a declaration", "func type"),
    Wanted("a simple statement", "print <- println close"),
    Wanted("package", "package"),
    Wanted("main", "main"),
    Wanted("struct", "struct"),
    Wanted("chan", "chan"),
    Wanted("if", "if"),
    Wanted("range", "range"),
    Wanted("print", "print"),
    Wanted("println", "println"),
    Wanted("close", "close"),
    Wanted("\"(\"", "("),
    Wanted("\")\"", ")"),
    Wanted("else", "else"),
    Wanted("case", "case"),
    Wanted("default", "default"),
    Wanted(LINE_END, ";"),
    Wanted("\".\"", "."),
    Wanted("\"<-\"", "<-"),
    Wanted("\"++\"", "++"),
    Wanted("\"--\"", "--"),
    Wanted("\",\"", ","),
    Wanted("\":=\"", ":="),
    Wanted(
        "an assignment operator",
        "+= = -= *= /= %= &= |= ^= <<= >>= &^=",
    ),
    Wanted("\"=\"", "="),
    Wanted(
        "an operator",
        "* / % + - & | ^ << >> &^ == != < <= > >= && ||",
    ),
    Wanted("\":\"", ":"),
    Wanted("func", "func"),
    Wanted("type", "type"),
    Wanted("\"{\"", "{"),
    Wanted("\"}\"", "}"),
];

/// The name of a semicolon that the end of a line implies.
const LINE_END: &str = "a newline";

/// The tokens that could come next at a syntax error.
#[derive(Drop)]
pub(crate) struct Expected {
    alloc: Global,
    /// The pieces of `PIECES` that the parser takes there.
    pieces: Vec<&'static str>,
}

impl Expected {
    /// The tokens that the parser takes after those before the one of the fault.
    pub(crate) fn at(
        alloc: Global,
        site: &Site<'_>,
        nesting: &Nesting,
    ) -> Result<Expected, Memory> {
        let beginning = beginning_of(alloc, site, nesting)?;
        let mut pieces = Vec::new(alloc);
        for piece in PIECES.split(' ') {
            let is_name = piece == "main" && is_among(pieces.as_slice(), "x");
            if !is_name && goes_on(alloc, beginning.as_str(), piece)? {
                pieces.push(piece)?;
            }
        }
        Ok(Expected { alloc, pieces })
    }

    /// Whether this token could come next.
    pub(crate) fn has(&self, piece: &str) -> bool {
        is_among(self.pieces.as_slice(), piece)
    }

    /// Whether all tokens of a name could come next.
    fn has_all(&self, wanted: &Wanted) -> bool {
        for piece in wanted.1.split(' ') {
            if !self.has(piece) {
                return false;
            }
        }
        true
    }

    /// The names of all tokens that could come next.
    fn names(&self) -> Result<Vec<&'static str>, Memory> {
        let mut names = Vec::new(self.alloc);
        let mut named = Vec::new(self.alloc);
        for wanted in &WANTED {
            let first = wanted.1.split(' ').next().unwrap_or("");
            if !is_among(named.as_slice(), first) && self.has_all(wanted) {
                names.push(wanted.0)?;
                for piece in wanted.1.split(' ') {
                    named.push(piece)?;
                }
            }
        }
        for &piece in self.pieces.as_slice() {
            if !is_among(named.as_slice(), piece) {
                names.push(piece)?;
            }
        }
        Ok(names)
    }
}

/// Whether a piece is among these.
fn is_among(pieces: &[&'static str], piece: &str) -> bool {
    for &one in pieces {
        if one == piece {
            return true;
        }
    }
    false
}

/// The source before a syntax error, from the declaration that the error is in, if there is one. What could follow depends on
/// nothing else.
fn beginning_of(alloc: Global, site: &Site<'_>, nesting: &Nesting) -> Result<String, Memory> {
    let (head, from) = match nesting.declaration {
        Some(index) => ("package main\n", start_of(site, index)),
        None => ("", 0),
    };
    let to = match site.at.checked_sub(1) {
        Some(last) => end_of(site, last),
        None => 0,
    };
    let piece = site.text.get(from..to).unwrap_or("");
    let tail = if site.before(1) == NEWLINE { " ;" } else { "" };
    Ok(format!(in alloc; "{head}{piece}{tail}")?)
}

/// The offset at which a token begins.
fn start_of(site: &Site<'_>, index: usize) -> usize {
    match site.tokens.get(index) {
        Some(token) => token.span.from as usize,
        None => 0,
    }
}

/// The offset at which a token ends.
fn end_of(site: &Site<'_>, index: usize) -> usize {
    match site.tokens.get(index) {
        Some(token) => token.span.to as usize,
        None => 0,
    }
}

/// Whether the error is in a header that has begun, and after which a block begins.
fn is_in_header(site: &Site<'_>) -> bool {
    let start = site.statement_start();
    match site.word_at(start) {
        "if" | "for" | "func" => start.saturating_add(1) < site.at,
        "else" | "select" => start < site.at,
        _ => false,
    }
}

/// Appends `, expected A, B or C`, if any token could come next.
pub(crate) fn push_expected(
    said: &mut Words,
    site: &Site<'_>,
    nesting: &Nesting,
    expected: &Expected,
) -> Result<(), Memory> {
    let names = expected.names()?;
    let brace_first = expected.has("{") && is_in_header(site);
    let mut printed = Vec::new(expected.alloc);
    if brace_first {
        printed.push("\"{\"")?;
    }
    for &name in names.as_slice() {
        if !(brace_first && name == "\"{\"") {
            printed.push(name)?;
        }
    }
    let ends_line = expected.has("}") || nesting.open.is_empty();
    push_names(said, printed.as_slice(), ends_line);
    Ok(())
}

/// Appends `, expected A, B or C`, if there are such names; a semicolon is a newline if `ends_line` holds.
fn push_names(said: &mut Words, names: &[&'static str], ends_line: bool) {
    for (index, &name) in names.iter().enumerate() {
        said.text(if index == 0 {
            ", expected "
        } else if index.saturating_add(1) == names.len() {
            " or "
        } else {
            ", "
        });
        said.text(if name == LINE_END && !ends_line {
            "\";\""
        } else {
            name
        });
    }
}

/// Whether a source that begins with `beginning` can go on with `piece`: then no fault is before the piece's end.
fn goes_on(alloc: Global, beginning: &str, piece: &str) -> Result<bool, Memory> {
    let text = format!(in alloc; "{beginning} {piece}")?;
    let Ok(source) = Source::new(text.into_bytes()) else {
        return Ok(false);
    };
    match fault_of(alloc, &source) {
        None => Ok(true),
        Some(Fault::Memory) => Err(Memory),
        Some(fault) => Ok(lies_after(&fault, beginning.len().saturating_add(1))),
    }
}

/// Whether a fault lies after the first `length` bytes.
fn lies_after(fault: &Fault, length: usize) -> bool {
    match place_of(fault) {
        Some(place) => place.span.from as usize > length,
        None => false,
    }
}
