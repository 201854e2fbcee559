//! The parts of a program that can be read alone.

use crate::readable::Readable;
use diagnostic_syntax::place_of;
use go_text::{Fault, Memory, Span};
use scanner::{Token, TokenKind};
use std::alloc::Global;

/// A declaration and what follows it up to the next one, or what is before the first one.
#[derive(Clone, Copy)]
pub(crate) struct Part {
    pub span: Span,
    /// Whether it begins with `func` or `type`.
    is_declaration: bool,
    /// Whether each bracket in it is closed in it.
    pub is_closed: bool,
}

impl Part {
    /// Whether a fault lies in the part, not after it.
    pub(crate) fn has(&self, fault: &Fault) -> bool {
        match place_of(fault) {
            Some(place) => self.span.from <= place.span.from && place.span.from < self.span.to,
            None => false,
        }
    }

    /// Whether the part is another one than that of `fault`, which lies at the offset `from`. A syntax error at the beginning of a
    /// declaration belongs to what is before it.
    pub(crate) fn is_after(&self, fault: &Fault, from: u32) -> bool {
        let begins = self.is_declaration && self.span.from == from;
        !self.has(fault) || (begins && matches!(fault, Fault::Syntax(_)))
    }
}

/// The brackets that are open, whatever brackets they are.
#[derive(Clone, Copy)]
struct Brackets {
    open: usize,
    /// Whether more were closed than were open.
    is_crossed: bool,
}

impl Brackets {
    /// No brackets.
    const NONE: Brackets = Brackets {
        open: 0,
        is_crossed: false,
    };

    /// Passes a token.
    fn pass(&mut self, kind: TokenKind) {
        match kind {
            TokenKind::LeftBrace | TokenKind::LeftParenthesis | TokenKind::LeftBracket => {
                self.open = self.open.saturating_add(1);
            }
            TokenKind::RightBrace | TokenKind::RightParenthesis | TokenKind::RightBracket => {
                self.is_crossed = self.is_crossed || self.open == 0;
                self.open = self.open.saturating_sub(1);
            }
            _ => {}
        }
    }

    /// Whether all are closed.
    fn are_closed(&self) -> bool {
        self.open == 0 && !self.is_crossed
    }
}

/// Whether all brackets of these tokens are closed.
fn are_closed(tokens: &[Token]) -> bool {
    let mut brackets = Brackets::NONE;
    for token in tokens {
        brackets.pass(token.kind);
    }
    brackets.are_closed()
}

/// Whether a declaration begins with a token, the first of its line, in a program whose brackets are all closed.
fn begins_any(kind: TokenKind) -> bool {
    begins_own(kind) || matches!(kind, TokenKind::Const | TokenKind::Import | TokenKind::Var)
}

/// Whether a function or a type is declared after a token.
fn begins_own(kind: TokenKind) -> bool {
    matches!(kind, TokenKind::Func | TokenKind::TypeKeyword)
}

/// Whether a token touches the one after it, as that of a function without a name does.
fn touches(token: &Token, next: Option<&Token>) -> bool {
    match next {
        Some(next) => next.span.from == token.span.to,
        None => true,
    }
}

/// Whether a line begins at an offset.
fn begins_line(text: &str, offset: u32) -> bool {
    match text.get(..offset as usize) {
        Some(before) => before.is_empty() || before.ends_with("\n"),
        None => false,
    }
}

/// The parts of a program, in its order: each begins with `func` or `type` as the first token of a line that is not indented, but
/// for the first part. If all brackets of the program are closed, `const`, `import` and `var` count as well, and none of
/// these words in brackets does.
pub(crate) fn parts_of(alloc: Global, read: &Readable) -> Result<Vec<Part>, Memory> {
    let tokens = read.tokens.as_slice();
    let is_closed = are_closed(tokens);
    let mut parts = Vec::new(alloc);
    let mut part = Part {
        span: Span { from: 0, to: 0 },
        is_declaration: false,
        is_closed: true,
    };
    let mut brackets = Brackets::NONE;
    for (index, token) in tokens.iter().enumerate() {
        let begins = if is_closed {
            brackets.open == 0 && begins_any(token.kind)
        } else {
            begins_own(token.kind) && !touches(token, tokens.get(index.saturating_add(1)))
        };
        if begins && begins_line(read.text(), token.span.from) {
            parts.push(part.ending(token.span.from, brackets))?;
            part = Part::beginning(token);
            brackets = Brackets::NONE;
        }
        brackets.pass(token.kind);
    }
    parts.push(part.ending(read.end(), brackets))?;
    Ok(parts)
}

impl Part {
    /// A part that begins with a token.
    fn beginning(token: &Token) -> Part {
        Part {
            span: token.span,
            is_declaration: begins_own(token.kind),
            is_closed: true,
        }
    }

    /// The part if it ends at the offset `to`, and these brackets are open then.
    fn ending(self, to: u32, brackets: Brackets) -> Part {
        Part {
            span: Span {
                from: self.span.from,
                to,
            },
            is_closed: brackets.are_closed(),
            ..self
        }
    }
}
