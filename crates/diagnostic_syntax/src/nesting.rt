//! The brackets that are open at a syntax error.

use crate::site::Site;
use go_text::Memory;
use scanner::TokenKind;
use std::alloc::Global;

/// The brackets that are open at a token.
#[derive(Drop)]
pub(crate) struct Nesting {
    /// The indices of their tokens, the innermost last.
    pub open: Vec<usize>,
    /// The first `{` whose `}` is further left than the line of the `{` begins: its own `}` is missing, if one is.
    pub crossed: Option<usize>,
    /// The index of the `func` or `type` of the last declaration that begins outside of all brackets.
    pub declaration: Option<usize>,
}

impl Nesting {
    /// The brackets that are open before the token of a fault.
    pub(crate) fn of(alloc: Global, site: &Site<'_>) -> Result<Nesting, Memory> {
        let mut nesting = Nesting {
            open: Vec::new(alloc),
            crossed: None,
            declaration: None,
        };
        for index in 0..site.at {
            nesting.pass(site, index)?;
        }
        Ok(nesting)
    }

    /// Passes a token.
    fn pass(&mut self, site: &Site<'_>, index: usize) -> Result<(), Memory> {
        let Some(token) = site.tokens.get(index) else {
            return Ok(());
        };
        match token.kind {
            TokenKind::Func | TokenKind::TypeKeyword if self.open.is_empty() => {
                self.declaration = Some(index);
            }
            TokenKind::LeftBrace | TokenKind::LeftParenthesis | TokenKind::LeftBracket => {
                self.open.push(index)?;
            }
            TokenKind::RightBrace => self.close_brace(site, index),
            TokenKind::RightParenthesis | TokenKind::RightBracket => {
                let _closed = self.open.pop();
            }
            _ => {}
        }
        Ok(())
    }

    /// Passes a `}`.
    fn close_brace(&mut self, site: &Site<'_>, index: usize) {
        let Some(opening) = self.open.pop() else {
            return;
        };
        let stands_left = site.begins_line(index) && site.indent(index) < site.indent(opening);
        if stands_left && self.crossed.is_none() {
            self.crossed = Some(opening);
        }
    }

    /// The innermost bracket that is open.
    pub(crate) fn innermost(&self) -> Option<usize> {
        self.open.last().copied()
    }

    /// The `{` whose `}` is missing, as far as the lines' white space shows it.
    pub(crate) fn unclosed(&self) -> Option<usize> {
        match self.crossed {
            Some(opening) => Some(opening),
            None => self.innermost(),
        }
    }
}
