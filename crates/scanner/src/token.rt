//! A token of a text.

use crate::kind::TokenKind;
use go_text::Span;

/// A token, and the bytes of the text that it is. A semicolon that a line's end inserted has an empty span.
#[derive(Clone, Copy, PartialEq, Eq)]
pub struct Token {
    pub kind: TokenKind,
    pub span: Span,
}
