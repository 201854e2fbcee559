//! The tokens around the one at which no tree goes on.

use go_text::Place;
use scanner::{Token, TokenKind};

/// How many bytes of a piece of the source a sentence shows at most.
const MOST_SHOWN: usize = 60;

/// The text of a semicolon that the end of a line implies.
pub(crate) const NEWLINE: &str = "\n";

/// The tokens of a program, and the one at which the syntax error is.
#[derive(Clone, Copy)]
pub(crate) struct Site<'t> {
    pub text: &'t str,
    pub tokens: &'t [Token],
    /// The index of that token; the number of tokens, if the fault lies after all of them.
    pub at: usize,
}

/// The text before an offset on its line.
pub fn line_before(text: &str, offset: u32) -> &str {
    let before = text.get(..offset as usize).unwrap_or("");
    before.rsplit('\n').next().unwrap_or("")
}

/// The source text at `place` up to the end of its line, but not more than `MOST_SHOWN` bytes.
pub fn piece_at(text: &str, place: Place) -> &str {
    let from = place.span.from as usize;
    let to = (place.span.to as usize).min(text.len());
    let piece = text.get(from..to).unwrap_or("");
    let line = piece.split('\n').next().unwrap_or("");
    shortened(line)
}

/// The longest beginning of a line that has whole characters and at most `MOST_SHOWN` bytes.
pub fn shortened(line: &str) -> &str {
    let most = line.len().min(MOST_SHOWN);
    for cut in 0..4 {
        if let Some(piece) = line.get(..most.saturating_sub(cut)) {
            return piece;
        }
    }
    ""
}

impl<'t> Site<'t> {
    /// The site of a fault at `place`.
    pub(crate) fn new(text: &'t str, tokens: &'t [Token], place: Place) -> Site<'t> {
        let from = place.span.from;
        let at = tokens
            .iter()
            .position(|token| token.span.from >= from)
            .unwrap_or(tokens.len());
        Site { text, tokens, at }
    }

    /// The text of the token with this index; `NEWLINE` for the end of a line, and nothing if there is no such token.
    pub(crate) fn word_at(&self, index: usize) -> &'t str {
        let Some(token) = self.tokens.get(index) else {
            return "";
        };
        let span = token.span;
        let word = self
            .text
            .get(span.from as usize..span.to as usize)
            .unwrap_or("");
        if word.is_empty() { NEWLINE } else { word }
    }

    /// The text of the token of the fault.
    pub(crate) fn found(&self) -> &'t str {
        self.word_at(self.at)
    }

    /// The text of the token that is `count` tokens before that of the fault.
    pub(crate) fn before(&self, count: usize) -> &'t str {
        match self.at.checked_sub(count) {
            Some(index) => self.word_at(index),
            None => "",
        }
    }

    /// The text of the token that is `count` tokens after that of the fault.
    pub(crate) fn after(&self, count: usize) -> &'t str {
        self.word_at(self.at.saturating_add(count))
    }

    /// Whether the token with this index is a name.
    pub(crate) fn is_name(&self, index: usize) -> bool {
        match self.tokens.get(index) {
            Some(token) => token.kind == TokenKind::Name,
            None => false,
        }
    }

    /// Whether the token `count` tokens before that of the fault is a name.
    pub(crate) fn is_name_before(&self, count: usize) -> bool {
        match self.at.checked_sub(count) {
            Some(index) => self.is_name(index),
            None => false,
        }
    }

    /// The text before the token with this index, on its line.
    pub(crate) fn line_before(&self, index: usize) -> &'t str {
        match self.tokens.get(index) {
            Some(token) => line_before(self.text, token.span.from),
            None => "",
        }
    }

    /// The text before the fault on its line, without the white space around it.
    pub(crate) fn line(&self) -> &'t str {
        self.line_before(self.at).trim()
    }

    /// Whether the token with this index is the first one of its line.
    pub(crate) fn begins_line(&self, index: usize) -> bool {
        self.line_before(index).trim().is_empty()
    }

    /// How many bytes of white space the line of the token with this index begins with.
    pub(crate) fn indent(&self, index: usize) -> usize {
        let before = self.line_before(index);
        before.len().saturating_sub(before.trim_start().len())
    }

    /// The line of the token with this index, counted from 1.
    pub(crate) fn line_number(&self, index: usize) -> usize {
        let Some(token) = self.tokens.get(index) else {
            return 0;
        };
        let before = self.text.get(..token.span.from as usize).unwrap_or("");
        before.split('\n').count()
    }

    /// Whether the fault lies at the end of the program.
    pub(crate) fn is_at_end(&self) -> bool {
        match self.tokens.get(self.at) {
            Some(token) => token.span.from as usize >= self.text.len(),
            None => true,
        }
    }

    /// The index of the first token of the statement, header or field in which the fault lies.
    pub(crate) fn statement_start(&self) -> usize {
        self.start_before(self.at)
    }

    /// The index of the first token of the statement, header or field that the token with this index is in.
    pub(crate) fn start_before(&self, index: usize) -> usize {
        let mut start = 0;
        for before in 0..index {
            if matches!(self.word_at(before), "\n" | ";" | "{" | "}") {
                start = before.saturating_add(1);
            }
        }
        start
    }

    /// The source text from the token with the index `first` to the one with the index `last`, if they are on one line.
    pub(crate) fn between(&self, first: usize, last: usize) -> Option<&'t str> {
        let from = self.tokens.get(first)?.span.from;
        let to = self.tokens.get(last)?.span.to;
        let piece = self.text.get(from as usize..to as usize)?;
        if piece.contains('\n') {
            None
        } else {
            Some(piece)
        }
    }
}
