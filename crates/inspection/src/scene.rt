//! The program, and what is where in it.

use diagnostic_words::excerpt::{push_excerpt, push_shown};
use diagnostic_words::words::Words;
use go_text::{Position, Source, Span};
use std::alloc::Global;
use syntax::{NodeId, Tree};
use type_table::table::TypeTable;

/// How many characters of a line are shown at most.
const MOST_SHOWN: usize = 80;

/// The word with which a function begins, and nothing else does.
const FUNCTION: &str = "func";

/// A program's text, tree and declarations, and the path of its file.
#[derive(Clone, Copy)]
pub struct Scene<'a, 't> {
    pub alloc: Global,
    pub path: &'a str,
    pub source: &'a Source,
    pub tree: &'a Tree,
    pub table: &'a TypeTable<'t>,
}

impl<'a> Scene<'a, '_> {
    /// Appends `FILE:LINE:COLUMN` of a node; of a function's own node, where the function ends.
    pub fn push_location(self, said: &mut Words, node: NodeId) {
        said.text(self.path);
        said.text(":");
        self.push_position(said, node);
    }

    /// Appends `LINE:COLUMN` of a node, as `push_location` does.
    pub fn push_position(self, said: &mut Words, node: NodeId) {
        let Position { line, column } = self.source.line_column(self.span(node).from);
        said.number(i128::from(line));
        said.text(":");
        said.number(i128::from(column));
    }

    /// Appends the line of the source in which a node begins, with marks under it; of a function's own node, the line in which the function
    /// ends.
    pub fn push_excerpt(self, said: &mut Words, node: NodeId) {
        push_excerpt(said, self.source.as_str(), self.span(node));
    }

    /// Appends what the line has in which a node begins, from there on.
    pub(crate) fn push_text(self, said: &mut Words, node: NodeId) {
        let line = self.text(self.span(node));
        let line = line.split('\n').next().unwrap_or("").trim_end();
        match line.char_indices().nth(MOST_SHOWN) {
            Some((end, _)) => {
                push_shown(said, line.get(..end).unwrap_or(""));
                said.text(" ..");
            }
            None => push_shown(said, line),
        }
    }

    /// Appends the name of the function of a number.
    pub fn push_function(self, said: &mut Words, number: usize) {
        if let Some(function) = self.table.functions.get(number) {
            said.name(function.name);
        }
    }

    /// The bytes of the text that a node takes; of a function's own node, its last brace.
    fn span(self, node: NodeId) -> Span {
        if node >= self.tree.count() {
            return Span { from: 0, to: 0 };
        }
        let span = self.tree.span(node);
        if is_function(self.text(span)) {
            return Span {
                from: span.to.saturating_sub(1),
                to: span.to,
            };
        }
        span
    }

    /// The text from where a span begins.
    fn text(self, span: Span) -> &'a str {
        self.source.as_str().get(span.from as usize..).unwrap_or("")
    }
}

/// Whether a function begins here.
fn is_function(text: &str) -> bool {
    match text.strip_prefix(FUNCTION) {
        Some(rest) => match rest.chars().next() {
            Some(next) => !next.is_alphanumeric() && next != '_',
            None => false,
        },
        None => false,
    }
}
