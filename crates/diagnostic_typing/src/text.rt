//! A program's text, and the locations of the nodes of its tree.

use diagnostic_words::words::Words;
use go_text::Source;
use syntax::{NodeId, TopNode, Tree};

/// A text and its tree.
#[derive(Clone, Copy)]
pub(crate) struct Text<'a> {
    pub source: &'a Source,
    pub tree: &'a Tree,
}

impl<'a> Text<'a> {
    /// A text, and its tree.
    pub(crate) fn new(source: &'a Source, tree: &'a Tree) -> Text<'a> {
        Text { source, tree }
    }

    /// The declarations of the text.
    pub(crate) fn tops(&self) -> &'a [TopNode] {
        self.tree.file().tops.as_slice()
    }

    /// Appends the line and the column at which a node begins.
    pub(crate) fn push_position(&self, said: &mut Words, node: NodeId) {
        if node < self.tree.count() {
            let position = self.source.line_column(self.tree.span(node).from);
            said.number(i128::from(position.line));
            said.text(":");
            said.number(i128::from(position.column));
        }
    }
}
