//! What to write instead of the token at a syntax error.

use diagnostic_words::words::Words;

/// What to write.
#[derive(Clone, Copy)]
pub(crate) enum Hint<'t> {
    Plain(&'static str),
    /// A word of the program between two texts.
    Naming(&'static str, &'t str, &'static str),
    /// The name and the type of a variable to declare.
    Declare(&'t str, &'t str),
    /// A bracket that is still open, and its line.
    Open(&'t str, usize),
}

impl Hint<'_> {
    /// Appends the hint.
    pub(crate) fn push(&self, said: &mut Words) {
        match *self {
            Hint::Plain(text) => said.text(text),
            Hint::Naming(before, word, after) => {
                said.text(before);
                said.text(word);
                said.text(after);
            }
            Hint::Declare(name, written) => {
                said.text("the type stands after the name: var ");
                said.text(name);
                said.text(" ");
                said.text(written);
            }
            Hint::Open(mark, line) => {
                said.text("the ");
                said.text(mark);
                said.text(" of line ");
                said.number(i128::try_from(line).unwrap_or(0));
                said.text(" is still open");
            }
        }
    }
}
