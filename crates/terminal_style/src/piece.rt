//! Pieces of a text, and how a terminal shows them.

ghost use Rattle.std.specs.Prelude.{◌≡◌, IfOk};
ghost use Rattle.terminal_style.specs.Styles.{begin_of, end_of, shown_of};

use std::alloc::{AllocError, Global};

/// How a piece of an explanation is shown.
#[derive(Clone, Copy, PartialEq, Eq)]
pub enum Style {
    /// As it is.
    Plain,
    /// A location: bold.
    Location,
    /// Marks under a location: bold and red.
    Marks,
    /// The word before a hint: bold and cyan.
    Label,
}

impl Style {
    /// The escape sequence before a piece; empty if it is plain.
    fn begin(self) -> &'static [u8]
        ensures { result.now ≡ begin_of self }
    {
        match self {
            Style::Plain => b"",
            Style::Location => b"\x1b[1m",
            Style::Marks => b"\x1b[1;31m",
            Style::Label => b"\x1b[1;36m",
        }
    }

    /// The escape sequence after a piece; empty if it is plain.
    fn end(self) -> &'static [u8]
        ensures { result.now ≡ end_of self }
    {
        match self {
            Style::Plain => b"",
            Style::Location | Style::Marks | Style::Label => b"\x1b[0m",
        }
    }
}

/// A piece of a text.
#[derive(Clone, Copy)]
pub struct Piece<'t> {
    pub style: Style,
    pub text: &'t [u8],
}

/// The pieces with their escape sequences.
pub(crate) fn shown(alloc: Global, pieces: &[Piece<'_>]) -> Result<Vec<u8>, AllocError>
    ensures { IfOk result (λ bytes. bytes.items ≡ shown_of pieces.now) }
{
    let mut bytes = Vec::new(alloc);
    for piece in pieces {
        bytes.extend_from_slice(piece.style.begin())?;
        bytes.extend_from_slice(piece.text)?;
        bytes.extend_from_slice(piece.style.end())?;
    }
    Ok(bytes)
}
