//! A text that is cut into pieces.

use crate::piece::{Piece, Style};
use std::alloc::{AllocError, Global};

/// The pieces so far, and the rest of the text.
#[derive(Drop)]
pub(crate) struct Cutter<'t> {
    pieces: Vec<Piece<'t>>,
    rest: &'t [u8],
}

impl<'t> Cutter<'t> {
    ghost use Rattle.std.specs.Prelude.{◌≡◌, IfOk, OnOk};
    ghost use Rattle.terminal_style.specs.Cutting.{whole_of};
    ghost use Rattle.terminal_style.specs.Styles.{plain_of};

    /// The text as the rest.
    pub(crate) fn new(alloc: Global, text: &'t [u8]) -> Cutter<'t>
        ensures { whole_of result ≡ text.now }
    {
        Cutter {
            pieces: Vec::new(alloc),
            rest: text,
        }
    }

    /// The rest of the text.
    pub(crate) fn rest(&self) -> &'t [u8] {
        self.rest
    }

    /// Makes a piece of the first `count` bytes of the rest, or of the whole rest if it is shorter.
    pub(crate) fn take(&mut self, count: usize, style: Style) -> Result<(), AllocError>
        ensures { OnOk result (whole_of self.new ≡ whole_of self.old) }
    {
        let (text, rest) = self.rest.split_at(count.min(self.rest.len()));
        self.pieces.push(Piece { style, text })?;
        self.rest = rest;
        Ok(())
    }

    /// The pieces, with the rest as a plain one.
    pub(crate) fn into_pieces(self) -> Result<Vec<Piece<'t>>, AllocError>
        ensures { IfOk result (λ pieces. plain_of pieces.items ≡ whole_of self.entry) }
    {
        let Cutter { pieces, rest } = self;
        let mut all = pieces;
        all.push(Piece {
            style: Style::Plain,
            text: rest,
        })?;
        Ok(all)
    }
}
