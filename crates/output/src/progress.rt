//! How far a run's bytes were written.

ghost use Rattle.std.specs.Prelude.{◌≡◌, ◌<◌, ◌+◌, ◌^◌, ◌↔◌, IsTrue};
ghost use Rattle.std.specs.Arc.{arc_value};

use crate::piece::{Kind, Piece};
use std::sync::Arc;
use verifier::Verified;

/// How far a run's output, or its trace, was written.
pub struct Progress {
    program: Arc<Verified>,
    limit: u64,
    kind: Kind,
    place: u128,
}

impl Drop for Progress {
    fn drop(self) {
        let Progress {
            program,
            limit: _,
            kind: _,
            place: _,
        } = self;
        drop(program);
    }
}

impl Progress {
    ghost use Rattle.output.specs.Progress.{progress_place, run_of, IsNext};

    /// Nothing is written yet of this run's output or trace.
    pub fn new(program: Arc<Verified>, limit: u64, kind: Kind) -> Progress
        ensures place { progress_place result ≡ 0 }
        ensures run { run_of result ≡ record { program = arc_value program; limit = limit; kind = kind } }
    {
        Progress {
            program,
            limit,
            kind,
            place: 0,
        }
    }

    /// How many bytes were written.
    pub fn place(&self) -> u128
        ensures { result ≡ progress_place self.now }
    {
        self.place
    }

    /// Counts bytes that a writer took.
    pub(crate) fn advance(&mut self, count: u128)
        requires { progress_place self.old + count < 2 ^ 128 }
        ensures place { progress_place self.new ≡ progress_place self.old + count }
        ensures run { run_of self.new ≡ run_of self.old }
    {
        self.place += count;
    }

    /// Whether the piece is of this run, and begins where the last one ended.
    pub fn is_next(&self, piece: &Piece) -> bool
        ensures { IsTrue result ↔ IsNext self.now piece.now }
    {
        self.program.code().is_same(piece.program.code())
            && self.limit == piece.limit
            && self.kind == piece.kind
            && self.place == piece.from
    }
}
