//! Pieces of what a run writes.

ghost use Rattle.std.specs.Prelude.{◌<◌, ◌+◌, ◌^◌, vec_len};

use std::sync::Arc;
use verifier::Verified;

/// Which bytes of a run.
#[derive(Clone, Copy, PartialEq, Eq)]
pub enum Kind {
    Output,
    Trace,
}

/// Bytes of the output, or of the trace, of a program's run, from an offset on.
pub struct Piece {
    /// The program that runs.
    pub program: Arc<Verified>,
    /// The run's clock limit.
    pub limit: u64,
    /// What they are bytes of.
    pub kind: Kind,
    /// How many bytes come before these.
    pub from: u128,
    pub bytes: Vec<u8>,
    ghost ends: { from + vec_len bytes < 2 ^ 128 },
}

impl Drop for Piece {
    fn drop(self) {
        let Piece {
            program,
            limit: _,
            kind: _,
            from: _,
            bytes,
        } = self;
        drop(program);
        drop(bytes);
    }
}
