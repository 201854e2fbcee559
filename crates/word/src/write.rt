//! Writers that remember whether they ever failed.

ghost use Rattle.std.specs.Prelude.{◌≡◌, ℕ, List, ◌<◌, ◌≤◌, ◌||◌, Bool, None, Option, IfErr, IfOk, IsErr, OnOk, length, take, true};
ghost use Rattle.std.specs.Io.KnownBytes.{Appends, WriteAppends};
ghost use Rattle.word.specs.Write.{is_refusal};

use std::io;
use thiserror::Error;

/// A writer refused bytes.
#[derive(Clone, Copy, Debug, PartialEq, Eq, Error)]
#[error("14 Write")]
pub struct WriteFault;

/// What takes a run's bytes.
pub trait Write {
    // The bytes that were taken, if they are known.
    ghost contents: { Self → Option (List ℕ) } = { λ _. None };

    // Whether an error came, or no byte of a piece that is not empty was taken.
    ghost has_failed: { Self → Bool };

    /// Takes a beginning of the piece, and returns how many bytes of it were taken.
    fn write(&mut self, piece: &[u8]) -> Result<usize, WriteFault>
        ensures bound { IfOk result (λ n. n ≤ length piece.now) }
        ensures bytes { WriteAppends (contents self.old) (contents self.new) result piece.now }
        ensures flag { has_failed self.new ≡ (has_failed self.old || is_refusal result piece.now) };
}

/// Only a beginning of a piece was written.
#[derive(Clone, Copy, Debug, PartialEq, Eq)]
pub struct ShortWrite {
    /// How many bytes were taken before the writer failed, or took nothing.
    pub taken: usize,
}

/// Writes a whole piece.
#[tactic(auto, using(crate::proofs::Writing::all_written))]
pub fn write_all<W: Write>(writer: &mut W, piece: &[u8]) -> Result<(), ShortWrite>
    ensures ok { OnOk result (Appends (W.contents writer.old) (W.contents writer.new) piece.now) }
    ensures err { IfErr result (λ short. (short.taken < length piece.now) × Appends (W.contents writer.old) (W.contents writer.new) (take short.taken piece.now)) }
    ensures flag { IsErr result → W.has_failed writer.new ≡ true }
{
    let mut taken = 0;
    'writes: while taken < piece.len() {
        match writer.write(&piece[taken..]) {
            Ok(0) | Err(_) => return Err(ShortWrite { taken }),
            Ok(more) => taken += more,
        }
    }
    Ok(())
}

/// Any writer of std, with the flag.
#[derive(Drop)]
pub struct Flagged<W: Drop> {
    inner: W,
    failed: bool,
}

impl<W: io::Write + Drop> Flagged<W> {
    ghost use Rattle.std.specs.Prelude.{false};
    ghost use Rattle.word.specs.Flagged.{inner_of, failed_of};

    /// The writer, with the flag not set.
    pub fn new(inner: W) -> Flagged<W>
        ensures inner { inner_of result ≡ inner }
        ensures failed { failed_of result ≡ false }
    {
        Flagged {
            inner,
            failed: false,
        }
    }

    /// The inner writer.
    pub fn into_inner(self) -> W
        ensures { result ≡ inner_of self }
    {
        self.inner
    }
}

impl<W: io::Write + Drop> Write for Flagged<W> {
    ghost use Rattle.word.specs.Flagged.{inner_of, failed_of};

    ghost contents = { λ w. W.contents (inner_of w) };

    ghost has_failed = { λ w. failed_of w };

    fn write(&mut self, piece: &[u8]) -> Result<usize, WriteFault> {
        match self.inner.write(piece) {
            Ok(taken) => {
                if taken == 0 && !piece.is_empty() {
                    self.failed = true;
                }
                Ok(taken)
            }
            // An interrupted write counts as any other.
            Err(_) => {
                self.failed = true;
                Err(WriteFault)
            }
        }
    }
}
