//! The way of a piece into a writer.

ghost use Rattle.std.specs.Prelude.{◌≡◌, ◌<◌, ◌≤◌, ◌+◌, ◌-◌, ◌↔◌, ◌⊎◌, take, true, OnOk, IsErr, IsErrOf, vec_len};
ghost use Rattle.std.specs.Io.KnownBytes.{Appends};
ghost use Rattle.output.specs.Progress.{progress_place, run_of, IsNext};

use crate::piece::Piece;
use crate::progress::Progress;
use go_text::Fault;
use thiserror::Error;
use word::{ShortWrite, Write, WriteFault, write_all};

/// Why a piece was not written to its end.
#[derive(Clone, Copy, Debug, PartialEq, Eq, Error)]
pub enum DrainFault {
    /// The piece is of another run, or not the next one. Nothing was written.
    #[error("12 NotYours")]
    NotYours,
    /// The writer failed, or took nothing. A beginning of the piece was written.
    #[error("14 Write")]
    Write,
}

impl From<WriteFault> for DrainFault {
    ghost use Rattle.output.specs.declared.draining.DrainFault.TheVariants as fault;

    ghost from_gives = { λ _ e. e ≡ fault.Write };

    fn from(_fault: WriteFault) -> DrainFault {
        DrainFault::Write
    }
}

impl From<DrainFault> for Fault {
    ghost use Rattle.output.specs.Progress.{fault_of};

    ghost from_gives = { λ drained fault. fault ≡ fault_of drained };

    fn from(fault: DrainFault) -> Fault {
        match fault {
            DrainFault::NotYours => Fault::NotYours,
            DrainFault::Write => Fault::Write,
        }
    }
}

/// Writes the piece, if it is the next one, and counts each byte that the writer took.
pub fn drain<W: Write>(
    progress: &mut Progress,
    piece: Piece,
    writer: &mut W,
) -> Result<(), DrainFault>
    ensures not_yours { IsErrOf result DrainFault.NotYours ↔ ¬ (IsNext progress.old piece) }
    ensures ok { OnOk result (progress_place progress.new ≡ progress_place progress.old + vec_len piece.bytes) }
    ensures short { IsErrOf result DrainFault.Write → progress_place progress.new < progress_place progress.old + vec_len piece.bytes }
    ensures forward { progress_place progress.old ≤ progress_place progress.new }
    ensures none { IsErrOf result DrainFault.NotYours → progress_place progress.new ≡ progress_place progress.old }
    ensures bytes { Appends (W.contents writer.old) (W.contents writer.new)
        (take (progress_place progress.new - progress_place progress.old) piece.bytes.items) }
    ensures flag { IsErrOf result DrainFault.Write → W.has_failed writer.new ≡ true }
    ensures same { run_of progress.new ≡ run_of progress.old }
{
    if !progress.is_next(&piece) {
        return Err(DrainFault::NotYours);
    }
    drain_next(progress, piece, writer)?;
    Ok(())
}

/// Writes the next piece, without a look at its program, and counts each byte that the writer took.
pub fn drain_next<W: Write>(
    progress: &mut Progress,
    piece: Piece,
    writer: &mut W,
) -> Result<(), WriteFault>
    requires { IsNext progress.old piece }
    ensures ok { OnOk result (progress_place progress.new ≡ progress_place progress.old + vec_len piece.bytes) }
    ensures short { IsErr result → progress_place progress.new < progress_place progress.old + vec_len piece.bytes }
    ensures forward { progress_place progress.old ≤ progress_place progress.new }
    ensures bytes { Appends (W.contents writer.old) (W.contents writer.new)
        (take (progress_place progress.new - progress_place progress.old) piece.bytes.items) }
    ensures flag { IsErr result → W.has_failed writer.new ≡ true }
    ensures same { run_of progress.new ≡ run_of progress.old }
{
    let bytes = piece.bytes.as_slice();
    match write_all(writer, bytes) {
        Ok(()) => {
            progress.advance(bytes.len() as u128);
            Ok(())
        }
        Err(ShortWrite { taken }) => {
            progress.advance(taken as u128);
            Err(WriteFault)
        }
    }
}
