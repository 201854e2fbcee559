//! What pieces write, and which are taken.

ghost use Rattle.std.specs.Prelude.{Some};

use crate::checks::Checks;
use crate::made::{Body, program};
use bytecode::Instr::*;
use go_text::{Fault, Memory};
use output::{DrainFault, Kind, Piece, Progress, drain};
use std::alloc::Global;
use std::sync::Arc;
use verifier::Verified;
use word::{Write, WriteFault};

/// Takes one byte a call, and fails at its n-th call and from then on.
#[derive(Drop)]
struct Slow {
    taken: Vec<u8>,
    calls: u64,
    fails_at: u64,
    failed: bool,
}

impl Write for Slow {
    ghost contents = { λ w. Some w.taken.items };

    ghost has_failed = { λ w. w.failed };

    fn write(&mut self, piece: &[u8]) -> Result<usize, WriteFault> {
        let Some(byte) = piece.first() else {
            return Ok(0);
        };
        self.calls = self.calls.saturating_add(1);
        if self.calls >= self.fails_at || self.taken.push(*byte).is_err() {
            self.failed = true;
            return Err(WriteFault);
        }
        Ok(1)
    }
}

/// A program whose `main` prints this number.
fn prints(alloc: Global, number: i64) -> Result<Arc<Verified>, Fault> {
    let main = Body {
        name: "main",
        params: 0,
        locals: &[],
        results: &[],
        instrs: &[Int(number), Print(0), Return],
    };
    Ok(Arc::new(alloc, program(alloc, &[main])?)?)
}

/// The number that a program prints, the limit of its run, what the bytes of a piece are of, and their offset.
type Origin = (i64, u64, Kind, u64);

/// Drains a piece of four bytes to a progress at the beginning of the output of the program that prints 3, at limit 9, with a
/// writer that fails at its call `fails_at`. Returns the fault, how many bytes were taken, and the progress's offset.
fn drained(
    alloc: Global,
    (number, limit, kind, from): Origin,
    fails_at: u64,
) -> Result<(Option<DrainFault>, usize, u128), Fault> {
    let piece = Piece {
        program: prints(alloc, number)?,
        limit,
        kind,
        from: u128::from(from),
        bytes: Vec::from_slice(alloc, b"3\n4\n")?,
    };
    let mut progress = Progress::new(prints(alloc, 3)?, 9, Kind::Output);
    let mut out = Slow {
        taken: Vec::new(alloc),
        calls: 0,
        fails_at,
        failed: false,
    };
    let fault = drain(&mut progress, piece, &mut out).err();
    Ok((fault, out.taken.len(), progress.place()))
}

/// Whether `drained` returns this fault and count, and the progress's offset is the count.
fn is_drained(
    alloc: Global,
    origin: Origin,
    fails_at: u64,
    fault: Option<DrainFault>,
    count: usize,
) -> Result<bool, Fault> {
    let found = drained(alloc, origin, fails_at)?;
    Ok(found == (fault, count, count as u128))
}

/// Whether bytes are written until the writer fails, and pieces of other runs refused.
pub(crate) fn check(alloc: Global, checks: &mut Checks) -> Result<(), Memory> {
    let origin = (3, 9, Kind::Output, 0);
    for (name, fails_at, fault, count) in [
        ("no byte is written", 1, Some(DrainFault::Write), 0),
        ("one byte is written", 2, Some(DrainFault::Write), 1),
        ("three bytes are written", 4, Some(DrainFault::Write), 3),
        ("all bytes are written", 9, None, 4),
    ] {
        checks.see(name, is_drained(alloc, origin, fails_at, fault, count))?;
    }
    for (name, origin) in [
        ("a piece of another program", (4, 9, Kind::Output, 0)),
        ("a piece of another limit", (3, 8, Kind::Output, 0)),
        ("a piece of another kind", (3, 9, Kind::Trace, 0)),
        ("a piece of another place", (3, 9, Kind::Output, 4)),
    ] {
        let fault = Some(DrainFault::NotYours);
        checks.see(name, is_drained(alloc, origin, 9, fault, 0))?;
    }
    Ok(())
}
