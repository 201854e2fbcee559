//! Writing what the workers commit.

ghost use Rattle.std.specs.Prelude.{◌≡◌, ◌⊎◌, ◌+◌, ℕ, List, Option, IfErr, IsErrOf, OnOk, length, true};
ghost use Rattle.output.specs.Progress.{progress_place, run_of};
ghost use Rattle.book.specs.Runs.{ComesOf, IsHanded, IsReached, Written, output_run, trace_run};

use crate::shared::Shared;
use book::run_name::{Printed, RunName, Traced};
use go_text::Fault;
use output::{Piece, Progress, drain_next};
use std::sync::Wait;
use std::sync::ledger::{Ledger, Share};
use word::Write;
use word::end::End;
use workers::Gate;

/// How far the bytes of one kind are written, and the share of those that were handed out.
#[derive(Drop)]
pub(crate) struct Reach<L: Ledger> {
    pub progress: Progress,
    pub share: Share<L>,
}

impl<L: Ledger> Reach<L> {
    /// As far as that.
    pub fn new(progress: Progress, share: Share<L>) -> Reach<L>
        ensures { result ≡ record { progress = progress; share = share } }
    {
        Reach { progress, share }
    }
}

/// Writes what the workers of a run commit, until its end.
pub(crate) fn write_run<B: RunName, R: Wait, G: Gate, O: Write, T: Write>(
    rt: &R,
    shared: &Shared<B>,
    gate: &G,
    printed: &mut Reach<Printed<B>>,
    traced: &mut Reach<Traced<B>>,
    out: &mut O,
    trace: &mut T,
) -> Result<End, Fault>
    requires printed { IsReached (output_run B.code B.limit) printed.old.progress printed.old.share.parts printed.old.share.amount }
    requires traced { IsReached (trace_run B.code B.limit) traced.old.progress traced.old.share.parts traced.old.share.amount }
    requires nothing { (progress_place printed.old.progress ≡ 0) × (progress_place traced.old.progress ≡ 0) }
    ensures output { ComesOf (output_run B.code B.limit) (O.contents out.old) (O.contents out.new) result }
    ensures trace { B.traces ≡ true → ComesOf (trace_run B.code B.limit) (T.contents trace.old) (T.contents trace.new) result }
    ensures write { IsErrOf result Fault.Write → (O.has_failed out.new ≡ true) ⊎ (T.has_failed trace.new ≡ true) }
    ensures only { IfErr result (λ fault. (fault ≡ Fault.Memory) ⊎ (fault ≡ Fault.Write)) }
{
    for _ in rt.forever() {
        let handed = shared.next(rt, gate, &mut printed.share, &mut traced.share)?;
        let (output, lines, end) = handed.into_parts();
        write_piece(&mut printed.progress, output, out)?;
        write_piece(&mut traced.progress, lines, trace)?;
        if let Some(end) = end {
            return Ok(end);
        }
    }
    unreachable!()
}

/// Writes the next piece of a run.
fn write_piece<W: Write>(progress: &mut Progress, piece: Piece, writer: &mut W) -> Result<(), Fault>
    requires piece { IsHanded (run_of progress.old) piece }
    requires next { piece.from ≡ progress_place progress.old }
    ensures run { run_of progress.new ≡ run_of progress.old }
    ensures place { OnOk result (progress_place progress.new ≡ piece.from + length piece.bytes.items) }
    ensures written { (known : Option (List ℕ)) → Written (run_of progress.old) known (W.contents writer.old) (progress_place progress.old) → Written (run_of progress.old) known (W.contents writer.new) (progress_place progress.new) }
    ensures write { IsErrOf result Fault.Write → W.has_failed writer.new ≡ true }
    ensures only { IfErr result (λ fault. fault ≡ Fault.Write) }
{
    match drain_next(progress, piece, writer) {
        Ok(()) => Ok(()),
        Err(_) => Err(Fault::Write),
    }
}
