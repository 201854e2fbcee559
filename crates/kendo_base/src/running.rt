//! A run of a checked program.

ghost use Rattle.std.specs.Prelude.{◌≡◌, ◌⊎◌, IfErr, IfOk, IsErrOf, true};
ghost use Rattle.bytecode.specs.Machine.{code_kind};
ghost use Rattle.checker.specs.Trees.{tree_in};
ghost use Rattle.meaning.specs.Source.{source_kind};
ghost use Rattle.whole_run.specs.Runs.{BeginsOutput, IsLimit, IsWhole, IsWorkers};
ghost use Rattle.syntax.specs.Spans.{tree_of};
ghost use Rattle.tracer.specs.Trace.{BeginsTrace, IsWholeTrace};

use checker::Typed;
use codegen::compile;
use go_text::Fault;
use std::alloc::Global;
use std::sync::{Arc, Wait};
use std::thread::Threads;
use verifier::{Verified, verify};
use word::Write;
use word::end::End;
use worker_pool::{Gate, TraceWriter, run};

/// Runs a checked program: what is written begins its output and its trace, and at an end it is all of both.
pub(crate) fn run_typed<R: Threads + Wait + Sync, G: Gate + Sync, O: Write, T: TraceWriter>(
    rt: &R,
    alloc: Global,
    typed: &Typed,
    limit: u64,
    workers: u64,
    gate: &G,
    out: &mut O,
    trace: &mut T,
) -> Result<End, Fault>
    requires workers { IsWorkers workers }
    requires limit { IsLimit limit }
    ensures begins { BeginsOutput (source_kind (tree_of (tree_in typed.now))) limit (O.contents out.old) (O.contents out.new) }
    ensures traces { BeginsTrace (source_kind (tree_of (tree_in typed.now))) limit (T.contents trace.old) (T.contents trace.new) }
    ensures whole { IfOk result (λ end. IsWhole (source_kind (tree_of (tree_in typed.now))) limit (O.contents out.old) (O.contents out.new) end) }
    ensures traced { IfOk result (λ end. IsWholeTrace (source_kind (tree_of (tree_in typed.now))) limit (T.contents trace.old) (T.contents trace.new) end) }
    ensures write { IsErrOf result Fault.Write → (O.has_failed out.new ≡ true) ⊎ (T.has_failed trace.new ≡ true) }
    ensures only { IfErr result (λ fault. (fault ≡ Fault.Memory) ⊎ (fault ≡ Fault.Write)) }
{
    let code = compile(alloc, typed)?;
    let program = verify(alloc, code)?;
    let end = run_verified(rt, alloc, program, limit, workers, gate, out, trace)?;
    Ok(end)
}

/// Runs verified code.
#[tactic(auto, using(crate::proofs::Runs::stops_for))]
fn run_verified<R: Threads + Wait + Sync, G: Gate + Sync, O: Write, T: TraceWriter>(
    rt: &R,
    alloc: Global,
    program: Verified,
    limit: u64,
    workers: u64,
    gate: &G,
    out: &mut O,
    trace: &mut T,
) -> Result<End, Fault>
    requires workers { IsWorkers workers }
    requires limit { IsLimit limit }
    ensures begins { BeginsOutput (code_kind program) limit (O.contents out.old) (O.contents out.new) }
    ensures traces { BeginsTrace (code_kind program) limit (T.contents trace.old) (T.contents trace.new) }
    ensures whole { IfOk result (λ end. IsWhole (code_kind program) limit (O.contents out.old) (O.contents out.new) end) }
    ensures traced { IfOk result (λ end. IsWholeTrace (code_kind program) limit (T.contents trace.old) (T.contents trace.new) end) }
    ensures write { IsErrOf result Fault.Write → (O.has_failed out.new ≡ true) ⊎ (T.has_failed trace.new ≡ true) }
    ensures only { IfErr result (λ fault. (fault ≡ Fault.Memory) ⊎ (fault ≡ Fault.Write)) }
{
    let program = Arc::new(alloc, program)?;
    run(rt, alloc, program, limit, workers, gate, out, trace)
}
