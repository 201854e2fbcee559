//! A run by several threads.

ghost use Rattle.std.specs.Prelude.{◌≡◌, ◌⊎◌, ◌↔◌, IfErr, IfOk, IsErrOf, true};
ghost use denote.Param.Send.{IsSend, IsSync};
ghost use Rattle.std.specs.Arc.{arc_value};
ghost use Rattle.bytecode.specs.Machine.{code_kind};
ghost use Rattle.clock_table.specs.Seats.{table_of};
ghost use Rattle.whole_run.specs.Runs.{BeginsOutput, IsLimit, IsWhole, IsWorkers};
ghost use Rattle.output.specs.Progress.{progress_place, run_of};
ghost use Rattle.tracer.specs.Trace.{BeginsTrace, IsWholeTrace};
ghost use Rattle.book.specs.Runs.{ComesOf, IsStart, output_run, trace_run};

use crate::shared::Shared;
use crate::worker::work;
use crate::writing::{Reach, write_run};
use book::Blank;
use book::run_book::RunBook;
use book::run_name::{Printed, RunLease, RunName, Traced};
use go_text::Fault;
use output::{Kind, Progress};
use std::alloc::Global;
use std::marker::Brand;
use std::sync::{Arc, Wait, ledger};
use std::thread;
use std::thread::Threads;
use verifier::Verified;
use word::Write;
use word::end::End;
use workers::{Gate, TraceWriter, WorkQueues};

/// Runs a program up to the clock limit (1 to 2^62) on 1 to 64 workers, and returns how it ended. What is written begins the
/// output of the one-thread run, and its trace; at an end it is all of them. A trace that is not read is not made.
///
/// Errors: `BadWorkers`; `BadLimit`; `Memory`; `Write`.
pub fn run<R: Threads + Wait + Sync, G: Gate + Sync, O: Write, T: TraceWriter>(
    rt: &R,
    alloc: Global,
    program: Arc<Verified>,
    limit: u64,
    workers: u64,
    gate: &G,
    out: &mut O,
    trace: &mut T,
) -> Result<End, Fault>
    ensures workers { IsErrOf result Fault.BadWorkers ↔ (IsWorkers workers → ⊥) }
    ensures limit { IsErrOf result Fault.BadLimit ↔ (IsWorkers workers × (IsLimit limit → ⊥)) }
    ensures begins { BeginsOutput (code_kind (arc_value program)) limit (O.contents out.old) (O.contents out.new) }
    ensures traces { BeginsTrace (code_kind (arc_value program)) limit (T.contents trace.old) (T.contents trace.new) }
    ensures whole { IfOk result (λ end. IsWhole (code_kind (arc_value program)) limit (O.contents out.old) (O.contents out.new) end) }
    ensures traced { IfOk result (λ end. IsWholeTrace (code_kind (arc_value program)) limit (T.contents trace.old) (T.contents trace.new) end) }
    ensures nothing { IfErr result (λ fault. (fault ≡ Fault.Memory → ⊥) → (fault ≡ Fault.Write → ⊥) → O.contents out.new ≡ O.contents out.old) }
    ensures untraced { IfErr result (λ fault. (fault ≡ Fault.Memory → ⊥) → (fault ≡ Fault.Write → ⊥) → T.contents trace.new ≡ T.contents trace.old) }
    ensures write { IsErrOf result Fault.Write → (O.has_failed out.new ≡ true) ⊎ (T.has_failed trace.new ≡ true) }
    ensures only { IfErr result (λ fault. (fault ≡ Fault.Memory) ⊎ ((fault ≡ Fault.Write) ⊎ ((fault ≡ Fault.BadWorkers) ⊎ (fault ≡ Fault.BadLimit)))) }
{
    if workers < 1 || workers > 64 {
        return Err(Fault::BadWorkers);
    }
    if limit < 1 || limit > 1 << 62 {
        return Err(Fault::BadLimit);
    }
    let traces = trace.is_read();
    let start = Start::new(alloc, program, limit)?;
    run_named::<Brand, R, G, O, T>(rt, alloc, start, traces, workers, gate, out, trace)
}

/// What a run begins with.
#[derive(Drop)]
struct Start {
    blank: Blank,
    program: Arc<Verified>,
    limit: u64,
    printed: Progress,
    traced: Progress,
    printed_ledger: ledger::Blank,
    traced_ledger: ledger::Blank,
}

impl Start {
    /// The beginning of this program's run.
    fn new(alloc: Global, program: Arc<Verified>, limit: u64) -> Result<Start, Fault>
        requires { IsLimit limit }
        ensures run { IfOk result (λ start. (arc_value start.program ≡ arc_value program) × (start.limit ≡ limit)) }
        ensures start { IfOk result (λ start. IsStart (arc_value program) limit start.printed start.traced) }
        ensures ledgers { IfOk result (λ start. (start.printed_ledger.parts ≡ 1) × (start.traced_ledger.parts ≡ 1)) }
        ensures only { IfErr result (λ fault. fault ≡ Fault.Memory) }
    {
        let printed = Progress::new(Arc::try_clone(&program)?, limit, Kind::Output);
        let traced = Progress::new(Arc::try_clone(&program)?, limit, Kind::Trace);
        let blank = Blank::new(alloc)?;
        Ok(Start {
            blank,
            program,
            limit,
            printed,
            traced,
            printed_ledger: ledger::Blank::new(1),
            traced_ledger: ledger::Blank::new(1),
        })
    }
}

/// The run of this name.
fn run_named<B: RunName + Send, R: Threads + Wait + Sync, G: Gate + Sync, O: Write, T: Write>(
    rt: &R,
    alloc: Global,
    start: Start,
    traces: bool,
    workers: u64,
    gate: &G,
    out: &mut O,
    trace: &mut T,
) -> Result<End, Fault>
    requires name { (arc_value start.program ≡ B.code) × (start.limit ≡ B.limit) × (traces ≡ B.traces) × (table_of start.blank.table ≡ B.table) }
    requires limit { IsLimit start.limit }
    requires start { IsStart B.code B.limit start.printed start.traced }
    requires printed { (start.printed_ledger.name ≡ B.printed) × (start.printed_ledger.parts ≡ 1) }
    requires traced { (start.traced_ledger.name ≡ B.traced) × (start.traced_ledger.parts ≡ 1) }
    ensures output { ComesOf (output_run B.code B.limit) (O.contents out.old) (O.contents out.new) result }
    ensures trace { B.traces ≡ true → ComesOf (trace_run B.code B.limit) (T.contents trace.old) (T.contents trace.new) result }
    ensures write { IsErrOf result Fault.Write → (O.has_failed out.new ≡ true) ⊎ (T.has_failed trace.new ≡ true) }
    ensures only { IfErr result (λ fault. (fault ≡ Fault.Memory) ⊎ (fault ≡ Fault.Write)) }
{
    let queues = WorkQueues::of_all(alloc, workers)?;
    let Start {
        blank,
        program,
        limit,
        printed,
        traced,
        printed_ledger,
        traced_ledger,
    } = start;
    let run = RunBook::open(blank, program, limit, traces)?;
    let (printed_book, printed_share) = printed_ledger.open::<Printed<B>>();
    let (traced_book, traced_share) = traced_ledger.open::<Traced<B>>();
    let shared: Shared<B> = Shared::new(run, printed_book, traced_book);
    let writing = Writing {
        rt,
        shared: &shared,
        gate,
        printed: Reach::new(printed, printed_share),
        traced: Reach::new(traced, traced_share),
        out,
        trace,
    };
    let (out, trace, result) = beside(rt, &shared, gate, queues, writing);
    return_loan(out);
    return_loan(trace);
    drop(shared);
    result
}

/// What the calling thread does while the workers run.
trait Task: Drop {
    type Output;

    ghost can_run: { Self → Type 0 };

    ghost run_gives: { Self → Self.Output → Type 0 };

    fn run(self) -> Self::Output
        requires { can_run self }
        ensures { run_gives self result };
}

/// To write what the workers commit.
#[derive(Drop)]
struct Writing<'a, 'o, 't, B: RunName, R, G, O, T> {
    rt: &'a R,
    shared: &'a Shared<B>,
    gate: &'a G,
    printed: Reach<Printed<B>>,
    traced: Reach<Traced<B>>,
    out: &'o mut O,
    trace: &'t mut T,
}

impl<'a, 'o, 't, B: RunName, R: Wait, G: Gate, O: Write, T: Write> Task
    for Writing<'a, 'o, 't, B, R, G, O, T> {
    type Output = (&'o mut O, &'t mut T, Result<End, Fault>);

    ghost use Rattle.std.specs.Prelude.{◌≡◌, ◌⊎◌, IfErr, IsErrOf, true};
    ghost use Rattle.go_text.specs.declared.fault.Fault.TheVariants as faults;
    ghost use Rattle.output.specs.Progress.{progress_place};
    ghost use Rattle.book.specs.Runs.{ComesOf, IsReached, output_run, trace_run};

    ghost can_run = { λ t. IsReached (output_run B.code B.limit) t.printed.progress t.printed.share.parts t.printed.share.amount
        × IsReached (trace_run B.code B.limit) t.traced.progress t.traced.share.parts t.traced.share.amount
        × (progress_place t.printed.progress ≡ 0) × (progress_place t.traced.progress ≡ 0) };

    ghost run_gives = { λ t r. (r.0.ghost_name ≡ t.out.ghost_name) × (r.1.ghost_name ≡ t.trace.ghost_name)
        × ComesOf (output_run B.code B.limit) (O.contents t.out.now) (O.contents r.0.now) r.2
        × (B.traces ≡ true → ComesOf (trace_run B.code B.limit) (T.contents t.trace.now) (T.contents r.1.now) r.2)
        × (IsErrOf r.2 faults.Write → (O.has_failed r.0.now ≡ true) ⊎ (T.has_failed r.1.now ≡ true))
        × IfErr r.2 (λ fault. (fault ≡ faults.Memory) ⊎ (fault ≡ faults.Write)) };

    fn run(self) -> (&'o mut O, &'t mut T, Result<End, Fault>) {
        let Writing {
            rt,
            shared,
            gate,
            mut printed,
            mut traced,
            out,
            trace,
        } = self;
        let result = write_run(rt, shared, gate, &mut printed, &mut traced, out, trace);
        shared.close(rt);
        (out, trace, result)
    }
}

/// Starts a worker for each of these, does the task, and waits for the workers.
fn beside<B: RunName + Send, R: Threads + Wait + Sync, G: Gate + Sync, T: Task>(
    rt: &R,
    shared: &Shared<B>,
    gate: &G,
    queues: Vec<WorkQueues<RunLease<B>>>,
    task: T,
) -> T::Output
    requires { T.can_run task }
    ensures { T.run_gives task result }
{
    thread::scope(
        thread::scope_env(),
        rt,
        move |scope| -> T::Output
            requires task { T.can_run task }
            requires crosses { IsSend B.row × IsSync R.row × IsSync G.row }
            ensures { T.run_gives task result }
        {
            for (worker, queues) in (0..u64::MAX).zip(queues) {
                if scope
                    .spawn(move || work(rt, shared, gate, worker, queues))
                    .is_err()
                {
                    shared.stop(rt);
                    break;
                }
            }
            task.run()
        },
    )
}

/// Does nothing, but this use of a returned reference is what ties it to the parameter that lent it.
fn return_loan<T>(x: &mut T)
    ensures { x.new ≡ x.old }
{}
