//! The test of a program.

ghost use Rattle.std.specs.Prelude.{◌≡◌, ◌⊎◌, ◌↔◌, IfErr, IfOk, IsErrOf};
ghost use Rattle.expected_output.specs.Expecting.{IsSaidIn};
ghost use Rattle.go_text.specs.Source.{bytes_of};
ghost use Rattle.kendo_reading.specs.Reading.{HasNoReading, IsOfText, IsRefusal, Reads};
ghost use Rattle.kendo_test.specs.Passing.{IsRight, IsRightBy, IsUntold, Passes};
ghost use Rattle.syntax.specs.Tree.{File};
ghost use Rattle.whole_run.specs.Runs.{IsLimit};

use crate::differences::push_differences;
use crate::lines::Failure;
use crate::ordering::{Found, OrderSearch, OrderTask, Searched, push_failing};
use crate::running::{Ran, run_expected};
use expected_output::{Expectation, ExpectationError, MOST_BYTES};
use go_text::{Fault, Memory, Source};
use kendo_explore::{PlanFile, Progress};
use kendo_reading::read;
use std::alloc::Global;
use std::sync::Wait;
use std::thread::Threads;
use word::end::End;

/// How a program is tested.
#[derive(Clone, Copy)]
pub struct TestOptions {
    /// The clock limit, 1 to 2^62.
    pub limit: u64,
    /// How long other orders are searched, if they are.
    pub orders: Option<OrderSearch>,
    /// Whether goroutines that wait for good when `main` has returned count, if other orders are searched.
    pub leaks: bool,
}

/// Whether a program passes its test.
#[derive(Drop)]
pub enum Verdict {
    /// It does what is expected: in its run, and in each other order that was searched.
    Passed(Expectation),
    /// It does something else: in its run, or in another order.
    Failed(Expectation),
    /// Its run does what is expected, but the search found another order that does not, and no run that shows it.
    Doubted(Expectation),
    /// It can't be tested: it is no program, a comment names no end that there is, or it prints too much to be compared.
    Untested,
}

/// The outcome of a test.
#[derive(Drop)]
pub struct Tested {
    pub verdict: Verdict,
    /// Why it doesn't pass, or why its comments could not be rewritten.
    pub reasons: Vec<String>,
    /// Whether its comments were rewritten.
    pub is_updated: bool,
    /// How much of the other orders was searched, if it passes in these too.
    pub searched: Option<Searched>,
    /// The plans of ends in other orders that are not expected.
    pub plans: Vec<PlanFile>,
    /// If the run is why it fails, how that ended or why there was none; otherwise `Finished`.
    pub outcome: Result<End, Fault>,
}

/// Tests a program: runs it up to the clock limit, on 4 workers, and compares its output and its end with what its comments say; if
/// `options` request it, searches its other orders for ends that they don't name. `path` is the path as it was typed.
///
/// Errors: `Memory`; `BadLimit`.
pub fn test_bytes<R: Threads + Wait + Sync, P: Progress>(
    rt: &R,
    alloc: Global,
    path: &str,
    bytes: &[u8],
    options: TestOptions,
    progress: &mut P,
) -> Result<Tested, Fault>
    ensures limit { IsErrOf result Fault.BadLimit ↔ (IsLimit options.limit → ⊥) }
    ensures only { IfErr result (λ fault. (fault ≡ Fault.Memory) ⊎ (fault ≡ Fault.BadLimit)) }
    ensures right { IfOk result (λ tested. IsRight tested.verdict options.leaks bytes.now options.limit) }
{
    if options.limit < 1 || options.limit > 1 << 62 {
        return Err(Fault::BadLimit);
    }
    let tested = test(rt, alloc, path, bytes, options, progress)?;
    Ok(tested)
}

/// Like `test_bytes`, up to a limit within its bounds.
#[tactic(auto, using(crate::proofs::Verdicts::right_by_any, crate::proofs::Verdicts::unread_is_right, crate::proofs::Verdicts::unknown_is_right))]
pub(crate) fn test<R: Threads + Wait + Sync, P: Progress>(
    rt: &R,
    alloc: Global,
    path: &str,
    bytes: &[u8],
    options: TestOptions,
    progress: &mut P,
) -> Result<Tested, Memory>
    requires { IsLimit options.limit }
    ensures { IfOk result (λ tested. IsRight tested.verdict options.leaks bytes.now options.limit) }
{
    match expectation_in(alloc, bytes) {
        Ok(expectation) => compare(rt, alloc, path, bytes, options, expectation, progress),
        Err(ExpectationError::Fault(fault)) => refused(alloc, fault),
        Err(ExpectationError::UnknownEnd(words)) => unknown_end(alloc, words.as_str()),
    }
}

/// What the comments of a program say.
fn expectation_in(alloc: Global, bytes: &[u8]) -> Result<Expectation, ExpectationError>
    ensures said { IfOk result (IsSaidIn bytes.now) }
    ensures untold { IfErr result (IsUntold bytes.now) }
{
    let source = source_of(alloc, bytes)?;
    Expectation::of(alloc, &source)
}

/// The source that a program is.
fn source_of(alloc: Global, bytes: &[u8]) -> Result<Source, Fault>
    ensures text { IfOk result (λ source. bytes_of source ≡ bytes.now) }
    ensures reads { IfOk result (λ _. (file : File) × Reads bytes.now file) }
    ensures refused { IfErr result (λ fault. IsRefusal fault → HasNoReading bytes.now) }
    ensures only { IfErr result IsOfText }
{
    let text = Vec::from_slice(alloc, bytes)?;
    let (source, _typed) = read(alloc, text)?;
    Ok(source)
}

/// Compares the run of a program with what is expected, and then, if this is requested, searches its other orders.
#[tactic(auto, using(crate::proofs::Verdicts::failed_is_right, crate::proofs::Verdicts::refused_is_right))]
fn compare<R: Threads + Wait + Sync, P: Progress>(
    rt: &R,
    alloc: Global,
    path: &str,
    bytes: &[u8],
    options: TestOptions,
    expectation: Expectation,
    progress: &mut P,
) -> Result<Tested, Memory>
    requires { IsLimit options.limit }
    ensures { IfOk result (λ tested. IsRightBy expectation tested.verdict options.leaks bytes.now options.limit) }
{
    let text = Vec::from_slice(alloc, bytes)?;
    match run_expected(rt, alloc, text, options.limit, &expectation) {
        Ok(ran) => {
            if ran.is_met {
                search_others(alloc, path, bytes, options, expectation, progress)
            } else {
                differs(alloc, expectation, &ran)
            }
        }
        Err(fault) => refused(alloc, fault),
    }
}

/// Searches the other orders of a program whose run is as expected, if this is requested.
#[tactic(auto, using(crate::proofs::Verdicts::failed_is_right))]
fn search_others<P: Progress>(
    alloc: Global,
    path: &str,
    bytes: &[u8],
    options: TestOptions,
    expectation: Expectation,
    progress: &mut P,
) -> Result<Tested, Memory>
    requires { Passes expectation bytes.now options.limit }
    ensures { IfOk result (λ tested. IsRightBy expectation tested.verdict options.leaks bytes.now options.limit) }
{
    let Some(orders) = options.orders else {
        return passes(alloc, expectation, None);
    };
    let task = OrderTask {
        limit: options.limit,
        leaks: options.leaks,
        expectation: &expectation,
    };
    let found = orders.find(alloc, path, bytes, &task, progress)?;
    if found.fails() {
        return fails_elsewhere(alloc, expectation, found);
    }
    if found.has_unshown {
        return doubted(alloc, expectation);
    }
    passes(alloc, expectation, Some(found.searched))
}

/// The program passes; if other orders were searched, this is how far.
fn passes(
    alloc: Global,
    expectation: Expectation,
    searched: Option<Searched>,
) -> Result<Tested, Memory>
    ensures { IfOk result (λ tested. tested.verdict ≡ Verdict.Passed expectation) }
{
    Ok(Tested {
        verdict: Verdict::Passed(expectation),
        reasons: Vec::new(alloc),
        is_updated: false,
        searched,
        plans: Vec::new(alloc),
        outcome: Ok(End::Finished),
    })
}

/// Another order of the program fails, and no run shows it.
fn doubted(alloc: Global, expectation: Expectation) -> Result<Tested, Memory>
    ensures { IfOk result (λ tested. tested.verdict ≡ Verdict.Doubted expectation) }
{
    let mut failure = Failure::new(alloc);
    failure.reason();
    failure.said.text(
        "ends or prints otherwise in another order, which no run with pauses shows in time",
    );
    told(
        alloc,
        failure,
        Verdict::Doubted(expectation),
        Ok(End::Finished),
    )
}

/// The program fails in other orders.
fn fails_elsewhere(alloc: Global, expectation: Expectation, found: Found) -> Result<Tested, Memory>
    ensures { IfOk result (λ tested. tested.verdict ≡ Verdict.Failed expectation) }
{
    let Found {
        failing,
        leaks_alone,
        ..
    } = found;
    let mut failure = Failure::new(alloc);
    if leaks_alone {
        failure.reason();
        failure.said.text("goroutines left waiting");
    }
    push_failing(&mut failure, alloc, &expectation, failing.as_slice())?;
    let reasons = failure.reasons()?;
    Ok(Tested {
        verdict: Verdict::Failed(expectation),
        reasons,
        is_updated: false,
        searched: None,
        plans: failing,
        outcome: Ok(End::Finished),
    })
}

/// The run of the program is not as expected.
fn differs(alloc: Global, expectation: Expectation, ran: &Ran) -> Result<Tested, Memory>
    ensures { IfOk result (λ tested. tested.verdict ≡ Verdict.Failed expectation) }
{
    let mut failure = Failure::new(alloc);
    push_differences(
        &mut failure,
        alloc,
        &expectation,
        ran.end,
        ran.output.as_slice(),
    )?;
    told(alloc, failure, Verdict::Failed(expectation), Ok(ran.end))
}

/// The text is no program, or its run can't be compared.
fn refused(alloc: Global, fault: Fault) -> Result<Tested, Memory>
    ensures untested { IfOk result (λ tested. tested.verdict ≡ Verdict.Untested) }
    ensures memory { IfOk result (λ _. fault ≡ Fault.Memory → ⊥) }
{
    let mut failure = Failure::new(alloc);
    match fault {
        Fault::Memory => return Err(Memory),
        Fault::Write => {
            failure.reason();
            failure.said.text("prints more than ");
            failure.said.number(MOST_BYTES as i128);
            failure.said.text(" bytes");
        }
        _ => failure.push_outcome(Err(fault)),
    }
    told(alloc, failure, Verdict::Untested, Err(fault))
}

/// A comment names no end.
fn unknown_end(alloc: Global, words: &str) -> Result<Tested, Memory>
    ensures { IfOk result (λ tested. tested.verdict ≡ Verdict.Untested) }
{
    let mut failure = Failure::new(alloc);
    failure.reason();
    failure.said.text("no end is called \"");
    failure.said.text(words);
    failure
        .said
        .text("\": finished, deadlock, exhausted, panic P1 to P9");
    told(alloc, failure, Verdict::Untested, Ok(End::Finished))
}

/// The outcome of a test for these reasons, after a run with this outcome.
fn told(
    alloc: Global,
    failure: Failure,
    verdict: Verdict,
    outcome: Result<End, Fault>,
) -> Result<Tested, Memory>
    ensures { IfOk result (λ tested. tested.verdict ≡ verdict) }
{
    let reasons = failure.reasons()?;
    Ok(Tested {
        verdict,
        reasons,
        is_updated: false,
        searched: None,
        plans: Vec::new(alloc),
        outcome,
    })
}
