//! The update of a program's comments to what the program does.

ghost use Rattle.std.specs.Prelude.{◌≡◌, ◌⊎◌, ◌↔◌, IfErr, IfOk, IsErrOf};
ghost use Rattle.kendo_test.specs.Passing.{IsRight, IsUpdated};
ghost use Rattle.whole_run.specs.Runs.{IsLimit};

use crate::running::run_printing;
use crate::testing::{TestOptions, Tested, Verdict, test};
use expected_output::Expectation;
use go_text::{Fault, Memory, Source};
use kendo_explore::{Extent, PlanFile, Progress};
use output_update::rewritten;
use std::alloc::Global;
use std::sync::Wait;
use std::thread::Threads;
use word::end::End;

/// The outcome of an update.
#[derive(Drop)]
pub struct Updated {
    /// The test of the program: with its new comments, if it has some.
    pub tested: Tested,
    /// The program with its new comments; none if it stays as it is.
    pub text: Option<Vec<u8>>,
}

/// Follows the search of a test that searches no other orders.
#[derive(Drop)]
struct NoSearch;

impl Progress for NoSearch {
    fn goes_on(&mut self, _extent: Extent) -> bool {
        false
    }

    fn shows(&mut self, alloc: Global, _number: usize, _plan: &PlanFile) -> Result<String, Memory> {
        Ok(String::new(alloc))
    }
}

/// Brings the comments of a program up to date: if it fails its test, or has no comment, its comments are rewritten to what its run
/// prints and how it ends, up to the clock limit. It stays as it is if it can't be tested, or if comments can't say that. Other orders
/// are not searched, whatever `options` say.
///
/// Errors: `Memory`; `BadLimit`.
pub fn update_bytes<R: Threads + Wait + Sync>(
    rt: &R,
    alloc: Global,
    bytes: &[u8],
    options: TestOptions,
) -> Result<Updated, Fault>
    ensures limit { IsErrOf result Fault.BadLimit ↔ (IsLimit options.limit → ⊥) }
    ensures only { IfErr result (λ fault. (fault ≡ Fault.Memory) ⊎ (fault ≡ Fault.BadLimit)) }
    ensures right { IfOk result (IsUpdated bytes.now options.leaks options.limit) }
{
    if options.limit < 1 || options.limit > 1 << 62 {
        return Err(Fault::BadLimit);
    }
    let options = TestOptions {
        orders: None,
        ..options
    };
    let updated = update(rt, alloc, bytes, options)?;
    Ok(updated)
}

/// Like `update_bytes`, up to a valid limit.
fn update<R: Threads + Wait + Sync>(
    rt: &R,
    alloc: Global,
    bytes: &[u8],
    options: TestOptions,
) -> Result<Updated, Memory>
    requires { IsLimit options.limit }
    ensures { IfOk result (IsUpdated bytes.now options.leaks options.limit) }
{
    let tested = test(rt, alloc, "", bytes, options, &mut NoSearch)?;
    if !wants_update(&tested.verdict) {
        return Ok(Updated { tested, text: None });
    }
    match new_text(rt, alloc, bytes, options.limit)? {
        Some(text) => adopt(rt, alloc, bytes, options, tested, text),
        None => keep(alloc, bytes, options, tested),
    }
}

/// Whether the comments of a program with this verdict are rewritten, if they can be.
fn wants_update(verdict: &Verdict) -> bool {
    match verdict {
        Verdict::Passed(expectation) => !expectation.is_said,
        Verdict::Failed(_) => true,
        Verdict::Doubted(_) | Verdict::Untested => false,
    }
}

/// Adopts the text if it passes. Otherwise the program stays as it is, whose test this is.
fn adopt<R: Threads + Wait + Sync>(
    rt: &R,
    alloc: Global,
    bytes: &[u8],
    options: TestOptions,
    tested: Tested,
    text: Vec<u8>,
) -> Result<Updated, Memory>
    requires limit { IsLimit options.limit }
    requires right { IsRight tested.verdict options.leaks bytes.now options.limit }
    ensures { IfOk result (IsUpdated bytes.now options.leaks options.limit) }
{
    let again = test(rt, alloc, "", text.as_slice(), options, &mut NoSearch)?;
    let Tested { verdict, .. } = again;
    if let Verdict::Passed(expectation) = verdict {
        return Ok(Updated {
            tested: passed(alloc, expectation),
            text: Some(text),
        });
    }
    keep(alloc, bytes, options, tested)
}

/// The test of a program that passes with its new comments.
fn passed(alloc: Global, expectation: Expectation) -> Tested
    ensures { result.verdict ≡ Verdict.Passed expectation }
{
    Tested {
        verdict: Verdict::Passed(expectation),
        reasons: Vec::new(alloc),
        is_updated: true,
        searched: None,
        plans: Vec::new(alloc),
        outcome: Ok(End::Finished),
    }
}

/// The program stays as it is, since no comment can say what it does.
fn keep(
    alloc: Global,
    bytes: &[u8],
    options: TestOptions,
    tested: Tested,
) -> Result<Updated, Memory>
    requires { IsRight tested.verdict options.leaks bytes.now options.limit }
    ensures { IfOk result (IsUpdated bytes.now options.leaks options.limit) }
{
    let reason = String::from_str(alloc, "a comment can't say what it does")?;
    let mut tested = tested;
    tested.reasons.push(reason)?;
    Ok(Updated { tested, text: None })
}

/// The program with comments that say what its run does; none if its run prints too much, or no comments can be put there.
fn new_text<R: Threads + Wait + Sync>(
    rt: &R,
    alloc: Global,
    bytes: &[u8],
    limit: u64,
) -> Result<Option<Vec<u8>>, Memory>
    requires { IsLimit limit }
{
    let text = Vec::from_slice(alloc, bytes)?;
    let (end, output) = match run_printing(rt, alloc, text, limit) {
        Ok(ran) => ran,
        Err(Fault::Memory) => return Err(Memory),
        Err(_) => return Ok(None),
    };
    let Ok(source) = Source::new(Vec::from_slice(alloc, bytes)?) else {
        return Ok(None);
    };
    match rewritten(alloc, &source, end, output.as_slice()) {
        Ok(text) => Ok(text),
        Err(Fault::Memory) => Err(Memory),
        Err(_) => Ok(None),
    }
}
