//! The test of other orders.

ghost use Rattle.std.specs.Prelude.{◌≡◌, ◌⊎◌, ◌<◌, IfOk, IsTrue, List, Some, false, length, true, ℕ};
ghost use Rattle.exploration.specs.declared.runner.Ran.{Ran};
ghost use Rattle.kendo_explore.specs.Explored.{AreShown, end_by};
ghost use Rattle.kendo_reading.specs.Reading.{Reads};
ghost use Rattle.kendo_test.specs.Passing.{IsFound, Leaks, Misses};
ghost use Rattle.program_states.specs.declared.space.Scope.{Scope as ScopeValue};
ghost use Rattle.syntax.specs.Tree.{File};

use crate::differences::push_other;
use crate::lines::Failure;
use diagnostic_words::words::Words;
use expected_output::Expectation;
use go_text::{Fault, Memory};
use kendo_explore::{
    Explored, Extent, Options, PlanFile, Progress, Ran as OrdinaryRun, Scope, explore_bytes,
};
use std::alloc::Global;
use word::end::End;

/// How long other orders are searched.
#[derive(Clone, Copy)]
pub struct OrderSearch {
    /// How many walks are made at random.
    pub tries: u64,
    /// How many states are visited at most.
    pub states: u64,
}

/// What other orders are searched for.
#[derive(Clone, Copy)]
pub(crate) struct OrderTask<'e> {
    /// The clock limit.
    pub limit: u64,
    /// Whether goroutines that wait for good when `main` has returned count.
    pub leaks: bool,
    pub expectation: &'e Expectation,
}

/// What was found in other orders.
#[derive(Drop)]
pub(crate) struct Found {
    /// The plans of the ends that are not expected.
    pub failing: Vec<PlanFile>,
    /// Whether the ordinary run leaves goroutines that count.
    pub leaks_alone: bool,
    /// Whether an end was found that the ordinary run doesn't have, and that no plan shows.
    pub has_unshown: bool,
    pub searched: Searched,
}

/// How much of the other orders was searched.
#[derive(Clone, Copy)]
pub struct Searched {
    /// How many states were visited.
    pub states: usize,
    /// How many walks were made.
    pub walks: u64,
    /// Whether all orders were searched.
    pub is_whole: bool,
}

/// Names only the plans of ends that are not expected.
#[derive(Drop)]
struct Failing<'e, 'p, P> {
    expectation: &'e Expectation,
    leaks: bool,
    progress: &'p mut P,
}

impl<P: Progress> Progress for Failing<'_, '_, P> {
    fn goes_on(&mut self, extent: Extent) -> bool {
        self.progress.goes_on(extent)
    }

    fn shows(&mut self, alloc: Global, number: usize, plan: &PlanFile) -> Result<String, Memory> {
        if is_failing(alloc, plan, self.expectation, self.leaks)? {
            self.progress.shows(alloc, number, plan)
        } else {
            Ok(String::new(alloc))
        }
    }
}

impl OrderSearch {
    /// Searches the other orders of the program of a text for ends that are not expected.
    ///
    /// Errors: out of memory.
    pub(crate) fn find<P: Progress>(
        self,
        alloc: Global,
        path: &str,
        bytes: &[u8],
        task: &OrderTask<'_>,
        progress: &mut P,
    ) -> Result<Found, Memory>
        ensures { IfOk result (IsFound task.now.expectation.now task.now.leaks bytes.now task.now.limit) }
    {
        let OrderTask {
            limit,
            leaks,
            expectation,
        } = *task;
        let options = Options {
            tries: self.tries,
            states: self.states,
            limit,
            scope: scope_of(expectation, leaks),
        };
        let text = Vec::from_slice(alloc, bytes)?;
        let mut failing = Failing {
            expectation,
            leaks,
            progress,
        };
        match explore_bytes(alloc, path, text, options, &mut failing) {
            Ok(explored) => unexpected(alloc, explored, expectation, leaks),
            Err(Fault::Memory | _) => Err(Memory),
        }
    }
}

impl Found {
    /// Whether the program fails.
    pub(crate) fn fails(&self) -> bool
        ensures { IsTrue result → (self.now.leaks_alone ≡ true) ⊎ (0 < length self.now.failing.items) }
    {
        self.leaks_alone || !self.failing.is_empty()
    }
}

impl Searched {
    /// Appends how much was searched.
    pub(crate) fn push(self, said: &mut Words) {
        said.text(if self.is_whole {
            "all orders, "
        } else {
            "not all orders: "
        });
        push_count(said, self.states as i128, " state", " states");
        if !self.is_whole && self.walks > 0 {
            said.text(", ");
            push_count(said, i128::from(self.walks), " walk", " walks");
        }
    }
}

/// Appends a number and what is counted.
fn push_count(said: &mut Words, count: i128, one: &str, many: &str) {
    said.number(count);
    said.text(if count == 1 { one } else { many });
}

/// Which ends differ; `leaks` says whether goroutines that wait for good when `main` has returned count.
fn scope_of(expectation: &Expectation, leaks: bool) -> Scope
    ensures { result.leaks ≡ leaks }
{
    let lines_in_order = match &expectation.output {
        Some(output) => !output.is_unordered,
        None => true,
    };
    Scope {
        outputs: expectation.output.is_some(),
        lines_in_order,
        leaks,
    }
}

/// The ends that are not expected. Ends at a limit of kendo's own are not ends of Go.
fn unexpected(
    alloc: Global,
    explored: Explored,
    expectation: &Expectation,
    leaks: bool,
) -> Result<Found, Memory>
    ensures { (text : List ℕ) (limit : ℕ) (file : File) (scope : ScopeValue) → scope.leaks ≡ leaks → Reads text file → AreShown file limit scope explored → IfOk result (IsFound expectation.now leaks text limit) }
{
    let Explored {
        report: _,
        outcomes: _,
        unlisted: _,
        plans,
        ordinary,
        verdict: _,
        states,
        walks,
        is_whole,
        has_unshown,
    } = explored;
    let leaks_alone = is_leaking(&ordinary);
    let mut failing = Vec::new(alloc);
    for plan in plans {
        if is_failing(alloc, &plan, expectation, leaks)? {
            failing.push(plan)?;
        }
    }
    Ok(Found {
        failing,
        leaks_alone,
        has_unshown,
        searched: Searched {
            states,
            walks,
            is_whole,
        },
    })
}

/// Whether the ordinary run leaves goroutines that count.
fn is_leaking(ordinary: &Option<OrdinaryRun>) -> bool
    ensures { IsTrue result → (ran : Ran) × (ordinary.now ≡ Some ran) × (ran.leaks ≡ true) }
{
    match ordinary {
        Some(ran) => ran.leaks,
        None => false,
    }
}

/// Whether an end, which Go has too, is not expected, or leaves goroutines that count.
fn is_failing(
    alloc: Global,
    plan: &PlanFile,
    expectation: &Expectation,
    leaks: bool,
) -> Result<bool, Memory>
    ensures { IfOk result (λ is. IsTrue is → (plan.now.own_limit ≡ false) × (Misses expectation.now plan.now.end plan.now.output.items ⊎ Leaks leaks (end_by plan.now))) }
{
    if plan.own_limit {
        return Ok(false);
    }
    if leaks && plan.leaks && plan.end == End::Finished {
        return Ok(true);
    }
    Ok(!expectation.is_met(alloc, plan.end, plan.output.as_slice())?)
}

/// Appends a reason for each end that is not expected.
///
/// Errors: out of memory.
pub(crate) fn push_failing(
    failure: &mut Failure,
    alloc: Global,
    expectation: &Expectation,
    failing: &[PlanFile],
) -> Result<(), Memory> {
    for plan in failing {
        if plan.leaks {
            failure.reason();
            failure.said.text("goroutines left waiting");
        } else {
            push_other(
                failure,
                alloc,
                expectation,
                plan.end,
                plan.output.as_slice(),
            )?;
        }
        failure.said.text(" in another order: ");
        failure.said.text(plan.name.as_str());
    }
    Ok(())
}
