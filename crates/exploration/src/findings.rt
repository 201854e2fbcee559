//! What is found in other orders of a program's events.

ghost use Rattle.std.specs.Prelude.{◌≡◌, ◌↔◌, [], ◌∷◌, ◌++◌, IsTrue, OnOk, Some, false, true};
ghost use Rattle.std.specs.List.{list_all};
ghost use Rattle.exploration.specs.Shown as ends;
ghost use Rattle.exploration.specs.declared.runner.Ran.{Ran as RanValue};

use crate::runner::Ran;
use crate::shown::Shown;
use go_text::Memory;
use std::alloc::Global;
use word::end::End;
use word::panic::Panic;

/// The result of an exploration.
#[derive(Clone, Copy, PartialEq, Eq)]
pub enum Verdict {
    /// All orders were searched: all end like the ordinary run, and not in an error.
    Same,
    /// All orders were searched: none ends in an error, and those that end all do so in the same way. The ordinary run did not end in time.
    Unended,
    /// All orders searched so far end in the same way, and not in an error, or at a limit that Go doesn't have.
    SameSoFar,
    /// An order ends in an error, or in another way than the ordinary run.
    Other,
    /// The search found such an order, but no run of the interpreter that shows it.
    Unshown,
}

/// How a program ends in the orders of its events that were searched.
#[derive(Drop)]
pub struct Findings {
    /// How the ordinary run ends; none if it does not end in time.
    pub ordinary: Option<Ran>,
    /// The other ends that were shown, in the order of their numbers in the report.
    pub shown: Vec<Shown>,
    /// How many of these come before the ordinary end in the report.
    pub(crate) first: usize,
    /// The indices, among the ends of the search, of those that no run showed.
    pub(crate) missed: Vec<usize>,
    /// How many other ends are only counted.
    pub(crate) counted: usize,
}

impl Findings {
    /// The end of the ordinary run alone.
    pub(crate) fn new(alloc: Global, ordinary: Option<Ran>) -> Findings
        ensures ordinary { result.ordinary ≡ ordinary }
        ensures shown { result.shown.items ≡ [] }
    {
        let first = if has_error(&ordinary) { 0 } else { usize::MAX };
        Findings {
            ordinary,
            shown: Vec::new(alloc),
            first,
            missed: Vec::new(alloc),
            counted: 0,
        }
    }

    /// One more end that is only counted.
    pub(crate) fn count(&mut self)
        ensures ordinary { self.new.ordinary ≡ self.old.ordinary }
        ensures shown { self.new.shown ≡ self.old.shown }
    {
        self.counted = self.counted.saturating_add(1);
    }

    /// How many other ends are only counted.
    pub fn counted(&self) -> usize {
        self.counted
    }

    /// One more end that no run showed.
    ///
    /// Errors: out of memory.
    pub(crate) fn miss(&mut self, index: usize) -> Result<(), Memory>
        ensures ordinary { self.new.ordinary ≡ self.old.ordinary }
        ensures shown { self.new.shown ≡ self.old.shown }
    {
        self.missed.push(index)?;
        Ok(())
    }

    /// One more end.
    ///
    /// Errors: out of memory.
    pub(crate) fn add(&mut self, one: Shown) -> Result<(), Memory>
        ensures ordinary { self.new.ordinary ≡ self.old.ordinary }
        ensures shown { OnOk result (self.new.shown.items ≡ self.old.shown.items ++ one ∷ []) }
    {
        self.shown.push(one)?;
        Ok(())
    }

    /// The number in the report of the end that was shown at an index.
    pub fn number(&self, index: usize) -> usize {
        index.saturating_add(if index < self.first { 1 } else { 2 })
    }

    /// The ordinary end comes after those that are shown by now, unless it is an error, which comes first.
    pub(crate) fn put_ordinary(&mut self)
        ensures ordinary { self.new.ordinary ≡ self.old.ordinary }
        ensures shown { self.new.shown ≡ self.old.shown }
    {
        if !has_error(&self.ordinary) {
            self.first = self.shown.len();
        }
    }

    /// No other end was shown.
    fn is_bare(&self) -> bool
        ensures { IsTrue result → self.now.shown.items ≡ [] }
    {
        self.shown.is_empty()
    }

    /// The verdict: `is_whole` says whether all orders were searched, and `has_unshown` whether an end was found that Go has too, and that
    /// no run shows.
    pub(crate) fn verdict(&self, is_whole: bool, has_unshown: bool) -> Verdict
        ensures other { (result ≡ Verdict.Other) ↔ (ends.has_other self.now.ordinary (list_all (λ one. one.own_limit) self.now.shown.items) ≡ true) }
        ensures same { result ≡ Verdict.Same → IsTrue is_whole × (self.now.shown.items ≡ []) × ((ran : RanValue) × (self.now.ordinary ≡ Some ran) × (ran.own_limit ≡ false)) }
        ensures unended { result ≡ Verdict.Unended → IsTrue is_whole × (self.now.shown.items ≡ []) }
    {
        if has_error(&self.ordinary) || !are_own_limits(self.shown.as_slice()) {
            return Verdict::Other;
        }
        if has_unshown {
            return Verdict::Unshown;
        }
        if !is_whole || !self.is_bare() {
            return Verdict::SameSoFar;
        }
        match &self.ordinary {
            None => Verdict::Unended,
            Some(ran) => same_verdict(ran.own_limit),
        }
    }
}

/// The verdict if all orders end like the ordinary run, which may end at a limit of kendo's own.
fn same_verdict(own_limit: bool) -> Verdict
    ensures same { result ≡ Verdict.Same → own_limit ≡ false }
    ensures other { result ≡ Verdict.Other → ⊥ }
    ensures unended { result ≡ Verdict.Unended → ⊥ }
{
    if own_limit {
        Verdict::SameSoFar
    } else {
        Verdict::Same
    }
}

/// Whether the ordinary run ends in an error of the program, or leaves goroutines that wait for good, if these count.
fn has_error(ordinary: &Option<Ran>) -> bool
    ensures { result ≡ ends.has_error ordinary.now }
{
    match ordinary {
        None => false,
        Some(ran) => ran.leaks || (!ran.own_limit && is_error(ran.end)),
    }
}

/// Whether an end is a deadlock or a panic.
fn is_error(end: End) -> bool
    ensures { result ≡ ends.is_error end }
{
    matches!(end, End::Deadlock | End::Panicked(_))
}

/// Whether each of these ends is a limit of kendo's own.
fn are_own_limits(shown: &[Shown]) -> bool
    ensures { result ≡ list_all (λ one. one.own_limit) shown.now }
{
    for one in shown.iter() {
        if !one.own_limit {
            return false;
        }
    }
    true
}

/// Whether an end is a limit of kendo's own, which Go doesn't have: `is_negative` says of a panic P6 that the size was negative, which
/// Go refuses too.
pub(crate) fn is_own_limit(end: End, is_negative: bool) -> bool
    ensures { ends.IsOwn end result }
{
    match end {
        End::Panicked(Panic::ChannelSize) => !is_negative,
        End::Panicked(Panic::CallDepth | Panic::TooManyGoroutines | Panic::TooManyChannels)
        | End::Exhausted => true,
        _ => false,
    }
}
