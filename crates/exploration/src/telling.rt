//! The report of an exploration.

ghost use Rattle.std.specs.Prelude.{◌≡◌, ◌↔◌, [], Some, false, map, true};
ghost use Rattle.exploration.specs.Shown.{are_own_limits, has_other, seen};
ghost use Rattle.exploration.specs.declared.runner.Ran.{Ran as RanValue};

use crate::exploration::{Exploration, MANY_MOVES};
use crate::findings::{Findings, Verdict};
use crate::lines::{push_count, push_end, push_number, push_panic, push_shown_end};
use crate::mixed::Orders;
use crate::scene::Scene;
use diagnostic_words::words::Words;
use go_text::Memory;
use orders::Cut;
use program_states::Ending;
use word::end::End;

/// The most ends without a run that are listed.
const MOST_MISSED: usize = 3;

/// Why a search ended before all states were visited.
#[derive(Clone, Copy, PartialEq, Eq)]
pub enum Stop {
    /// As many states were visited as are allowed, or all.
    States,
    /// The time was over.
    Time,
}

/// How many ends of each sort there are that Go has too.
#[derive(Clone, Copy)]
struct Counts {
    deadlocks: usize,
    panics: usize,
    leaks: usize,
    all: usize,
}

impl Counts {
    /// With one more end.
    fn with(self, ending: Ending) -> Counts {
        let mut counts = self;
        match ending {
            Ending::Deadlock => counts.deadlocks = counts.deadlocks.saturating_add(1),
            Ending::Panicked(_) => counts.panics = counts.panics.saturating_add(1),
            Ending::Leak => counts.leaks = counts.leaks.saturating_add(1),
            Ending::Finished => {}
            Ending::Limit(_) => return self,
        }
        counts.all = counts.all.saturating_add(1);
        counts
    }

    /// How many ends are errors, or leave goroutines that wait.
    fn bad(self) -> usize {
        self.deadlocks
            .saturating_add(self.panics)
            .saturating_add(self.leaks)
    }
}

impl Exploration<'_> {
    /// The verdict.
    pub fn verdict(&self, findings: &Findings) -> Verdict
        ensures other { (result ≡ Verdict.Other) ↔ (has_other findings.now.ordinary (are_own_limits (map seen findings.now.shown.items)) ≡ true) }
        ensures same { result ≡ Verdict.Same → (findings.now.shown.items ≡ []) × ((ran : RanValue) × (findings.now.ordinary ≡ Some ran) × (ran.own_limit ≡ false)) }
        ensures unended { result ≡ Verdict.Unended → findings.now.shown.items ≡ [] }
    {
        findings.verdict(self.is_whole(findings), self.has_unshown(findings))
    }

    /// Whether all orders were searched, and the ordinary run reached no limit of kendo's own.
    pub fn is_whole(&self, findings: &Findings) -> bool {
        let is_cut = match &findings.ordinary {
            Some(ran) => ran.own_limit,
            None => false,
        };
        self.search.is_whole() && !is_cut
    }

    /// Whether an end was found that Go has too, and that no run shows.
    pub fn has_unshown(&self, findings: &Findings) -> bool {
        findings.counted > 0
            || findings.missed.iter().any(|index| {
                !matches!(self.search.end(*index), Some((Ending::Limit(_), _)) | None)
            })
    }

    /// The report; `files` are the names of the files of plans, in the order of the ends that were shown.
    ///
    /// Errors: out of memory.
    pub fn report(
        &self,
        scene: Scene<'_>,
        findings: &Findings,
        files: &[String],
        stop: Stop,
    ) -> Result<Vec<u8>, Memory> {
        let mut said = Words::new(scene.alloc);
        self.push_heading(&mut said, scene, findings, stop);
        for index in 0..findings.shown.len() {
            if index == findings.first {
                self.push_ordinary(&mut said, scene, findings)?;
            }
            push_other(&mut said, scene, findings, files, index);
        }
        if findings.first >= findings.shown.len() {
            self.push_ordinary(&mut said, scene, findings)?;
        }
        self.push_rest(&mut said, scene, findings)?;
        self.push_orders(&mut said, findings);
        let locals = self.search.states();
        for (index, one) in findings.shown.iter().enumerate() {
            push_shown_end(&mut said, scene, locals, findings.number(index), one);
        }
        Ok(said.into_bytes()?)
    }

    /// How many ends there are that Go has too.
    fn counts(&self, findings: &Findings) -> Counts {
        let mut counts = Counts {
            deadlocks: 0,
            panics: 0,
            leaks: 0,
            all: 0,
        };
        for found in self.search.ends().iter() {
            counts = counts.with(found.ending);
        }
        match &findings.ordinary {
            Some(ran) if !self.has_ordinary => match ran.ending() {
                Some(ending) => counts.with(ending),
                None => counts.with(Ending::Finished),
            },
            _ => counts,
        }
    }

    /// Appends what was found, and how much was searched.
    fn push_heading(&self, said: &mut Words, scene: Scene<'_>, findings: &Findings, stop: Stop) {
        said.text(scene.path);
        said.text(": ");
        let counts = self.counts(findings);
        if counts.bad() > 0 {
            push_bad(said, counts);
        } else {
            self.push_good(said, findings, counts);
        }
        self.push_extent(said, scene, findings, stop);
    }

    /// Appends that no errors were found, and how many ends.
    fn push_good(&self, said: &mut Words, findings: &Findings, counts: Counts) {
        said.text("no deadlock, no panic");
        if self.options().scope.leaks {
            said.text(", no goroutine left waiting");
        }
        if !self.is_whole(findings) {
            said.text(" found");
        }
        match counts.all {
            0 => said.text(", no end"),
            1 => said.text(", one outcome"),
            count => {
                said.text(", but ");
                push_number(said, count);
                said.text(" outcomes");
            }
        }
    }

    /// Appends how much was searched.
    fn push_extent(&self, said: &mut Words, scene: Scene<'_>, findings: &Findings, stop: Stop) {
        let is_whole = self.is_whole(findings);
        said.text(if is_whole {
            "; all orders searched ("
        } else {
            "; not all orders searched ("
        });
        push_count(said, self.search.visited(), " state", " states");
        if !is_whole {
            let walks = usize::try_from(self.search.walks()).unwrap_or(usize::MAX);
            if walks > 0 {
                said.text(", ");
                push_count(said, walks, " walk", " walks");
            }
            said.text("; ");
            self.push_cut(said, scene, findings, stop);
        }
        said.text(")\n");
    }

    /// Appends why not all orders were searched.
    fn push_cut(&self, said: &mut Words, scene: Scene<'_>, findings: &Findings, stop: Stop) {
        let ordinary = findings.ordinary.as_ref().filter(|ran| ran.own_limit);
        match (self.search.cut(), ordinary.map(|ran| ran.end)) {
            (Some(Cut::Limit(panic)), _) | (_, Some(End::Panicked(panic))) => {
                said.text("a limit of kendo was reached: ");
                push_panic(said, scene.alloc, panic);
            }
            (_, Some(_)) => said.text("a limit of kendo was reached: --limit"),
            (Some(Cut::Runs), None) => {
                said.text("a goroutine made no request in 1,048,576 steps");
            }
            (None, None) => said.text(match stop {
                Stop::States => "--states searches more",
                Stop::Time => "the time was over",
            }),
        }
    }

    /// Appends a line for the end of the ordinary run, or the one that stands for it.
    fn push_ordinary(
        &self,
        said: &mut Words,
        scene: Scene<'_>,
        findings: &Findings,
    ) -> Result<(), Memory> {
        said.text("  ");
        said.number(ordinary_number(findings) as i128);
        said.text("  ");
        let Some(ran) = &findings.ordinary else {
            return self.push_unended(said, scene);
        };
        match ran.ending() {
            Some(ending) => push_end(said, scene.alloc, ending, ran.output.as_slice()),
            None => said.text("logical time exhausted, a limit of kendo"),
        }
        said.text("  as kendo run\n");
        if self.stand_in.is_some() {
            said.text("  -  ");
            self.push_stand_in(said, scene)?;
            said.text("  without that limit\n");
        }
        Ok(())
    }

    /// Appends a line for an ordinary run that did not end in time.
    fn push_unended(&self, said: &mut Words, scene: Scene<'_>) -> Result<(), Memory> {
        if self.search.is_whole() && self.search.ends().is_empty() {
            said.text("goes on for good, in each order\n");
            return Ok(());
        }
        if self.stand_in.is_some() {
            self.push_stand_in(said, scene)?;
            said.text("  ");
        } else {
            said.text("goes on  ");
        }
        said.text("as kendo run, which did not end within ");
        push_number(said, usize::try_from(MANY_MOVES).unwrap_or(usize::MAX));
        said.text(" steps\n");
        Ok(())
    }

    /// Appends the end that stands for the ordinary one.
    fn push_stand_in(&self, said: &mut Words, scene: Scene<'_>) -> Result<(), Memory> {
        if let Some((ending, output)) = self.stand_in.and_then(|index| self.search.end(index)) {
            let text = self.search.text_of(output)?;
            push_end(said, scene.alloc, ending, text.as_slice());
        }
        Ok(())
    }

    /// Appends the ends that no run shows, and how many ends are not listed.
    fn push_rest(
        &self,
        said: &mut Words,
        scene: Scene<'_>,
        findings: &Findings,
    ) -> Result<(), Memory> {
        for index in findings.missed.iter().take(MOST_MISSED) {
            if let Some((ending, output)) = self.search.end(*index) {
                said.text("  -  ");
                let text = self.search.text_of(output)?;
                push_end(said, scene.alloc, ending, text.as_slice());
                said.text("  found by the search; no run with pauses shows it in time\n");
            }
        }
        let unlisted = findings.missed.len().saturating_sub(MOST_MISSED);
        let left = unlisted.saturating_add(findings.counted);
        if left > 0 {
            said.text("  and ");
            push_number(said, left);
            said.text(" more\n");
        }
        Ok(())
    }

    /// Appends in how many orders the same lines come.
    fn push_orders(&self, said: &mut Words, findings: &Findings) {
        match self.orders {
            Orders::One => return,
            Orders::Several => said.text("the same lines come in several orders"),
            Orders::Ways(count) => {
                said.text("the same lines come in ");
                push_number(said, count);
                said.text(if self.counts(findings).all > 1 {
                    " orders in all"
                } else {
                    " orders"
                });
            }
        }
        said.text(": --ordered tells them apart\n");
    }
}

/// The number in the report of the end of the ordinary run.
fn ordinary_number(findings: &Findings) -> usize {
    findings.first.min(findings.shown.len()).saturating_add(1)
}

/// Appends the errors among these ends, and how many there are.
fn push_bad(said: &mut Words, counts: Counts) {
    let sorts = [
        (counts.deadlocks, "a deadlock"),
        (counts.panics, "a panic"),
        (counts.leaks, "goroutines left waiting"),
    ];
    let mut before = "";
    for (count, name) in sorts {
        if count > 0 {
            said.text(before);
            said.text(name);
            before = " and ";
        }
    }
    if counts.all == 1 {
        said.text(", the only outcome");
    } else {
        said.text(", in ");
        push_number(said, counts.bad());
        said.text(" of ");
        push_number(said, counts.all);
        said.text(" outcomes");
    }
}

/// Appends a line for the end that was shown at an index.
fn push_other(
    said: &mut Words,
    scene: Scene<'_>,
    findings: &Findings,
    files: &[String],
    index: usize,
) {
    let Some(one) = findings.shown.get(index) else {
        return;
    };
    said.text("  ");
    said.number(findings.number(index) as i128);
    said.text("  ");
    push_end(said, scene.alloc, one.ending, one.output.as_slice());
    if let Some(file) = files.get(index) {
        said.text("  ");
        said.text(file.as_str());
    }
    said.text("\n");
}
