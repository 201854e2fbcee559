//! The events that are kept of a run, and what the events before them leave.

ghost use Rattle.std.specs.Prelude.{◌≡◌, ◌+◌, ◌≤◌, ◌<◌, ◌⊎◌, ◌∷◌, ◌++◌, [], IfOk, None, OnOk, Some, length};
ghost use Rattle.event_window.specs.Windows.{Moves};

use go_text::Memory;
use std::alloc::Global;
use std::collections::VecDeque;
use timeline::{Lanes, Notes, Recording, Site};
use word::end::End;
use word::request::Event;

/// Events of a run that follow each other.
pub struct Kept {
    /// How many events the run had before these.
    pub before: u64,
    /// What those left.
    pub past: Lanes,
    pub events: Vec<Event>,
    /// For each event, the instruction that made its request, if it is known.
    pub sites: Vec<Option<Site>>,
    /// How the run ended, if it had no more events.
    pub end: Option<End>,
}

impl Drop for Kept {
    fn drop(self) {
        let Kept {
            before: _,
            past,
            events,
            sites,
            end: _,
        } = self;
        drop(past);
        drop(events);
        drop(sites);
    }
}

impl Kept {
    /// No events of a run, before any.
    ///
    /// Errors: out of memory.
    pub fn new(alloc: Global) -> Result<Kept, Memory>
        ensures { IfOk result (λ kept. (kept.before ≡ 0) × (kept.events.items ≡ []) × (kept.end ≡ None)) }
    {
        Ok(Kept {
            before: 0,
            past: Lanes::new(alloc)?,
            events: Vec::new(alloc),
            sites: Vec::new(alloc),
            end: None,
        })
    }

    /// Takes the run's next event: of the first `skip` of the run it goes into the past.
    ///
    /// Errors: out of memory.
    pub fn take(&mut self, event: Event, site: Option<Site>, skip: u64) -> Result<(), Memory>
        requires begins { (self.old.before ≡ skip) ⊎ ((self.old.before ≤ skip) × (self.old.events.items ≡ [])) }
        ensures moves { OnOk result (Moves self.old.before (self.old.events.items ++ event ∷ []) self.new.before self.new.events.items) }
        ensures begins { OnOk result ((self.new.before ≡ skip) ⊎ ((self.new.before ≤ skip) × (self.new.events.items ≡ []))) }
        ensures skips { OnOk result (self.old.before < skip → self.new.events.items ≡ []) }
        ensures more { OnOk result (length self.new.events.items ≤ length self.old.events.items + 1) }
        ensures end { self.new.end ≡ self.old.end }
    {
        if self.before < skip {
            self.past.take(&event, site)?;
            self.before += 1;
            return Ok(());
        }
        self.sites.push(site)?;
        self.events.push(event)?;
        Ok(())
    }

    /// The run has ended.
    pub fn ended(self, end: End) -> Kept
        ensures { (result.before ≡ self.before) × (result.events.items ≡ self.events.items) × (result.end ≡ Some end) }
    {
        let Kept {
            before,
            past,
            events,
            sites,
            end: _,
        } = self;
        Kept {
            before,
            past,
            events,
            sites,
            end: Some(end),
        }
    }

    /// The recording of these events, of a program whose functions have these names. Nothing else is known of it.
    pub fn recording(self, alloc: Global, functions: Vec<String>) -> Recording
        ensures { (result.before ≡ self.before) × (result.events.items ≡ self.events.items) × (result.end ≡ self.end) }
    {
        let Kept {
            before,
            past,
            events,
            sites,
            end,
        } = self;
        Recording {
            functions,
            before,
            past,
            events,
            sites,
            notes: Notes::none(alloc),
            end,
        }
    }
}

/// The last events of a run, up to some event, and what there was before them.
pub struct Latest {
    /// How many events the run had before these.
    pub before: u64,
    /// What those left.
    pub past: Lanes,
    pub events: VecDeque<Event>,
    /// For each event, the instruction that made its request, if it is known.
    pub sites: VecDeque<Option<Site>>,
}

impl Drop for Latest {
    fn drop(self) {
        let Latest {
            before: _,
            past,
            events,
            sites,
        } = self;
        drop(past);
        drop(events);
        drop(sites);
    }
}

impl Latest {
    /// No events of a run, before any.
    ///
    /// Errors: out of memory.
    pub fn new(alloc: Global) -> Result<Latest, Memory>
        ensures { IfOk result (λ latest. (latest.before ≡ 0) × (latest.events.items ≡ [])) }
    {
        Ok(Latest {
            before: 0,
            past: Lanes::new(alloc)?,
            events: VecDeque::new(alloc),
            sites: VecDeque::new(alloc),
        })
    }

    /// Takes the run's next event: of more than `most` the first one goes into the past.
    ///
    /// Errors: out of memory.
    pub fn push(&mut self, event: Event, site: Option<Site>, most: usize) -> Result<(), Memory>
        requires few { length self.old.events.items ≤ most }
        requires full { (self.old.before ≡ 0) ⊎ (length self.old.events.items ≡ most) }
        ensures moves { OnOk result (Moves self.old.before (self.old.events.items ++ event ∷ []) self.new.before self.new.events.items) }
        ensures few { OnOk result (length self.new.events.items ≤ most) }
        ensures full { OnOk result ((self.new.before ≡ 0) ⊎ (length self.new.events.items ≡ most)) }
    {
        self.events.push_back(event)?;
        self.sites.push_back(site)?;
        if self.events.len() <= most {
            return Ok(());
        }
        let Some(oldest) = self.events.pop_front() else {
            return Ok(());
        };
        let site = self.sites.pop_front().flatten();
        self.past.take(&oldest, site)?;
        self.before = self.before.checked_add(1).ok_or(Memory)?;
        Ok(())
    }

    /// The run has ended.
    pub fn ended(self, end: End) -> Kept
        ensures { (result.before ≡ self.before) × (result.events.items ≡ self.events.items) × (result.end ≡ Some end) }
    {
        let Latest {
            before,
            past,
            events,
            sites,
        } = self;
        Kept {
            before,
            past,
            events: events.into_vec(),
            sites: sites.into_vec(),
            end: Some(end),
        }
    }
}
