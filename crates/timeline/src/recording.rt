//! What a picture shows.

ghost use Rattle.std.specs.Prelude.{◌≡◌};

use crate::label::Labels;
use crate::lanes::Lanes;
use crate::names::{Mention, Names};
use go_text::Memory;
use std::alloc::{AllocError, Global};
use word::end::End;
use word::request::Event;

/// At how many instructions the channels of a recording are looked up at most.
const MOST_SITES: usize = 500;

/// An instruction of a program: the number of its function, and its index there.
#[derive(Clone, Copy)]
pub struct Site {
    pub function: usize,
    pub index: usize,
}

impl Site {
    /// A number that grows from each instruction of a program to the next one.
    pub(crate) fn key(self) -> u64 {
        (self.function as u64)
            .saturating_mul(1 << 32)
            .saturating_add(self.index as u64)
    }
}

/// A goroutine waits before a request, since the plan of its run says so.
#[derive(Clone, Copy)]
pub struct Pause {
    /// The number of the goroutine.
    pub goroutine: u64,
    /// The clock at which the pause begins.
    pub from: u64,
    pub ticks: u64,
}

/// What is known of a recorded run, except for its events.
pub struct Notes {
    /// For each function, the lines of the source file, counted from 1, from which its instructions come; none if they are not
    /// known.
    pub lines: Vec<Vec<u32>>,
    /// What the program says where it makes or uses channels, in the order of the instructions.
    pub mentions: Vec<Mention>,
    /// The pauses of a run by a plan.
    pub pauses: Vec<Pause>,
}

impl Notes {
    /// Nothing is known.
    pub fn none(alloc: Global) -> Notes {
        Notes {
            lines: Vec::new(alloc),
            mentions: Vec::new(alloc),
            pauses: Vec::new(alloc),
        }
    }
}

impl Drop for Notes {
    fn drop(self) {
        let Notes {
            lines,
            mentions,
            pauses,
        } = self;
        drop(lines);
        drop(mentions);
        drop(pauses);
    }
}

/// Events of a run that follow each other, and what there was before them.
pub struct Recording {
    /// The names of the functions, each at its number.
    pub functions: Vec<String>,
    /// How many events the run had before these.
    pub before: u64,
    /// The goroutines and the channels that there were after those events.
    pub past: Lanes,
    /// In the order in which they were performed.
    pub events: Vec<Event>,
    /// For each event, the instruction that made its request, if it is known.
    pub sites: Vec<Option<Site>>,
    pub notes: Notes,
    /// How the run ended, if it had no more events; none if it goes on.
    pub end: Option<End>,
}

impl Drop for Recording {
    fn drop(self) {
        let Recording {
            functions,
            before: _,
            past,
            events,
            sites,
            notes,
            end: _,
        } = self;
        drop(functions);
        drop(past);
        drop(events);
        drop(sites);
        drop(notes);
    }
}

impl Recording {
    /// This recording, with these notes in place of its own.
    pub fn with_notes(self, notes: Notes) -> Recording
        ensures { (result.before ≡ self.before) × (result.events.items ≡ self.events.items) × (result.end ≡ self.end) }
    {
        let Recording {
            functions,
            before,
            past,
            events,
            sites,
            notes: others,
            end,
        } = self;
        drop(others);
        Recording {
            functions,
            before,
            past,
            events,
            sites,
            notes,
            end,
        }
    }

    /// The instructions at which the channels of the recording are made, and at which they are used first, in their order and each
    /// once. Of very many instructions some are left out.
    ///
    /// Errors: out of memory.
    pub fn channel_sites(&self, alloc: Global) -> Result<Vec<Site>, Memory> {
        let lanes = Lanes::of(alloc, self)?;
        let mut sites: Vec<Site> = Vec::new(alloc);
        for channel in lanes.channel_sites() {
            for site in [channel.made, channel.used].iter().flatten() {
                let key = site.key();
                if sites.len() < MOST_SITES {
                    if let Err(index) = sites.binary_search_by_key(&key, |one| one.key()) {
                        sites.insert(index.min(sites.len()), *site)?;
                    }
                }
            }
        }
        Ok(sites)
    }

    /// The event at this index in words, as `sends 3 on orders`; `None` if there is none.
    ///
    /// Errors: out of memory.
    pub fn event_words(&self, alloc: Global, index: usize) -> Result<Option<String>, Memory> {
        let lanes = Lanes::of(alloc, self)?;
        let names = Names::of(alloc, self, &lanes)?;
        let labels = Labels {
            alloc,
            recording: self,
            names: &names,
        };
        match self.events.get(index) {
            Some(event) => Ok(Some(labels.event(event)?)),
            None => Ok(None),
        }
    }

    /// The name of the function that a goroutine begins with: `main` for goroutine 1, which has no `number` here.
    pub(crate) fn first_function(&self, number: Option<u32>) -> &str {
        match number {
            Some(number) => self.function(number),
            None => "main",
        }
    }

    /// The name of the function of this number, or nothing if it is not known.
    pub(crate) fn function(&self, number: u32) -> &str {
        match self.functions.get(number as usize) {
            Some(name) => name.as_str(),
            None => "",
        }
    }

    /// The line of the source file from which an instruction comes, if it is known.
    pub(crate) fn line(&self, site: Option<Site>) -> Option<u32> {
        let site = site?;
        let lines = self.notes.lines.get(site.function)?;
        lines.get(site.index).copied()
    }

    /// The line of the source file at which the event at this index happened, if it is known.
    pub(crate) fn event_line(&self, index: usize) -> Option<u32> {
        self.line(self.sites.get(index).copied()?)
    }

    /// The number of the event at this index, counted from 1 over the whole run.
    pub(crate) fn event_number(&self, index: usize) -> u64 {
        self.before.saturating_add(index as u64).saturating_add(1)
    }

    /// Whether the run ended by a panic of this goroutine.
    pub(crate) fn panics(&self, number: u64) -> bool {
        match (self.end, self.events.last()) {
            (Some(End::Panicked(_)), Some(event)) => event.number == number,
            _ => false,
        }
    }

    /// How many events the run has had after the last of these.
    pub(crate) fn after(&self) -> u64 {
        self.before.saturating_add(self.events.len() as u64)
    }

    /// The clock of the first event, 0 if there is none or it is the first of the run.
    pub(crate) fn origin(&self) -> u64 {
        match self.events.first() {
            Some(event) if self.before > 0 => event.clock.time(),
            _ => 0,
        }
    }
}

/// Appends ` at line 7`, if the line is known.
pub(crate) fn push_line_number(text: &mut String, line: Option<u32>) -> Result<(), AllocError> {
    match line {
        Some(line) => write!(text, " at line {line}"),
        None => Ok(()),
    }
}
