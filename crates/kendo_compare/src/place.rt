//! The location in the source of the request of an event.

use crate::lines::Program;
use go_text::{Fault, Memory};
use kendo_code::timeline_window;
use paused_timeline::timeline_paused;
use std::alloc::Global;
use timeline::{Recording, Window, transfer_of};

/// The location in the source of the request of an event.
#[derive(Drop)]
pub(crate) struct Place {
    /// The name of the function.
    pub function: Option<String>,
    /// The line, counted from 1.
    pub line: Option<u32>,
    /// What the event sends or receives, as `sends 3 on orders`; `None` if it does neither.
    pub event: Option<String>,
}

impl Place {
    /// The location of an event of the run of a program. Events are counted from 1.
    ///
    /// Errors: out of memory.
    pub(crate) fn of(alloc: Global, program: &Program<'_>, event: u64) -> Result<Place, Memory> {
        match event_of(alloc, program, Window::From(event)) {
            Ok(recording) => Place::in_recording(alloc, &recording),
            Err(Fault::Memory) => Err(Memory),
            Err(_) => Ok(Place::unknown()),
        }
    }

    /// The location of the only event of a recording.
    fn in_recording(alloc: Global, recording: &Recording) -> Result<Place, Memory> {
        let event = transfer_in(alloc, recording)?;
        let Some(Some(site)) = recording.sites.first().copied() else {
            return Ok(Place {
                function: None,
                line: None,
                event,
            });
        };
        let function = match recording.functions.get(site.function) {
            Some(name) => Some(name.clone()?),
            None => None,
        };
        let line = match recording.notes.lines.get(site.function) {
            Some(lines) => lines.get(site.index).copied(),
            None => None,
        };
        Ok(Place {
            function,
            line,
            event,
        })
    }

    /// A location of which nothing is known.
    pub(crate) fn unknown() -> Place {
        Place {
            function: None,
            line: None,
            event: None,
        }
    }
}

/// What the first event of a recording sends or receives, in words; `None` if it does neither.
fn transfer_in(alloc: Global, recording: &Recording) -> Result<Option<String>, Memory> {
    match recording.events.first() {
        Some(event) if transfer_of(event).is_some() => recording.event_words(alloc, 0),
        _ => Ok(None),
    }
}

/// The first event of a window of the run of a program.
fn event_of(alloc: Global, program: &Program<'_>, window: Window) -> Result<Recording, Fault> {
    let bytes = Vec::from_slice(alloc, program.bytes)?;
    match program.plan {
        Some(plan) => timeline_paused(alloc, bytes, plan, program.limit, window, 1),
        None => timeline_window(alloc, bytes, program.limit, window, 1),
    }
}
