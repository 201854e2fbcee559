//! The forms of a picture.

use crate::drawing::draw;
use crate::json::trace_events;
use crate::recording::Recording;
use go_text::Memory;
use std::alloc::Global;

/// How many events a drawing shows at most.
const MOST_DRAWN: usize = 1_000;

/// How many events JSON holds at most.
const MOST_TRACED: usize = 100_000;

/// The form of a picture.
#[derive(Clone, Copy)]
pub enum Format {
    /// A drawing, as SVG.
    Drawing,
    /// JSON in the trace event format.
    TraceEvents,
}

impl Format {
    /// The form of the picture in the file of this path: JSON if it ends in `.json`, else a drawing.
    pub fn of(path: Option<&str>) -> Format {
        match path {
            Some(path) if path.ends_with(".json") => Format::TraceEvents,
            _ => Format::Drawing,
        }
    }

    /// How many events such a picture holds at most.
    pub fn most_events(self) -> usize {
        match self {
            Format::Drawing => MOST_DRAWN,
            Format::TraceEvents => MOST_TRACED,
        }
    }

    /// The picture of a run.
    ///
    /// # Errors
    ///
    /// `Memory` if memory is refused.
    pub fn picture(self, alloc: Global, recording: &Recording) -> Result<String, Memory> {
        match self {
            Format::Drawing => draw(alloc, recording),
            Format::TraceEvents => trace_events(alloc, recording),
        }
    }
}
