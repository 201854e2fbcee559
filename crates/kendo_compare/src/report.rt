//! The words of a comparison.

use crate::lines::{Program, Recorded};
use crate::place::Place;
use diagnostic_words::excerpt::{push_excerpt, push_shown};
use diagnostic_words::words::Words;
use go_text::{Memory, Span};
use std::alloc::Global;
use trace_comparison::{Comparison, Difference, TraceLine};

/// What a comparison is reported from.
#[derive(Clone, Copy)]
pub(crate) struct Report<'r> {
    pub alloc: Global,
    pub program: &'r Program<'r>,
    pub recorded: &'r Recorded<'r>,
    /// The lines of the recorded trace.
    pub was: &'r [TraceLine<'r>],
    /// The lines of the run's trace.
    pub run: &'r [TraceLine<'r>],
    /// How many goroutines the run has.
    pub goroutines: usize,
}

impl Report<'_> {
    /// The lines that report a comparison.
    ///
    /// Errors: out of memory.
    pub(crate) fn lines(self, comparison: Comparison, is_same: bool) -> Result<Vec<u8>, Memory> {
        let mut said = Words::new(self.alloc);
        match comparison {
            Comparison::Differs(difference) if !self.recorded.is_strict => {
                self.push_difference(&mut said, difference)?;
            }
            _ if !is_same => self.push_first_line(&mut said)?,
            Comparison::OtherClocks(event) => self.push_same(&mut said, ", at other clocks", event),
            Comparison::OtherOrder(event) => self.push_same(&mut said, ", in another order", event),
            Comparison::Same | Comparison::Differs(_) => self.push_same(&mut said, "", 0),
        }
        Ok(said.into_bytes()?)
    }

    /// Appends that the goroutines did the same, and from which event on the lines differ, if one does.
    fn push_same(self, said: &mut Words, how: &str, event: usize) {
        said.text("same");
        said.text(how);
        said.text(": ");
        push_count(said, self.goroutines, " goroutine, ", " goroutines, ");
        push_count(said, self.run.len(), " event", " events");
        if event > 0 {
            said.text("; first at event ");
            said.number(event as i128);
        }
        said.text("\n");
    }

    /// Appends the first event that a goroutine has in one trace alone.
    fn push_difference(self, said: &mut Words, difference: Difference) -> Result<(), Memory> {
        let place = self.push_heading(said, difference.event)?;
        said.text("goroutine ");
        said.number(i128::from(difference.goroutine));
        match difference.event {
            Some(event) => {
                push_function(said, &place);
                said.text(", its event ");
                said.number(i128::from(difference.number));
                said.text(": ");
                self.push_source(said, &place);
                push_text(said, request_at(self.run, event));
                push_words(said, &place);
            }
            None => push_missing(said, difference.number),
        }
        said.text("\n");
        said.text(self.recorded.path);
        match difference.recorded {
            Some(event) => {
                push_line_number(said, event);
                push_text(said, request_at(self.was, event));
            }
            None => {
                said.text(": goroutine ");
                said.number(i128::from(difference.goroutine));
                push_missing(said, difference.number);
            }
        }
        said.text("\n");
        self.push_excerpt(said, &place);
        Ok(())
    }

    /// Appends the first line that differs between the traces.
    fn push_first_line(self, said: &mut Words) -> Result<(), Memory> {
        let event = self.first_line();
        let run = line_at(self.run, event);
        let place = self.push_heading(said, run.map(|_| event))?;
        match run {
            Some(line) => {
                self.push_source(said, &place);
                said.text(line);
                push_words(said, &place);
            }
            None => said.text("the run has no more events"),
        }
        said.text("\n");
        said.text(self.recorded.path);
        push_line_number(said, event);
        said.text(line_at(self.was, event).unwrap_or("no more events"));
        said.text("\n");
        self.push_excerpt(said, &place);
        Ok(())
    }

    /// The number of the first line that differs, counted from 1.
    fn first_line(self) -> usize {
        let mut event: usize = 1;
        for (one, other) in self.run.iter().zip(self.was.iter()) {
            if one.line != other.line {
                break;
            }
            event = event.saturating_add(1);
        }
        event
    }

    /// Appends at which event the run differs, or that it does after its last one, and returns where the event is in the source.
    fn push_heading(self, said: &mut Words, event: Option<usize>) -> Result<Place, Memory> {
        match event {
            Some(event) => {
                said.text("kendo: differs at event ");
                said.number(event as i128);
                said.text("\n");
                Place::of(self.alloc, self.program, event as u64)
            }
            None => {
                said.text("kendo: differs after event ");
                said.number(self.run.len() as i128);
                said.text("\n");
                Ok(Place::unknown())
            }
        }
    }

    /// Appends `FILE:LINE: `, if the line is known.
    fn push_source(self, said: &mut Words, place: &Place) {
        if let Some(line) = place.line {
            said.text(self.program.path);
            said.text(":");
            said.number(i128::from(line));
            said.text(": ");
        }
    }

    /// Appends the line of the source, with marks under it, if it is known.
    fn push_excerpt(self, said: &mut Words, place: &Place) {
        let Ok(text) = str::from_utf8(self.program.bytes) else {
            return;
        };
        if let Some(span) = place.line.and_then(|line| line_span(text, line)) {
            push_excerpt(said, text, span);
        }
    }
}

/// Appends a number and what is counted.
fn push_count(said: &mut Words, count: usize, one: &str, many: &str) {
    said.number(count as i128);
    said.text(if count == 1 { one } else { many });
}

/// Appends the function of a location, if it is known.
fn push_function(said: &mut Words, place: &Place) {
    if let Some(function) = &place.function {
        said.text(" (");
        said.text(function.as_str());
        said.text(")");
    }
}

/// Appends what an event is in words, in parentheses, if that is known.
fn push_words(said: &mut Words, place: &Place) {
    if let Some(event) = &place.event {
        said.text(" (");
        push_shown(said, event.as_str());
        said.text(")");
    }
}

/// Appends that a goroutine has no event of a number.
fn push_missing(said: &mut Words, number: u64) {
    said.text(" has no event ");
    said.number(i128::from(number));
}

/// Appends `:LINE: `.
fn push_line_number(said: &mut Words, line: usize) {
    said.text(":");
    said.number(line as i128);
    said.text(": ");
}

/// Appends a text, if it is there.
fn push_text(said: &mut Words, text: Option<&str>) {
    if let Some(text) = text {
        said.text(text);
    }
}

/// What was requested in an event, counted from 1.
fn request_at<'t>(lines: &[TraceLine<'t>], event: usize) -> Option<&'t str> {
    Some(lines.get(event.checked_sub(1)?)?.request)
}

/// The line of an event, counted from 1.
fn line_at<'t>(lines: &[TraceLine<'t>], event: usize) -> Option<&'t str> {
    Some(lines.get(event.checked_sub(1)?)?.line)
}

/// The bytes of a line of a text, counted from 1, without the white space around it.
fn line_span(text: &str, number: u32) -> Option<Span> {
    let mut before: usize = 0;
    let mut rest = text;
    for _ in 1..number {
        let (line, others) = rest.split_once('\n')?;
        before = before.saturating_add(line.len()).saturating_add(1);
        rest = others;
    }
    let (line, _others) = rest.split_once('\n').unwrap_or((rest, ""));
    let indent = line.len().saturating_sub(line.trim_start().len());
    let from = before.saturating_add(indent);
    let to = from.saturating_add(line.trim().len());
    Some(Span {
        from: u32::try_from(from).ok()?,
        to: u32::try_from(to).ok()?,
    })
}
