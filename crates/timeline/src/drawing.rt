//! The picture of a run as an SVG: a lane for each goroutine, and logical time to the right.

use crate::arrows::push_arrows;
use crate::key::{Key, ROW};
use crate::label::{Labels, count_label, end_label};
use crate::lane_drawing::{push_lanes, push_names};
use crate::lanes::Lanes;
use crate::marks::{HEAD, LEGEND, mark_of};
use crate::names::Names;
use crate::pauses::push_pauses;
use crate::recording::{Recording, push_line_number};
use crate::scale::{Scale, Stop};
use crate::writing::push_escaped;
use go_text::Memory;
use std::alloc::{AllocError, Global};
use word::end::End;
use word::request::Event;

/// The height of a lane, and where the middle of the first one lies if there is no key, in pixels.
const LANE: u64 = 26;

const TOP: u64 = 120;

/// The pixels left of the first clock, for the names of lanes.
pub(crate) const LEFT: u64 = 160;

/// The pixels right of the lanes: at least, and at most if what the goroutines of a deadlock wait for is written there.
const MARGIN: u64 = 24;

const WAITS: u64 = 460;

/// How wide a letter of that is reckoned, in pixels.
const LETTER: u64 = 7;

/// How wide the legend is, in pixels.
const LEGEND_WIDTH: u64 = 780;

/// The pixels of an axis that a break takes.
const BREAK: u64 = 10;

/// The pixels between two numbers of an axis.
const TICKS: u64 = 70;

/// Where an axis lies, in pixels from the top.
#[derive(Clone, Copy)]
struct Axis {
    /// Its line.
    y: u64,
    /// The other ends of its ticks.
    end: u64,
    /// The line on which its numbers are.
    base: u64,
}

/// The parts that a drawing is made of.
#[derive(Drop)]
pub(crate) struct Drawing<'a> {
    pub labels: Labels<'a>,
    pub lanes: &'a Lanes,
    pub scale: &'a Scale,
    pub key: &'a Key,
}

impl Drawing<'_> {
    /// The height at which the lane of this index lies, in pixels.
    pub(crate) fn height(&self, row: usize) -> u64 {
        (row as u64)
            .saturating_mul(LANE)
            .saturating_add(TOP)
            .saturating_add(self.key.rows.saturating_mul(ROW))
    }

    /// The height under the last lane, in pixels.
    fn lowest(&self) -> u64 {
        self.height(self.lanes.lanes.len())
    }
}

/// The picture of a run, as an SVG.
///
/// # Errors
///
/// `Memory` if memory is refused.
pub(crate) fn draw(alloc: Global, recording: &Recording) -> Result<String, Memory> {
    let lanes = Lanes::of(alloc, recording)?;
    let scale = Scale::of(alloc, recording, LEFT)?;
    let names = Names::of(alloc, recording, &lanes)?;
    let labels = Labels {
        alloc,
        recording,
        names: &names,
    };
    let key = Key::of(labels, &lanes, scale.right().max(LEGEND_WIDTH))?;
    let drawing = Drawing {
        labels,
        lanes: &lanes,
        scale: &scale,
        key: &key,
    };
    let mut text = String::new(alloc);
    push_all(&mut text, &drawing)?;
    Ok(text)
}

/// The lanes with what happens in them, the axes, and what is around them.
fn push_all(text: &mut String, drawing: &Drawing) -> Result<(), AllocError> {
    push_head(text, drawing)?;
    push_axis(
        text,
        drawing.height(0).saturating_sub(20),
        true,
        drawing.scale,
    )?;
    push_lanes(text, drawing)?;
    push_pauses(text, drawing)?;
    push_names(text, drawing)?;
    push_arrows(text, drawing)?;
    push_events(text, drawing)?;
    push_axis(
        text,
        drawing.lowest().saturating_sub(4),
        false,
        drawing.scale,
    )?;
    push_edges(text, drawing)?;
    text.push_str("</svg>\n")
}

/// All that comes before the lanes: what the picture shows, and what its marks mean.
fn push_head(text: &mut String, drawing: &Drawing) -> Result<(), AllocError> {
    let right = drawing.scale.right().saturating_add(margin(drawing)?);
    let width = right.max(LEGEND_WIDTH);
    let tall = drawing.lowest().saturating_add(40);
    write!(
        text,
        "<svg xmlns=\"http://www.w3.org/2000/svg\" width=\"{width}\" height=\"{tall}\" viewBox=\"0 0 {width} {tall}\">\n"
    )?;
    text.push_str(HEAD)?;
    push_caption(text, drawing)?;
    text.push_str(LEGEND)?;
    drawing.key.push(text)
}

/// The pixels right of the lanes, enough for what the goroutines of a deadlock wait for.
fn margin(drawing: &Drawing) -> Result<u64, AllocError> {
    let mut margin = MARGIN;
    if !matches!(drawing.labels.recording.end, Some(End::Deadlock)) {
        return Ok(margin);
    }
    for lane in drawing.lanes.lanes.iter() {
        if let Some(asleep) = &lane.asleep {
            let waits = drawing.labels.wait(asleep)?;
            let letters = (waits.chars().count() as u64).saturating_add(2);
            margin = margin.max(letters.saturating_mul(LETTER));
        }
    }
    Ok(margin.min(WAITS))
}

/// Which events are shown, and how the run ended.
fn push_caption(text: &mut String, drawing: &Drawing) -> Result<(), AllocError> {
    let Labels {
        alloc,
        recording,
        ..
    } = drawing.labels;
    let count = count_label(alloc, recording)?;
    let ends = end_label(alloc, recording.end)?;
    write!(
        text,
        "<text class=\"caption\" x=\"12\" y=\"28\">{count}, {ends}</text>\n"
    )
}

/// A line of this class from one point to another.
pub(crate) fn push_line(
    text: &mut String,
    class: &str,
    from: (u64, u64),
    to: (u64, u64),
) -> Result<(), AllocError> {
    let ((x1, y1), (x2, y2)) = (from, to);
    write!(
        text,
        "<line class=\"{class}\" x1=\"{x1}\" y1=\"{y1}\" x2=\"{x2}\" y2=\"{y2}\"/>\n"
    )
}

/// The marks of all events.
fn push_events(text: &mut String, drawing: &Drawing) -> Result<(), AllocError> {
    for (index, event) in drawing.labels.recording.events.iter().enumerate() {
        if let Some(row) = drawing.lanes.row(event.number) {
            push_mark(text, drawing, event, drawing.height(row))?;
            push_title(text, drawing, index, event)?;
        }
    }
    Ok(())
}

/// The mark of an event, up to its title.
fn push_mark(
    text: &mut String,
    drawing: &Drawing,
    event: &Event,
    y: u64,
) -> Result<(), AllocError> {
    let x = drawing.scale.place(event.clock.time());
    let mark = mark_of(event, drawing.scale.is_dense());
    let (class, shape) = (mark.class, mark.shape);
    write!(text, "<path class=\"{class}\" d=\"M{x} {y}{shape}\">")
}

/// The title of an event's mark, which is shown when a pointer rests on it, and the end of the mark.
fn push_title(
    text: &mut String,
    drawing: &Drawing,
    index: usize,
    event: &Event,
) -> Result<(), AllocError> {
    let (clock, goroutine) = (event.clock.time(), event.number);
    let recording = drawing.labels.recording;
    let number = recording.event_number(index);
    write!(
        text,
        "<title>event {number}, clock {clock}: goroutine {goroutine} "
    )?;
    let label = drawing.labels.event(event)?;
    push_escaped(text, label.as_str())?;
    push_line_number(text, recording.event_line(index))?;
    text.push_str("</title></path>\n")
}

/// An axis at this height, with the clocks of some events above it or below it.
fn push_axis(text: &mut String, y: u64, is_above: bool, scale: &Scale) -> Result<(), AllocError> {
    push_line(text, "axis", (LEFT, y), (scale.right(), y))?;
    let base = y.saturating_add(4);
    write!(
        text,
        "<text class=\"small\" x=\"12\" y=\"{base}\">logical time</text>\n"
    )?;
    let axis = if is_above {
        Axis {
            end: y.saturating_sub(4),
            base: y.saturating_sub(7),
            y,
        }
    } else {
        Axis {
            end: y.saturating_add(4),
            base: y.saturating_add(15),
            y,
        }
    };
    push_tick(text, scale.origin, LEFT, axis)?;
    push_ticks(text, axis, scale)?;
    for stop in scale.stops.iter() {
        push_break(text, *stop, y, scale)?;
    }
    Ok(())
}

/// The break of an axis at this height before a stop, if the time before it was cut and there is space for a break.
fn push_break(text: &mut String, stop: Stop, y: u64, scale: &Scale) -> Result<(), AllocError> {
    let half = scale.half_of_cut();
    let Some(ticks) = stop.cut else {
        return Ok(());
    };
    if half < BREAK {
        return Ok(());
    }
    let (x, top) = (
        scale.place(stop.clock).saturating_sub(half),
        y.saturating_sub(4),
    );
    write!(
        text,
        "<path class=\"break\" d=\"M{x} {top}m-4 8l4 -8m0 8l4 -8\"><title>{ticks} ticks, cut short</title></path>\n"
    )
}

/// The clocks of events on an axis, of those that lie too near to each other the first.
fn push_ticks(text: &mut String, axis: Axis, scale: &Scale) -> Result<(), AllocError> {
    let mut free = LEFT.saturating_add(TICKS);
    for stop in scale.stops.iter() {
        let x = scale.place(stop.clock);
        if x >= free {
            push_tick(text, stop.clock, x, axis)?;
            free = x.saturating_add(TICKS);
        }
    }
    Ok(())
}

/// A clock on an axis.
fn push_tick(text: &mut String, clock: u64, x: u64, axis: Axis) -> Result<(), AllocError> {
    let (y, end, base) = (axis.y, axis.end, axis.base);
    write!(
        text,
        "<line class=\"axis\" x1=\"{x}\" y1=\"{y}\" x2=\"{x}\" y2=\"{end}\"/><text class=\"small\" x=\"{x}\" y=\"{base}\" text-anchor=\"middle\">{clock}</text>\n"
    )
}

/// The edges at which the run was cut, and what is not shown there.
fn push_edges(text: &mut String, drawing: &Drawing) -> Result<(), AllocError> {
    let right = drawing.scale.right();
    let Labels {
        alloc,
        recording,
        ..
    } = drawing.labels;
    let before = recording.before;
    if before > 0 {
        let note = format!(in alloc; "{before} events before")?;
        push_edge(text, drawing, LEFT, "start", note.as_str())?;
    }
    match recording.end {
        None => push_edge(text, drawing, right, "end", "cut here: the run goes on"),
        Some(_) => Ok(()),
    }
}

/// An edge, and a note above it that begins or ends there.
fn push_edge(
    text: &mut String,
    drawing: &Drawing,
    x: u64,
    anchor: &str,
    note: &str,
) -> Result<(), AllocError> {
    let (top, bottom) = (drawing.height(0).saturating_sub(36), drawing.lowest());
    let base = top.saturating_sub(4);
    push_line(text, "cut", (x, top), (x, bottom))?;
    write!(
        text,
        "<text class=\"note\" x=\"{x}\" y=\"{base}\" text-anchor=\"{anchor}\">{note}</text>\n"
    )
}
