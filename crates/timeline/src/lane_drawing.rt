//! The lanes of a drawing.

use crate::drawing::{Drawing, LEFT, push_line};
use crate::lanes::{Asleep, Lane, Sleep};
use crate::scale::Scale;
use crate::writing::push_escaped;
use std::alloc::AllocError;
use word::end::End;

/// How many letters of a name are shown at most.
const NAME: usize = 18;

/// How wide a screen is, after which the names of the lanes stand there again, in pixels.
const SCREEN: u64 = 1_200;

/// All lanes.
pub(crate) fn push_lanes(text: &mut String, drawing: &Drawing) -> Result<(), AllocError> {
    let right = drawing.scale.right();
    for (row, lane) in drawing.lanes.lanes.iter().enumerate() {
        let y = drawing.height(row);
        push_line(text, "rail", (LEFT, y), (right, y))?;
        let base = y.saturating_add(4);
        write!(text, "<text x=\"12\" y=\"{base}\">")?;
        push_name(text, drawing, lane)?;
        for sleep in lane.sleeps.iter() {
            push_sleep(text, *sleep, y, drawing.scale)?;
        }
        push_life(text, drawing, lane, y)?;
    }
    Ok(())
}

/// The number of a lane's goroutine and its function, and the end of the text.
fn push_name(text: &mut String, drawing: &Drawing, lane: &Lane) -> Result<(), AllocError> {
    let number = lane.number;
    let name = drawing.labels.recording.first_function(lane.function);
    write!(text, "{number} ")?;
    for (index, letter) in name.chars().enumerate() {
        if index == NAME {
            text.push_str("..")?;
            break;
        }
        text.push(letter)?;
    }
    text.push_str("</text>\n")
}

/// A span of sleep.
fn push_sleep(text: &mut String, sleep: Sleep, y: u64, scale: &Scale) -> Result<(), AllocError> {
    let (from, to) = (scale.place(sleep.from), scale.place(sleep.to));
    push_span(text, "sleep", (from, to), y)
}

/// A span of a lane, from pixel to pixel.
fn push_span(
    text: &mut String,
    class: &str,
    (from, to): (u64, u64),
    y: u64,
) -> Result<(), AllocError> {
    let (top, width) = (y.saturating_sub(8), to.saturating_sub(from));
    write!(
        text,
        "<rect class=\"{class}\" x=\"{from}\" y=\"{top}\" width=\"{width}\" height=\"16\"/>\n"
    )
}

/// The line of a life, and how it goes on after its last event: it has ended, sleeps, or runs on.
fn push_life(text: &mut String, drawing: &Drawing, lane: &Lane, y: u64) -> Result<(), AllocError> {
    let scale = drawing.scale;
    let mut from = scale.place(lane.from);
    for sleep in lane.sleeps.iter() {
        push_line(text, "run", (from, y), (scale.place(sleep.from), y))?;
        from = scale.place(sleep.to);
    }
    if let Some(asleep) = &lane.asleep {
        let since = scale.place(asleep.since);
        push_line(text, "run", (from, y), (since, y))?;
        return push_asleep(text, drawing, asleep, y);
    }
    let end = scale.place(lane.to);
    push_line(text, "run", (from, y), (end, y))?;
    if lane.ended {
        return push_line(
            text,
            "end",
            (end, y.saturating_sub(8)),
            (end, y.saturating_add(8)),
        );
    }
    if drawing.labels.recording.panics(lane.number) {
        return Ok(());
    }
    push_line(text, "on", (end, y), (scale.right(), y))
}

/// A sleep that goes on: at a deadlock with what the goroutine waits for, in red.
fn push_asleep(
    text: &mut String,
    drawing: &Drawing,
    asleep: &Asleep,
    y: u64,
) -> Result<(), AllocError> {
    let (since, right) = (drawing.scale.place(asleep.since), drawing.scale.right());
    if !matches!(drawing.labels.recording.end, Some(End::Deadlock)) {
        return push_span(text, "sleep", (since, right), y);
    }
    push_span(text, "stuck", (since, right), y)?;
    push_line(text, "tail", (since, y), (right, y))?;
    let (x, base) = (right.saturating_add(8), y.saturating_add(4));
    let waits = drawing.labels.wait(asleep)?;
    write!(text, "<text class=\"waits\" x=\"{x}\" y=\"{base}\">")?;
    push_escaped(text, waits.as_str())?;
    text.push_str("</text>\n")
}

/// The names of the lanes once more after each screen, above the lines of those goroutines that are there.
pub(crate) fn push_names(text: &mut String, drawing: &Drawing) -> Result<(), AllocError> {
    let scale = drawing.scale;
    let screens = scale.right().saturating_sub(LEFT) / SCREEN;
    for number in 0..screens {
        let x = number
            .saturating_add(1)
            .saturating_mul(SCREEN)
            .saturating_add(LEFT);
        for (row, lane) in drawing.lanes.lanes.iter().enumerate() {
            let (begins, ends) = (scale.place(lane.from), scale.place(lane.to));
            if begins <= x && (ends > x || !lane.ended) {
                let base = drawing.height(row).saturating_sub(4);
                write!(text, "<text class=\"again\" x=\"{x}\" y=\"{base}\">")?;
                push_name(text, drawing, lane)?;
            }
        }
    }
    Ok(())
}
