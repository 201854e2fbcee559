//! The pauses of a run by a plan.

use crate::drawing::{Drawing, push_line};
use crate::recording::Pause;
use std::alloc::AllocError;

/// How wide a pause is at least above which its length is written, in pixels.
const WRITTEN: u64 = 90;

/// All pauses of goroutines that have lanes, of which the picture shows a part.
pub(crate) fn push_pauses(text: &mut String, drawing: &Drawing) -> Result<(), AllocError> {
    let recording = drawing.labels.recording;
    for pause in recording.notes.pauses.iter() {
        if let Some(row) = drawing.lanes.row(pause.goroutine) {
            if let Some((from, to)) = span_of(*pause, recording.origin(), drawing.lanes.last) {
                push_pause(text, drawing, (from, to), pause.ticks, drawing.height(row))?;
            }
        }
    }
    Ok(())
}

/// The part of a pause, from clock to clock, that a picture shows which begins and ends at these clocks.
pub(crate) fn span_of(pause: Pause, begin: u64, end: u64) -> Option<(u64, u64)> {
    let from = pause.from.max(begin);
    let to = pause.from.saturating_add(pause.ticks).min(end);
    (from < to).then_some((from, to))
}

/// What a pause is.
pub(crate) fn push_words(text: &mut String, ticks: u64) -> Result<(), AllocError> {
    let unit = if ticks == 1 { "tick" } else { "ticks" };
    write!(text, "pauses {ticks} {unit}")
}

/// A pause in the lane at this height: its line is dashed.
fn push_pause(
    text: &mut String,
    drawing: &Drawing,
    (from, to): (u64, u64),
    ticks: u64,
    y: u64,
) -> Result<(), AllocError> {
    let (left, right) = (drawing.scale.place(from), drawing.scale.place(to));
    text.push_str("<g><title>")?;
    push_words(text, ticks)?;
    text.push_str("</title>\n")?;
    push_line(text, "pause", (left, y), (right, y))?;
    if right.saturating_sub(left) >= WRITTEN {
        let (x, base) = (left.saturating_add(right) / 2, y.saturating_sub(4));
        write!(
            text,
            "<text class=\"small\" x=\"{x}\" y=\"{base}\" text-anchor=\"middle\">"
        )?;
        push_words(text, ticks)?;
        text.push_str("</text>\n")?;
    }
    text.push_str("</g>\n")
}
