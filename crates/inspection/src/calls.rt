//! A goroutine in lines.

use crate::doing::push_doing;
use crate::rows::Row;
use crate::scene::Scene;
use crate::values::push_variables;
use diagnostic_words::words::Words;
use reference_task::task::Frame;
use reference_world::Sleeper;
use watched_goroutine::Track;

/// The most calls of one goroutine that are shown.
const MOST_CALLS: usize = 50;

/// Appends `goroutine N (FUNCTION) clock C FILE:LINE:COLUMN: DOING`, the variables of the function, and then the functions that wait for
/// it, the one called last first.
pub(crate) fn push_goroutine(
    said: &mut Words,
    scene: Scene<'_, '_>,
    sleepers: &[Sleeper],
    row: &Row<'_, '_>,
) {
    let trail = &row.placed.trail;
    said.text("goroutine ");
    said.number(i128::from(row.number));
    said.text(" (");
    if let Some(track) = trail.tracks.last() {
        scene.push_function(said, track.function as usize);
    }
    said.text(") clock ");
    said.number(i128::from(row.time));
    said.text(" ");
    scene.push_location(said, trail.site().node);
    said.text(": ");
    push_doing(said, scene, sleepers, row);
    said.text("\n");
    if let Some(frame) = row.placed.frames.last() {
        push_variables(said, "  ", &frame.position.scope);
    }
    push_callers(said, scene, row);
}

/// Appends the functions that wait for one that they called, the last one first.
fn push_callers(said: &mut Words, scene: Scene<'_, '_>, row: &Row<'_, '_>) {
    let callers = row.placed.frames.len().saturating_sub(1);
    for later in 0..callers.min(MOST_CALLS) {
        let depth = callers.saturating_sub(later).saturating_sub(1);
        if let (Some(frame), Some(track)) = (
            row.placed.frames.get(depth),
            row.placed.trail.tracks.get(depth),
        ) {
            push_caller(said, scene, frame, track);
        }
    }
    let left = callers.saturating_sub(MOST_CALLS);
    if left > 0 {
        said.text("  and ");
        said.number(left as i128);
        said.text(if left == 1 {
            " more call\n"
        } else {
            " more calls\n"
        });
    }
}

/// Appends where a function was called from, and the variables there.
fn push_caller(said: &mut Words, scene: Scene<'_, '_>, frame: &Frame<'_>, track: &Track<'_>) {
    said.text("  called from ");
    scene.push_function(said, track.function as usize);
    if let Some(site) = track.site() {
        said.text(" at ");
        scene.push_location(said, site.node);
    }
    said.text("\n");
    push_variables(said, "    ", &frame.position.scope);
}
