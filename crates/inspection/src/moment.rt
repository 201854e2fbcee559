//! A moment of a run in lines.

use crate::calls::push_goroutine;
use crate::channels::Uses;
use crate::rows::Row;
use crate::scene::Scene;
use crate::values::form_in;
use channel_names::push_item;
use diagnostic_words::words::Words;
use go_text::Memory;
use kendo_report::report;
use reference_world::Shared;
use std::alloc::Global;
use timeline::transfer_of;
use word::end::End;
use word::request::Event;

/// A moment of a run, in lines: the last event, if there was one, how the run has ended, if it has, then the goroutines of `rows`, and each
/// channel that is in use.
///
/// Errors: out of memory.
pub fn shown_moment(
    scene: Scene<'_, '_>,
    rows: &[Row<'_, '_>],
    shared: &Shared,
    event: Option<&Event>,
    end: Option<End>,
) -> Result<Vec<u8>, Memory> {
    let alloc = scene.alloc;
    let mut said = Words::new(alloc);
    push_event(&mut said, scene, rows, shared.events(), event)?;
    if let Some(end) = end {
        push_end(&mut said, alloc, end);
    }
    let (channels, sleepers) = (shared.channels(), shared.sleepers());
    for row in rows {
        push_goroutine(&mut said, scene, sleepers, row);
    }
    let uses = Uses::new(alloc, channels, sleepers, rows)?;
    uses.push(&mut said, channels, sleepers);
    Ok(said.into_bytes()?)
}

/// Appends `event N: ` and the line of an event, as a trace has it, and the item that it sends or receives, as `(sends order{1, 10})`.
///
/// Errors: out of memory.
fn push_event(
    said: &mut Words,
    scene: Scene<'_, '_>,
    rows: &[Row<'_, '_>],
    number: u64,
    event: Option<&Event>,
) -> Result<(), Memory> {
    let Some(event) = event else {
        said.text("no event yet\n");
        return Ok(());
    };
    let line = tracer::line(scene.alloc, event)?;
    let line = line.as_slice();
    said.text("event ");
    said.number(i128::from(number));
    said.text(": ");
    said.bytes(line.strip_suffix(b"\n".as_slice()).unwrap_or(line));
    if let Some(transfer) = transfer_of(event) {
        let form = form_in(scene, rows, transfer.channel)?;
        said.text(if transfer.sends {
            " (sends "
        } else {
            " (receives "
        });
        push_item(said, form.as_ref(), transfer.item.words());
        said.text(")");
    }
    said.text("\n");
    Ok(())
}

/// Appends how a run has ended.
fn push_end(said: &mut Words, alloc: Global, end: End) {
    said.text("the run has ended: ");
    let Ok((line, _status)) = report(alloc, &Ok(end)) else {
        said.refuse();
        return;
    };
    let line = line.as_slice();
    let line = line.strip_prefix(b"kendo: ".as_slice()).unwrap_or(line);
    if line.is_empty() {
        said.text("finished\n");
    } else {
        said.bytes(line);
    }
}
