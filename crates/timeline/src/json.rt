//! The picture of a run as JSON in the trace event format, which viewers of traces open.

use crate::label::{Labels, count_label, end_label};
use crate::lanes::{Arrow, Asleep, Lane, Lanes, Passes, Sleep};
use crate::moves::transfer_of;
use crate::names::Names;
use crate::pauses::{push_words, span_of};
use crate::recording::Recording;
use crate::writing::push_quoted;
use go_text::Memory;
use std::alloc::{AllocError, Global};
use word::end::End;
use word::request::Event;

/// The picture of a run in the trace event format: a thread for each goroutine, with a slice for its life and one for each sleep,
/// an instant for each event, and a flow for each arrow. A microsecond stands for a unit of logical time.
///
/// # Errors
///
/// `Memory` if memory is refused.
pub(crate) fn trace_events(alloc: Global, recording: &Recording) -> Result<String, Memory> {
    let lanes = Lanes::of(alloc, recording)?;
    let names = Names::of(alloc, recording, &lanes)?;
    let labels = Labels {
        alloc,
        recording,
        names: &names,
    };
    let mut text = String::new(alloc);
    push_all(&mut text, labels, &lanes)?;
    Ok(text)
}

/// The threads, the pauses, the instants and the flows, and how the run ended.
fn push_all(text: &mut String, labels: Labels<'_>, lanes: &Lanes) -> Result<(), AllocError> {
    text.push_str("{\"displayTimeUnit\":\"ns\",\"traceEvents\":[\n")?;
    for lane in lanes.lanes.iter() {
        push_lane(text, labels.recording, lane, lanes.last)?;
        push_last_sleep(text, labels, lane, lanes.last)?;
    }
    push_pauses(text, labels, lanes)?;
    for (index, event) in labels.recording.events.iter().enumerate() {
        push_event(text, labels, index, event)?;
    }
    push_flows(text, labels, lanes)?;
    push_end(text, labels, lanes.last)
}

/// The slices of the pauses of goroutines that have threads.
fn push_pauses(text: &mut String, labels: Labels<'_>, lanes: &Lanes) -> Result<(), AllocError> {
    let recording = labels.recording;
    for pause in recording.notes.pauses.iter() {
        if lanes.row(pause.goroutine).is_some() {
            if let Some((from, to)) = span_of(*pause, recording.origin(), lanes.last) {
                let mut name = String::new(labels.alloc);
                push_words(&mut name, pause.ticks)?;
                push_slice(text, pause.goroutine, name.as_str(), Sleep { from, to })?;
            }
        }
    }
    Ok(())
}

/// The flows between goroutines that have threads.
fn push_flows(text: &mut String, labels: Labels<'_>, lanes: &Lanes) -> Result<(), AllocError> {
    for (flow, arrow) in lanes.arrows.iter().enumerate() {
        if lanes.row(arrow.from).is_some() {
            push_flow(text, labels, flow, *arrow)?;
        }
    }
    Ok(())
}

/// A thread: its name, its place among the others, and slices for its life and its sleeps. A goroutine that goes on lives up to the
/// last clock.
fn push_lane(
    text: &mut String,
    recording: &Recording,
    lane: &Lane,
    last: u64,
) -> Result<(), AllocError> {
    let number = lane.number;
    let name = recording.first_function(lane.function);
    write!(
        text,
        "{{\"ph\":\"M\",\"pid\":1,\"tid\":{number},\"ts\":0,\"name\":\"thread_name\",\"args\":{{\"name\":\"{number} {name}\"}}}},\n"
    )?;
    write!(
        text,
        "{{\"ph\":\"M\",\"pid\":1,\"tid\":{number},\"ts\":0,\"name\":\"thread_sort_index\",\"args\":{{\"sort_index\":{number}}}}},\n"
    )?;
    let life = Sleep {
        from: lane.from,
        to: if lane.ended { lane.to } else { last },
    };
    push_slice(text, number, name, life)?;
    for sleep in lane.sleeps.iter() {
        push_slice(text, number, "asleep", *sleep)?;
    }
    Ok(())
}

/// The slice of a sleep that goes on, up to the last clock.
fn push_last_sleep(
    text: &mut String,
    labels: Labels<'_>,
    lane: &Lane,
    last: u64,
) -> Result<(), AllocError> {
    let Some(asleep) = &lane.asleep else {
        return Ok(());
    };
    let sleep = Sleep {
        from: asleep.since,
        to: last,
    };
    let name = sleep_name(labels, asleep)?;
    push_slice(text, lane.number, name.as_str(), sleep)
}

/// The name of a sleep that goes on: at a deadlock what its goroutine waits for.
fn sleep_name(labels: Labels<'_>, asleep: &Asleep) -> Result<String, AllocError> {
    if !matches!(labels.recording.end, Some(End::Deadlock)) {
        return String::from_str(labels.alloc, "asleep");
    }
    let waits = labels.wait(asleep)?;
    format!(in labels.alloc; "deadlock: {waits}")
}

/// A slice of a thread.
fn push_slice(text: &mut String, number: u64, name: &str, span: Sleep) -> Result<(), AllocError> {
    let (from, length) = (span.from, span.to.saturating_sub(span.from));
    write!(
        text,
        "{{\"ph\":\"X\",\"pid\":1,\"tid\":{number},\"ts\":{from},\"dur\":{length},\"name\":\""
    )?;
    push_quoted(text, name)?;
    text.push_str("\"},\n")
}

/// An instant of a thread: what the event is, its number, and the item that it sends or receives.
fn push_event(
    text: &mut String,
    labels: Labels<'_>,
    index: usize,
    event: &Event,
) -> Result<(), AllocError> {
    let (clock, number) = (event.clock.time(), event.number);
    write!(
        text,
        "{{\"ph\":\"i\",\"s\":\"t\",\"pid\":1,\"tid\":{number},\"ts\":{clock},\"name\":\""
    )?;
    let label = labels.event(event)?;
    push_quoted(text, label.as_str())?;
    let count = labels.recording.event_number(index);
    write!(
        text,
        "\",\"args\":{{\"event\":{count},\"goroutine\":{number}"
    )?;
    if let Some(line) = labels.recording.event_line(index) {
        write!(text, ",\"line\":{line}")?;
    }
    push_item(text, labels, event)?;
    text.push_str("}},\n")
}

/// The item that an event sends or receives, and its channel.
fn push_item(text: &mut String, labels: Labels<'_>, event: &Event) -> Result<(), AllocError> {
    let Some(transfer) = transfer_of(event) else {
        return Ok(());
    };
    let mut words = String::new(labels.alloc);
    labels.names.push_channel(&mut words, transfer.channel)?;
    text.push_str(",\"channel\":\"")?;
    push_quoted(text, words.as_str())?;
    words.clear();
    labels.push_item(&mut words, transfer)?;
    text.push_str("\",\"item\":\"")?;
    push_quoted(text, words.as_str())?;
    text.push_str("\"")
}

/// A flow from one thread to another.
fn push_flow(
    text: &mut String,
    labels: Labels<'_>,
    flow: usize,
    arrow: Arrow,
) -> Result<(), AllocError> {
    let name = match arrow.passes {
        Passes::Item(channel) => labels.item_on(arrow.event, channel)?,
        passes => String::from_str(labels.alloc, passes.name())?,
    };
    push_flow_end(text, "s", flow, name.as_str(), (arrow.from, arrow.leaves))?;
    push_flow_end(text, "f", flow, name.as_str(), (arrow.to, arrow.reaches))
}

/// One of the two ends of a flow, at the thread of this number and at this clock.
fn push_flow_end(
    text: &mut String,
    phase: &str,
    flow: usize,
    name: &str,
    (number, clock): (u64, u64),
) -> Result<(), AllocError> {
    write!(
        text,
        "{{\"ph\":\"{phase}\",\"bp\":\"e\",\"pid\":1,\"tid\":{number},\"ts\":{clock},\"id\":{flow},\"cat\":\"goroutines\",\"name\":\""
    )?;
    push_quoted(text, name)?;
    text.push_str("\"},\n")
}

/// How the run ended, and the name of the whole, which comes last.
fn push_end(text: &mut String, labels: Labels<'_>, last: u64) -> Result<(), AllocError> {
    let Labels {
        alloc,
        recording,
        ..
    } = labels;
    let ends = end_label(alloc, recording.end)?;
    let count = count_label(alloc, recording)?;
    write!(
        text,
        "{{\"ph\":\"i\",\"s\":\"g\",\"pid\":1,\"tid\":1,\"ts\":{last},\"name\":\"{ends}\"}},\n"
    )?;
    write!(
        text,
        "{{\"ph\":\"M\",\"pid\":1,\"tid\":1,\"ts\":0,\"name\":\"process_name\",\"args\":{{\"name\":\"{count}, {ends}\"}}}}\n]}}\n"
    )
}
