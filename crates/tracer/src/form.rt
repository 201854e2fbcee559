//! A goroutine's request and its outcome, as text.

ghost use Rattle.std.specs.Prelude.{◌≡◌, ◌+◌, ◌-◌, ◌*◌, ◌++◌, [], codes, decimal, length, slice_get};
ghost use Rattle.std.specs.List.{flat_map};
ghost use Rattle.word.specs.Views.{event_of, outcome_of};
ghost use Rattle.tracer.specs.Room.{AppendsWithin, HasRoom};
ghost use Rattle.tracer.specs.Trace.{channel_text, clause_number, clause_text, close_text, operation_text, receive_text, request_text, result_text, select_text, send_text, woken_text};

use crate::outcome::{push_channel, push_outcome, push_panic};
use crate::room::{push_number, push_text};
use word::request::{Case, Event, EventOutcome, Reply, Request};

/// An event without its clock and number: the request and the outcome.
pub(crate) fn push_request(lines: &mut Vec<u8>, event: &Event)
    requires { HasRoom lines.old (77 + 21 * length event.now.partners.items) }
    ensures { let e = event_of event.now in AppendsWithin lines.old lines.new (77 + 21 * length event.now.partners.items) (request_text e.request e) }
{
    match &event.request {
        Request::Make(_, _) => push_plain(lines, "make ", event),
        Request::Go(_, _) => push_plain(lines, "go ", event),
        Request::Send(channel, _) => push_send(lines, *channel, event),
        Request::Receive(channel) => push_receive(lines, *channel, event),
        Request::Close(channel) => push_close(lines, *channel, event),
        Request::Select(cases, _) => push_select(lines, cases.as_slice(), event),
        Request::Len(channel) => push_size(lines, "len ", *channel, event),
        Request::Cap(channel) => push_size(lines, "cap ", *channel, event),
        Request::Print(bytes) => push_print(lines, bytes.len()),
        Request::End => push_text(lines, "end"),
        Request::Exit => push_text(lines, "exit"),
        Request::Panic(cause) => push_panic(lines, *cause),
        Request::Exhausted => push_text(lines, "exhausted"),
    }
}

/// The request, and the outcome.
fn push_plain(lines: &mut Vec<u8>, what: &str, event: &Event)
    requires { HasRoom lines.old (length what.now + 20) }
    ensures { AppendsWithin lines.old lines.new (length what.now + 20) (what.now ++ result_text [] (event_of event.now)) }
{
    push_text(lines, what);
    push_outcome(lines, "", event);
}

/// A request to a channel, and the outcome, as `len 1 2`.
fn push_size(lines: &mut Vec<u8>, what: &str, channel: Option<u32>, event: &Event)
    requires { HasRoom lines.old (length what.now + 31) }
    ensures { AppendsWithin lines.old lines.new (length what.now + 31) (what.now ++ channel_text channel ++ codes " " ++ result_text [] (event_of event.now)) }
{
    push_text(lines, what);
    push_channel(lines, channel);
    push_plain(lines, " ", event);
}

/// A print of `count` bytes.
fn push_print(lines: &mut Vec<u8>, count: usize)
    requires { HasRoom lines.old 26 }
    ensures { AppendsWithin lines.old lines.new 26 (codes "print " ++ decimal count) }
{
    push_text(lines, "print ");
    push_number(lines, count);
}

/// A send, as `send 1 to 2`.
fn push_send(lines: &mut Vec<u8>, channel: Option<u32>, event: &Event)
    requires { HasRoom lines.old 39 }
    ensures { AppendsWithin lines.old lines.new 39 (send_text channel (event_of event.now)) }
{
    push_text(lines, "send ");
    push_channel(lines, channel);
    push_text(lines, " ");
    push_outcome(lines, "to ", event);
}

/// A receive, as `receive 1 closed`.
fn push_receive(lines: &mut Vec<u8>, channel: Option<u32>, event: &Event)
    requires { HasRoom lines.old 44 }
    ensures { AppendsWithin lines.old lines.new 44 (receive_text channel (event_of event.now)) }
{
    push_text(lines, "receive ");
    push_channel(lines, channel);
    push_text(lines, " ");
    push_outcome(lines, "from ", event);
}

/// A close, as `close 1 wakes 2 3`.
fn push_close(lines: &mut Vec<u8>, channel: Option<u32>, event: &Event)
    requires { HasRoom lines.old (27 + 21 * length event.now.partners.items) }
    ensures { let e = event_of event.now in AppendsWithin lines.old lines.new (27 + 21 * length event.now.partners.items)
        (codes "close " ++ channel_text channel ++ close_text e.outcome e.partners) }
{
    push_text(lines, "close ");
    push_channel(lines, channel);
    match &event.outcome {
        EventOutcome::Done(_) => push_woken(lines, event.partners.as_slice()),
        EventOutcome::Sleeps => push_text(lines, " sleeps"),
        EventOutcome::Panics(cause, _) => {
            push_text(lines, " ");
            push_panic(lines, *cause);
        }
    }
}

/// The goroutines that a close wakes, if it wakes any.
fn push_woken(lines: &mut Vec<u8>, woken: &[u64])
    requires { HasRoom lines.old (6 + 21 * length woken.now) }
    ensures { AppendsWithin lines.old lines.new (6 + 21 * length woken.now) (woken_text woken.now) }
{
    if !woken.is_empty() {
        push_text(lines, " wakes");
        push_numbers(lines, woken);
    }
}

/// Numbers, each after a space.
fn push_numbers(lines: &mut Vec<u8>, numbers: &[u64])
    requires { HasRoom lines.old (21 * length numbers.now) }
    ensures { AppendsWithin lines.old lines.new (21 * length numbers.now) (flat_map (λ number. codes " " ++ decimal number) numbers.now) }
{
    for number in numbers.iter() {
        push_text(lines, " ");
        push_number(lines, *number);
    }
}

/// A select, as `select case 1 receive 2 done`.
fn push_select(lines: &mut Vec<u8>, cases: &[Case], event: &Event)
    requires { HasRoom lines.old 77 }
    ensures { let e = event_of event.now in AppendsWithin lines.old lines.new 77
        (codes "select " ++ select_text cases.now (clause_number e.outcome) e) }
{
    let Some(number) = number_of_clause(&event.outcome) else {
        return push_plain(lines, "select ", event);
    };
    push_text(lines, "select case ");
    push_number(lines, number);
    push_text(lines, " ");
    push_clause(lines, cases, number, event);
}

/// The clause of this number, as `receive 2 done`.
fn push_clause(lines: &mut Vec<u8>, cases: &[Case], number: usize, event: &Event)
    requires { HasRoom lines.old 44 }
    ensures { AppendsWithin lines.old lines.new 44 (clause_text (slice_get cases.now (number - 1)) (event_of event.now)) }
{
    match cases.get(number.saturating_sub(1)) {
        Some(case) => push_operation(lines, case, event),
        None => push_outcome(lines, "", event),
    }
}

/// A clause of a select: a send if it has an item.
fn push_operation(lines: &mut Vec<u8>, case: &Case, event: &Event)
    requires { HasRoom lines.old 44 }
    ensures { AppendsWithin lines.old lines.new 44 (operation_text case.now.item case.now.chan (event_of event.now)) }
{
    match case.item {
        Some(_) => push_send(lines, case.chan, event),
        None => push_receive(lines, case.chan, event),
    }
}

/// The number of the clause that was done or panicked, counted from 1.
fn number_of_clause(outcome: &EventOutcome) -> Option<usize>
    ensures { result ≡ clause_number (outcome_of outcome.now) }
{
    match outcome {
        EventOutcome::Done(Reply::Clause(number, _)) | EventOutcome::Panics(_, number) => {
            Some(*number)
        }
        EventOutcome::Done(_) | EventOutcome::Sleeps => None,
    }
}
