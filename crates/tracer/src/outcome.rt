//! The outcome of a request, as text.

ghost use Rattle.std.specs.Prelude.{◌≡◌, ◌+◌, length};
ghost use Rattle.word.specs.Views.{event_of};
ghost use Rattle.tracer.specs.Room.{AppendsWithin, HasRoom};
ghost use Rattle.tracer.specs.Trace.{channel_text, panic_number, panic_text, partner_text, result_text};

use crate::room::{push_number, push_text};
use word::panic::Panic;
use word::request::{Event, EventOutcome, Reply};
use word::value::Word;

/// A channel by its number, or `nil`.
pub(crate) fn push_channel(lines: &mut Vec<u8>, channel: Option<u32>)
    requires { HasRoom lines.old 10 }
    ensures { AppendsWithin lines.old lines.new 10 (channel_text channel) }
{
    match channel {
        Some(number) => push_number(lines, number),
        None => push_text(lines, "nil"),
    }
}

/// The number of a panic.
fn number_of_panic(cause: Panic) -> u8
    ensures { result ≡ panic_number cause }
{
    match cause {
        Panic::DivideByZero => 1,
        Panic::SendOnClosed => 2,
        Panic::CloseOfClosed => 3,
        Panic::CloseOfNil => 4,
        Panic::NegativeShift => 5,
        Panic::ChannelSize => 6,
        Panic::CallDepth => 7,
        Panic::TooManyGoroutines => 8,
        Panic::TooManyChannels => 9,
    }
}

/// A panic by its number.
pub(crate) fn push_panic(lines: &mut Vec<u8>, cause: Panic)
    requires { HasRoom lines.old 10 }
    ensures { AppendsWithin lines.old lines.new 10 (panic_text cause) }
{
    push_text(lines, "panic P");
    push_number(lines, number_of_panic(cause));
}

/// The outcome of a request; the first partner stands after `word`.
pub(crate) fn push_outcome(lines: &mut Vec<u8>, word: &str, event: &Event)
    requires { HasRoom lines.old (length word.now + 20) }
    ensures { AppendsWithin lines.old lines.new (length word.now + 20) (result_text word.now (event_of event.now)) }
{
    match &event.outcome {
        EventOutcome::Done(Reply::Word(Word::Int(number))) => push_number(lines, *number),
        EventOutcome::Done(Reply::Word(Word::Chan(channel))) => push_channel(lines, *channel),
        EventOutcome::Done(Reply::Received(_, false) | Reply::Clause(_, Some((_, false)))) => {
            push_text(lines, "closed")
        }
        EventOutcome::Done(Reply::Default) => push_text(lines, "default"),
        EventOutcome::Done(_) => push_partner(lines, word, event.partners.as_slice()),
        EventOutcome::Sleeps => push_text(lines, "sleeps"),
        EventOutcome::Panics(cause, _) => push_panic(lines, *cause),
    }
}

/// `word` and the first partner, or `done`.
fn push_partner(lines: &mut Vec<u8>, word: &str, partners: &[u64])
    requires { HasRoom lines.old (length word.now + 20) }
    ensures { AppendsWithin lines.old lines.new (length word.now + 20) (partner_text word.now partners.now) }
{
    match partners.first() {
        Some(number) => {
            push_text(lines, word);
            push_number(lines, *number);
        }
        None => push_text(lines, "done"),
    }
}
