//! The words for how a run ends.

ghost use Rattle.std.specs.Prelude.{◌≡◌, MatchOption};
ghost use Rattle.expected_output.specs.Ends.{IsCalled, IsPanicCalled, panic_word};

use kendo_report::text_of_panic;
use word::end::End;
use word::panic::Panic;

/// How a run ends, in the words of its last line or shorter: `finished`, `deadlock`, `exhausted`, `logical time exhausted`, `panic P2`,
/// `panic P2 send on closed channel`. `None` of other words.
pub(crate) fn end_named(words: &str) -> Option<End>
    ensures { MatchOption result ((end : End) → IsCalled words.now end → ⊥) (λ end. IsCalled words.now end) }
{
    if words == "finished" {
        return Some(End::Finished);
    }
    if words == "deadlock" {
        return Some(End::Deadlock);
    }
    if words == "exhausted" || words == "logical time exhausted" {
        return Some(End::Exhausted);
    }
    match panic_named(words) {
        Some(cause) => Some(End::Panicked(cause)),
        None => None,
    }
}

/// The panic of these words: `panic`, its number, and what it says, which may be left out.
fn panic_named(words: &str) -> Option<Panic>
    ensures { MatchOption result ((cause : Panic) → IsPanicCalled words.now cause → ⊥) (λ cause. IsPanicCalled words.now cause) }
{
    let Some(rest) = words.strip_prefix("panic ") else {
        return None;
    };
    match rest.split_once(' ') {
        Some((number, text)) => match panic_numbered(number) {
            Some(cause) if text == text_of_panic(cause) => Some(cause),
            _ => None,
        },
        None => panic_numbered(rest),
    }
}

/// The panic of a number.
fn panic_numbered(number: &str) -> Option<Panic>
    ensures { MatchOption result ((cause : Panic) → number.now ≡ panic_word cause → ⊥) (λ cause. number.now ≡ panic_word cause) }
{
    match number.as_bytes() {
        b"P1" => Some(Panic::DivideByZero),
        b"P2" => Some(Panic::SendOnClosed),
        b"P3" => Some(Panic::CloseOfClosed),
        b"P4" => Some(Panic::CloseOfNil),
        b"P5" => Some(Panic::NegativeShift),
        b"P6" => Some(Panic::ChannelSize),
        b"P7" => Some(Panic::CallDepth),
        b"P8" => Some(Panic::TooManyGoroutines),
        b"P9" => Some(Panic::TooManyChannels),
        _ => None,
    }
}
