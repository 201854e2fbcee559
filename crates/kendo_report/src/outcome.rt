//! The line on standard error and the exit status, for each way in which a run can end.
ghost use Rattle.std.specs.Prelude.{◌≡◌, IfOk, Some, string_bytes};
ghost use Rattle.kendo_report.specs.Outcome.{fault_text, panic_number, panic_text, position_text, report_line, report_status};

use go_text::{Fault, Memory, Place, Position};
use std::alloc::{AllocError, Global};
use std::fmt;
use word::end::End;
use word::panic::Panic;

/// The line on standard error, with its newline (empty after a run that finished), and the exit status.
/// For a fault that has a location, the line names line and column if the location has them.
pub fn report(alloc: Global, outcome: &Result<End, Fault>) -> Result<(Vec<u8>, u8), Memory>
    ensures line { IfOk result (λ r. r.0.items ≡ report_line outcome.now) }
    ensures status { IfOk result (λ r. r.1 ≡ report_status outcome.now) }
{
    let line = line_of(alloc, *outcome)?;
    Ok((line.into_bytes(), status_of(*outcome)))
}

/// The line of `report`.
fn line_of(alloc: Global, outcome: Result<End, Fault>) -> Result<String, AllocError>
    ensures { IfOk result (λ line. string_bytes line ≡ report_line outcome) }
{
    match outcome {
        Ok(End::Finished) => Ok(String::new(alloc)),
        Ok(End::Panicked(cause)) => {
            let number = number_of_panic(cause);
            let text = text_of_panic(cause);
            format!(in alloc; "kendo: panic P{number} {text}\n")
        }
        Ok(End::Deadlock) => format!(in alloc; "kendo: deadlock\n"),
        Ok(End::Exhausted) => format!(in alloc; "kendo: logical time exhausted\n"),
        Err(fault) => {
            let text = FaultText(fault);
            format!(in alloc; "kendo: {text}\n")
        }
    }
}

/// The exit status of `report`.
fn status_of(outcome: Result<End, Fault>) -> u8
    ensures { result ≡ report_status outcome }
{
    match outcome {
        Ok(End::Finished) => 0,
        Ok(End::Panicked(_)) => 2,
        Ok(End::Deadlock) => 3,
        Ok(End::Exhausted) => 4,
        Err(Fault::Memory) => 5,
        Err(Fault::Write) => 6,
        Err(Fault::NotYours) => 7,
        Err(Fault::BadWorkers | Fault::BadLimit) => 64,
        Err(_) => 1,
    }
}

/// The number of a panic.
fn number_of_panic(cause: Panic) -> u8
    ensures { result ≡ panic_number cause }
{
    match cause {
        Panic::DivideByZero => 1,
        Panic::SendOnClosed => 2,
        Panic::CloseOfClosed => 3,
        Panic::CloseOfNil => 4,
        Panic::NegativeShift => 5,
        Panic::ChannelSize => 6,
        Panic::CallDepth => 7,
        Panic::TooManyGoroutines => 8,
        Panic::TooManyChannels => 9,
    }
}

/// What a panic says.
pub fn text_of_panic(cause: Panic) -> &'static str
    ensures { result.now ≡ panic_text cause }
{
    match cause {
        Panic::DivideByZero => "divide by zero",
        Panic::SendOnClosed => "send on closed channel",
        Panic::CloseOfClosed => "close of closed channel",
        Panic::CloseOfNil => "close of nil channel",
        Panic::NegativeShift => "negative shift",
        Panic::ChannelSize => "channel size",
        Panic::CallDepth => "call depth",
        Panic::TooManyGoroutines => "too many goroutines",
        Panic::TooManyChannels => "too many channels",
    }
}

/// A location, as ` at LINE:COLUMN`, or nothing if its line and column are not known.
#[derive(Clone, Copy)]
struct At(Place);

impl fmt::Display for At {
    ghost output = { λ at. Some (position_text at.0.position) };

    fn fmt<W: fmt::Write>(&self, f: &mut fmt::Formatter<W>) -> fmt::Result {
        match self.0.position {
            Some(Position { line, column }) => write!(f, " at {line}:{column}"),
            None => Ok(()),
        }
    }
}

/// A fault by its number and its name, and its location.
#[derive(Clone, Copy)]
struct FaultText(Fault);

impl fmt::Display for FaultText {
    ghost output = { λ text. Some (fault_text text.0) };

    fn fmt<W: fmt::Write>(&self, f: &mut fmt::Formatter<W>) -> fmt::Result {
        let title = self.0.title();
        match self.0 {
            Fault::BadCharacter(place)
            | Fault::BadNumber(place)
            | Fault::OpenString(place)
            | Fault::OpenComment(place)
            | Fault::Syntax(place)
            | Fault::TooDeep(place) => {
                let at = At(place);
                write!(f, "{title}{at}")
            }
            Fault::Typing { rule, place, .. } => {
                let (number, at) = (rule as u8, At(place));
                write!(f, "{title} {number}{at}")
            }
            Fault::Limit { kind, place, .. } => {
                let (number, at) = (kind as u8, At(place));
                write!(f, "{title} {number}{at}")
            }
            Fault::Unverified {
                rule,
                function,
                place,
            } => write!(f, "{title} {rule} in function {function} at {place}"),
            Fault::TooLong
            | Fault::NotUtf8
            | Fault::NotYours
            | Fault::Memory
            | Fault::Write
            | Fault::BadWorkers
            | Fault::BadLimit => f.write_str(title),
        }
    }
}
