//! The events of a run as lines of text.
#![tactic(auto)]

ghost use Rattle.std.specs.Prelude.{◌≡◌, ◌++◌, IfOk, OnOk, length};
ghost use Rattle.word.specs.Views.{event_of};
ghost use Rattle.tracer.specs.Room.{HasRoom, longest_line};
ghost use Rattle.tracer.specs.Trace.{traceline};

mod form;
mod outcome;
mod room;

use crate::form::push_request;
use crate::room::{push_number, push_text};
use go_text::Memory;
use std::alloc::Global;
use word::request::Event;

/// The line of an event, with its newline: the actor's clock before it, the actor's number, its request and the outcome.
///
/// # Errors
///
/// `Memory` if memory is refused.
pub fn line(alloc: Global, event: &Event) -> Result<Vec<u8>, Memory>
    ensures { IfOk result (λ text. text.items ≡ traceline (event_of event.now)) }
{
    let mut text = Vec::new(alloc);
    reserve_line(&mut text, event.partners.len())?;
    append_line(&mut text, event);
    Ok(text)
}

/// Reserves space for the line of an event with at most `partners` partners.
///
/// # Errors
///
/// `Memory` if memory is refused.
pub fn reserve_line(lines: &mut Vec<u8>, partners: usize) -> Result<(), Memory>
    ensures items { lines.new.items ≡ lines.old.items }
    ensures room { OnOk result (HasRoom lines.new (longest_line partners)) }
{
    let Some(size) = partners
        .checked_mul(21)
        .and_then(|size| size.checked_add(120))
    else {
        return Err(Memory);
    };
    lines.reserve(size)?;
    Ok(())
}

/// Appends the line of an event, in space that was reserved for it. It takes no memory.
pub fn append_line(lines: &mut Vec<u8>, event: &Event)
    requires { HasRoom lines.old (longest_line (length event.now.partners.items)) }
    ensures { lines.new.items ≡ lines.old.items ++ traceline (event_of event.now) }
{
    push_number(lines, event.clock.time());
    push_text(lines, " ");
    push_number(lines, event.number);
    push_text(lines, " ");
    push_request(lines, event);
    push_text(lines, "\n");
}
