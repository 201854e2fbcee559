//! The lines of the trace that a book keeps, or none if nobody reads them.

ghost use Rattle.std.specs.Prelude.{◌≡◌, ◌++◌, OnOk, length, true};
ghost use Rattle.tracer.specs.Room.{HasRoom, longest_line};
ghost use Rattle.word.specs.Views.{event_of};
ghost use Rattle.book.specs.Desks.{kept_line};

use go_text::Memory;
use tracer::{append_line, reserve_line};
use word::request::Event;

/// If lines are kept, reserves capacity for the line of an event with at most `partners` partners.
#[inline(always)]
pub(crate) fn reserve_kept(traces: bool, lines: &mut Vec<u8>, partners: usize) -> Result<(), Memory>
    ensures items { lines.new.items ≡ lines.old.items }
    ensures room { OnOk result (traces ≡ true → HasRoom lines.new (longest_line partners)) }
{
    if traces {
        reserve_line(lines, partners)?;
    }
    Ok(())
}

/// If lines are kept, appends the line of an event, within the capacity that was reserved for it.
#[inline(always)]
pub(crate) fn append_kept(traces: bool, lines: &mut Vec<u8>, event: &Event)
    requires { traces ≡ true → HasRoom lines.old (longest_line (length event.now.partners.items)) }
    ensures { lines.new.items ≡ lines.old.items ++ kept_line traces (event_of event.now) }
{
    if traces {
        append_line(lines, event);
    }
}
