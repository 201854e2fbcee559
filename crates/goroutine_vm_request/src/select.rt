//! The request of a select.

ghost use Rattle.std.specs.Prelude.{◌≤◌, IfOk, None, Some, cond, drop, length, take};
ghost use Rattle.bytecode.specs.Machine.{Frames, instr_next};
ghost use Rattle.bytecode.specs.Rules.{IsVerified};
ghost use Rattle.goroutine_vm_base.specs.Steps.{AsksFor};

use crate::lists::RequestLists;
use bytecode::{Code, Instr};
use call_frame::frame::Frame;
use operands::select::cases;
use std::alloc::AllocError;
use word::request::Request;

/// Writes the request of a select, whose operands begin at `at` of the stack, to `place`; false if it makes none.
pub(crate) fn select(
    lists: &mut RequestLists,
    code: &Code,
    frame: &Frame,
    table: u32,
    at: usize,
    place: &mut Request,
) -> Result<bool, AllocError>
    requires at { at ≤ length frame.now.stack }
    requires verified { IsVerified code.now }
    ensures { IfOk result (λ asking. (callers : Frames) → AsksFor (instr_next code.now frame.now callers (take at frame.now.stack) (drop at frame.now.stack) (Instr.Select table)) (cond asking (Some place.new) None)) }
{
    match code.selects().get(table as usize) {
        None => Ok(false),
        Some(table) => {
            let room = lists.cases();
            match cases(
                lists.alloc,
                code,
                table.clauses(),
                &frame.stack()[at..],
                room,
            )? {
                None => Ok(false),
                Some(cases) => {
                    *place = Request::Select(cases, table.default().is_some());
                    Ok(true)
                }
            }
        }
    }
}
