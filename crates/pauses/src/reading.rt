//! A plan's file to the plan.

ghost use Rattle.std.specs.Prelude.{◌≡◌, [], MatchResult, map};
ghost use Rattle.std.specs.List.{list_any};
ghost use Rattle.pauses.specs.Files.{IsWhy, Reads, lines_from, read_bytes, read_lines};
ghost use Rattle.pauses.specs.Plans.{is_rival, pause_of, pauses_of};

use crate::error::PlanError;
use crate::line::{Line, line_in};
use crate::number::pieces;
use crate::plan::{Pause, Plan};
use go_text::is_word;
use std::alloc::Global;

/// The first line of a plan's file.
pub(crate) const TITLE: &[u8] = b"kendo pauses 1";

impl Plan {
    /// The plan that a file is.
    ///
    /// Errors: `Broken` with the first line that is no pause, or a second one of its kind for the same request; `Memory`.
    pub fn read(alloc: Global, bytes: &[u8]) -> Result<Plan, PlanError>
        ensures { MatchResult result (λ plan. read_bytes bytes.now ≡ Reads (pauses_of plan.pauses.items)) (IsWhy (read_bytes bytes.now)) }
    {
        let lines = pieces(alloc, bytes, b'\n')?;
        match lines.split_first() {
            Some((first, rest)) if is_word(first, TITLE) => pauses(alloc, rest),
            _ => Err(PlanError::Broken(1)),
        }
    }
}

/// Whether one of the pauses changes the same thing as this one.
pub(crate) fn has_rival(pauses: &[Pause], pause: &Pause) -> bool
    ensures { result ≡ list_any (is_rival (pause_of pause.now)) (pauses_of pauses.now) }
{
    for one in pauses {
        if pause.is_rival(one) {
            return true;
        }
    }
    false
}

/// The plan that these lines are, the first of which is line 2.
fn pauses(alloc: Global, lines: &[&[u8]]) -> Result<Plan, PlanError>
    ensures { let reading = lines_from 2 [] (map (λ l. l.now) lines.now) in MatchResult result (λ plan. reading ≡ Reads (pauses_of plan.pauses.items)) (IsWhy reading) }
{
    let mut pauses = Vec::new(alloc);
    let mut number = 2;
    for bytes in lines {
        match line_in(alloc, bytes)? {
            Line::Silent => {}
            Line::Broken => return Err(PlanError::Broken(number)),
            Line::Says(pause) => {
                if has_rival(pauses.as_slice(), &pause) {
                    return Err(PlanError::Broken(number));
                }
                pauses.push(pause)?;
            }
        }
        let Some(next) = number.checked_add(1) else {
            return Err(PlanError::Memory);
        };
        number = next;
    }
    Ok(Plan { pauses })
}
