//! Which pauses of a plan have happened.

use crate::progress::Progress;
use go_text::Memory;
use pauses::{Change, Pause, Plan};
use std::alloc::Global;
use std::cell::Cell;
use word::request::Request;

/// What has become of a pause.
#[derive(Clone, Copy)]
enum PauseUse {
    /// The goroutine has not come to the request.
    NoRequest,
    /// The pause names a clause, and the request is no select.
    NoSelect,
    /// The pause names this clause, which the select does not have.
    NoClause(u64),
    /// The goroutine has waited, or has tried the clause.
    Happened,
}

/// What has become of the pauses of a plan, in the plan's order.
#[derive(Drop)]
pub struct PauseUses {
    uses: Vec<Cell<PauseUse>>,
}

impl PauseUses {
    /// Before a run by the plan.
    ///
    /// Errors: `Memory`.
    pub fn new(alloc: Global, plan: &Plan) -> Result<PauseUses, Memory> {
        let mut uses = Vec::new(alloc);
        for _ in &plan.pauses {
            uses.push(Cell::new(PauseUse::NoRequest))?;
        }
        Ok(PauseUses { uses })
    }

    /// Why the pause of this index in the plan has not happened so far, in words; `None` if it has.
    ///
    /// Errors: `Memory`.
    pub fn why_unused(
        &self,
        alloc: Global,
        index: usize,
        pause: &Pause,
    ) -> Result<Option<String>, Memory> {
        let found = match self.uses.get(index) {
            Some(one) => one.get(),
            None => PauseUse::NoRequest,
        };
        let way = way_text(alloc, pause.way.as_slice())?;
        let request = pause.request;
        Ok(match found {
            PauseUse::Happened => None,
            PauseUse::NoRequest => {
                Some(format!(in alloc; "goroutine {way} made no request {request}")?)
            }
            PauseUse::NoSelect => {
                Some(format!(in alloc; "request {request} of goroutine {way} is no select")?)
            }
            PauseUse::NoClause(clause) => {
                Some(format!(in alloc;
                    "request {request} of goroutine {way} has no clause {clause}"
                )?)
            }
        })
    }

    /// Notes that a goroutine has come to its next request, and waits before it if the plan says so.
    pub(crate) fn reached(&self, plan: &Plan, progress: &Progress) {
        let Some(way) = &progress.way else {
            return;
        };
        for (pause, one) in plan.pauses.iter().zip(self.uses.iter()) {
            if let Change::Wait(_) = pause.change {
                if pause.is_at(way.as_slice(), progress.request) {
                    one.set(PauseUse::Happened);
                }
            }
        }
    }

    /// Notes that a goroutine makes a request.
    pub(crate) fn asked(&self, plan: &Plan, progress: &Progress, request: &Request) {
        let Some(way) = &progress.way else {
            return;
        };
        for (pause, one) in plan.pauses.iter().zip(self.uses.iter()) {
            if let Change::Clause(clause) = pause.change {
                if pause.is_at(way.as_slice(), progress.request) {
                    one.set(clause_use(clause, request));
                }
            }
        }
    }
}

/// What becomes of a pause that names this clause, counted from 1, at a request.
fn clause_use(clause: u64, request: &Request) -> PauseUse {
    match request {
        Request::Select(cases, _) if 1 <= clause && clause <= cases.len() as u64 => {
            PauseUse::Happened
        }
        Request::Select(..) => PauseUse::NoClause(clause),
        _ => PauseUse::NoSelect,
    }
}

/// A way as plans write it: `1.2`.
fn way_text(alloc: Global, way: &[u64]) -> Result<String, Memory> {
    let mut text = String::new(alloc);
    for number in way {
        if !text.is_empty() {
            text.push_str(".")?;
        }
        let digits = format!(in alloc; "{number}")?;
        text.push_str(digits.as_str())?;
    }
    Ok(text)
}
