//! What a goroutine waits for.

use crate::names::Names;
use go_text::Memory;
use std::alloc::{AllocError, Global};
use word::request::{Case, Request};

/// How many clauses of a select are named at most: of more only their number.
const NAMED: usize = 2;

/// A clause of a select that waits, or a send or receive that does. A channel is named by its number, counted from 1; `None` is `nil`.
#[derive(Clone, Copy)]
pub(crate) struct Clause {
    pub channel: Option<u32>,
    /// Whether it sends; else it receives.
    pub sends: bool,
}

/// What a goroutine waits for.
#[derive(Drop)]
pub(crate) enum Wait {
    /// A send or a receive.
    One(Clause),
    /// A select of these clauses.
    Select(Vec<Clause>),
}

impl Wait {
    /// A copy of the wait.
    pub(crate) fn copied(&self, alloc: Global) -> Result<Wait, Memory> {
        Ok(match self {
            Wait::One(clause) => Wait::One(*clause),
            Wait::Select(clauses) => Wait::Select(Vec::from_slice(alloc, clauses.as_slice())?),
        })
    }

    /// What it waits for in words, as `waits to receive from orders`.
    pub(crate) fn label(&self, alloc: Global, names: &Names<'_>) -> Result<String, AllocError> {
        let mut label = String::from_str(alloc, "waits ")?;
        match self {
            Wait::One(clause) => push_clause(&mut label, names, *clause)?,
            Wait::Select(clauses) => push_select(&mut label, names, clauses.as_slice())?,
        }
        Ok(label)
    }
}

/// What a goroutine that falls asleep at this request waits for.
pub(crate) fn wait_of(alloc: Global, request: &Request) -> Result<Wait, Memory> {
    Ok(match request {
        Request::Send(channel, _) => Wait::One(Clause {
            channel: *channel,
            sends: true,
        }),
        Request::Receive(channel) => Wait::One(Clause {
            channel: *channel,
            sends: false,
        }),
        Request::Select(cases, _) => Wait::Select(clauses(alloc, cases.as_slice())?),
        _ => Wait::Select(Vec::new(alloc)),
    })
}

/// The clauses of a select.
fn clauses(alloc: Global, cases: &[Case]) -> Result<Vec<Clause>, Memory> {
    let mut clauses = Vec::new(alloc);
    for case in cases {
        clauses.push(clause_of(case))?;
    }
    Ok(clauses)
}

/// A clause of a select.
pub(crate) fn clause_of(case: &Case) -> Clause {
    Clause {
        channel: case.chan,
        sends: case.item.is_some(),
    }
}

/// What a clause does to its channel.
pub(crate) fn label_of(clause: Clause) -> &'static str {
    if clause.sends {
        return "sends on ";
    }
    "receives from "
}

/// The clauses of a select, as `to receive from orders or to send on quit`.
fn push_select(
    label: &mut String,
    names: &Names<'_>,
    clauses: &[Clause],
) -> Result<(), AllocError> {
    let count = clauses.len();
    if count == 0 {
        return label.push_str("in a select without clauses");
    }
    if count > NAMED {
        return write!(label, "in a select of {count} clauses");
    }
    for (index, clause) in clauses.iter().enumerate() {
        if index > 0 {
            label.push_str(" or ")?;
        }
        push_clause(label, names, *clause)?;
    }
    Ok(())
}

/// A clause, as `to receive from orders`.
fn push_clause(label: &mut String, names: &Names<'_>, clause: Clause) -> Result<(), AllocError> {
    label.push_str(if clause.sends {
        "to send on "
    } else {
        "to receive from "
    })?;
    names.push_channel(label, clause.channel)
}
