//! What goroutines wait for.

use go_text::Memory;
use std::alloc::Global;
use word::request::{Case, Request};

/// A clause of a `select` at which a goroutine waits. A channel is named by its number; `None` is `nil`.
#[derive(Clone, Copy)]
pub struct Offer {
    pub channel: Option<u32>,
    /// Whether it sends; otherwise it receives.
    pub sends: bool,
}

/// What a goroutine waits for if it falls asleep at its request. A channel is named by its number; `None` is `nil`.
#[derive(Drop)]
pub enum Wish {
    /// It has made no request at which one can fall asleep.
    Nothing,
    Send(Option<u32>),
    Receive(Option<u32>),
    /// One of these clauses.
    Select(Vec<Offer>),
}

impl Wish {
    /// What a goroutine with this request waits for.
    ///
    /// Errors: out of memory.
    pub fn of(alloc: Global, request: &Request) -> Result<Wish, Memory> {
        Ok(match request {
            Request::Send(channel, _) => Wish::Send(*channel),
            Request::Receive(channel) => Wish::Receive(*channel),
            Request::Select(cases, _) => Wish::Select(offers_of(alloc, cases.as_slice())?),
            _ => Wish::Nothing,
        })
    }

    /// A copy.
    ///
    /// Errors: out of memory.
    pub fn copy(&self, alloc: Global) -> Result<Wish, Memory> {
        Ok(match self {
            Wish::Nothing => Wish::Nothing,
            Wish::Send(channel) => Wish::Send(*channel),
            Wish::Receive(channel) => Wish::Receive(*channel),
            Wish::Select(offers) => Wish::Select(Vec::from_slice(alloc, offers.as_slice())?),
        })
    }
}

/// What the clauses of a `select` offer.
fn offers_of(alloc: Global, cases: &[Case]) -> Result<Vec<Offer>, Memory> {
    let mut offers = Vec::new(alloc);
    for case in cases {
        offers.push(Offer {
            channel: case.chan,
            sends: case.item.is_some(),
        })?;
    }
    Ok(offers)
}
