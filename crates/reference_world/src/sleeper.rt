//! Goroutines that are asleep.

ghost use Rattle.std.specs.Prelude.{◌≡◌, ◌∷◌, [], IfOk, map, option_map};
ghost use Rattle.word.specs.Requests.{clause_offers, first_offer, first_on, offers, partner, partners, without, without_all};
ghost use Rattle.word.specs.Views.{request_of};
ghost use Rattle.reference_world.specs.Deeds.{closed_for, met};

use crate::deed::Woken;
use crate::reply::close_reply;
use go_text::Memory;
use std::alloc::Global;
use std::marker::Model;
use word::request::{Case, Request};
use word::value::Item;

/// A goroutine that is asleep, and its request.
#[derive(Drop)]
pub struct Sleeper {
    pub number: u64,
    pub request: Request,
}

impl Model for Sleeper {
    ghost use Rattle.word.specs.Values.{Sleeper as AnySleeper};
    ghost use Rattle.word.specs.Views.{request_of};

    ghost Value = { AnySleeper };

    ghost view = { λ s. record { number = s.number; request = request_of s.request } };
}

/// A way to serve a sleeper: by its clause of this number, counted from 1, or 0 outside a select; a send if there is an
/// item.
#[derive(Drop)]
pub(crate) struct Offer {
    pub(crate) case: usize,
    pub(crate) chan: u32,
    pub(crate) item: Option<Item>,
}

impl Model for Offer {
    ghost use Rattle.word.specs.Values.{Offer as AnyOffer};

    ghost Value = { AnyOffer };

    ghost view = { λ o. record { case = o.case; chan = o.chan; item = o.item } };
}

/// Whom a request meets: the number of a sleeper, and its offer.
#[derive(Drop)]
pub(crate) struct Partner {
    pub(crate) number: u64,
    pub(crate) offer: Offer,
}

/// The first sleeper with an offer on a channel, to send or to receive, and its first such offer.
pub(crate) fn find_partner(asleep: &[Sleeper], chan: u32, sends: bool) -> Option<Partner>
    ensures { result ≡ option_map met (partner chan sends asleep.now) }
{
    for sleeper in asleep {
        if let Some(offer) = first_offer(&sleeper.request, chan, sends) {
            return Some(Partner {
                number: sleeper.number,
                offer,
            });
        }
    }
    None
}

/// The goroutines that a close of a channel wakes, each by its first offer there, and their replies.
pub(crate) fn woken_by_close(
    alloc: Global,
    asleep: &[Sleeper],
    chan: u32,
    zero: &Item,
) -> Result<Vec<Woken>, Memory>
    ensures { IfOk result (λ woken. woken.items ≡ closed_for zero.now (partners chan asleep.now)) }
{
    let mut woken = Vec::new(alloc);
    for sleeper in asleep {
        if let Some(offer) = first_on(&sleeper.request, chan) {
            woken.push(Woken {
                number: sleeper.number,
                reply: close_reply(zero, &offer),
            })?;
        }
    }
    Ok(woken)
}

/// Removes goroutine `number` from `asleep`.
pub(crate) fn leave(asleep: &mut Vec<Sleeper>, number: u64)
    ensures { asleep.new.items ≡ without asleep.old.items number }
{
    asleep.retain(|sleeper| sleeper.number != number);
}

/// Removes the woken goroutines from `asleep`.
pub(crate) fn leave_all(asleep: &mut Vec<Sleeper>, woken: &[Woken])
    ensures { asleep.new.items ≡ without_all asleep.old.items woken.now }
{
    for one in woken {
        leave(asleep, one.number);
    }
}

/// The first offer on a channel, to send or to receive, of one that is asleep at this request.
fn first_offer(request: &Request, chan: u32, sends: bool) -> Option<Offer>
    ensures { result ≡ first_offer chan sends (offers (request_of request.now)) }
{
    match request {
        Request::Send(Some(to), item) if sends && *to == chan => Some(Offer {
            case: 0,
            chan,
            item: Some(item.copy()),
        }),
        Request::Receive(Some(from)) if !sends && *from == chan => Some(Offer {
            case: 0,
            chan,
            item: None,
        }),
        Request::Select(cases, _) => first_clause(cases.as_slice(), chan, sends),
        _ => None,
    }
}

/// The first offer on a channel of one that is asleep at this request.
fn first_on(request: &Request, chan: u32) -> Option<Offer>
    ensures { result ≡ first_on chan (offers (request_of request.now)) }
{
    match request {
        Request::Send(Some(to), item) if *to == chan => Some(Offer {
            case: 0,
            chan,
            item: Some(item.copy()),
        }),
        Request::Receive(Some(from)) if *from == chan => Some(Offer {
            case: 0,
            chan,
            item: None,
        }),
        Request::Select(cases, _) => first_clause_on(cases.as_slice(), chan),
        _ => None,
    }
}

/// The first of a select's clauses that is on a channel, and is to send or to receive.
fn first_clause(cases: &[Case], chan: u32, sends: bool) -> Option<Offer>
    ensures { result ≡ first_offer chan sends (clause_offers 1 cases.now) }
{
    for (i, case) in cases.iter().enumerate() {
        if case.chan == Some(chan) && case.item.is_some() == sends {
            return Some(Offer {
                case: i + 1,
                chan,
                item: copy_of(&case.item),
            });
        }
    }
    None
}

/// The first of a select's clauses that is on a channel.
fn first_clause_on(cases: &[Case], chan: u32) -> Option<Offer>
    ensures { result ≡ first_on chan (clause_offers 1 cases.now) }
{
    for (i, case) in cases.iter().enumerate() {
        if case.chan == Some(chan) {
            return Some(Offer {
                case: i + 1,
                chan,
                item: copy_of(&case.item),
            });
        }
    }
    None
}

/// A copy of the item, if there is one.
pub(crate) fn copy_of(item: &Option<Item>) -> Option<Item>
    ensures { result ≡ item.now }
{
    match item {
        Some(item) => Some(item.copy()),
        None => None,
    }
}
