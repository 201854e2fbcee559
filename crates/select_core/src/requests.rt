//! Requests to channels, selects among them.

ghost use Rattle.std.specs.Prelude.{◌≡◌, ◌∷◌, [], ◌++◌, IfOk, OnErr, OnOk, false};
ghost use Rattle.word.specs.Requests.{without};
ghost use Rattle.word.specs.Values.{Select};
ghost use Rattle.word.specs.Views.{request_of};
ghost use Rattle.channel_core.specs.Channels.{DoesAt, IsOfChannels, came};

use crate::choice::{Choice, choose};
use channel_core::{Channels, Outcome, Woken};
use go_text::Memory;
use logical_clock::Key;
use std::alloc::Global;
use word::request::{Case, EventOutcome, Reply, Request};
use word::value::Item;

/// Performs a request to channels of the goroutine of this number, at this clock.
pub fn perform(
    alloc: Global,
    channels: &mut Channels,
    actor: Key,
    request: &Request,
) -> Result<Outcome, Memory>
    requires { IsOfChannels (request_of request.now) }
    ensures does { IfOk result (λ outcome. DoesAt channels.old actor.number actor.clock (request_of request.now) outcome channels.new) }
    ensures memory { OnErr result (channels.new ≡ channels.old) }
{
    let mut outcome = EventOutcome::Sleeps;
    let mut woken = Vec::new(alloc);
    meet(channels, actor, request, &mut outcome, &mut woken)?;
    Ok(Outcome::of(&outcome, woken))
}

/// Like `perform`, but writes the outcome to `outcome`, and to `woken` the woken goroutines in the order in which they fell asleep;
/// `woken` is ignored unless the request is done. What they held before is ignored.
pub fn meet(
    channels: &mut Channels,
    actor: Key,
    request: &Request,
    outcome: &mut EventOutcome,
    woken: &mut Vec<Woken>,
) -> Result<(), Memory>
    requires { IsOfChannels (request_of request.now) }
    ensures does { OnOk result (DoesAt channels.old actor.number actor.clock (request_of request.now) (came outcome.new woken.new) channels.new) }
    ensures memory { OnErr result (channels.new ≡ channels.old) }
{
    match request {
        Request::Select(cases, default) => {
            match choose(channels, cases.as_slice(), *default, actor.clock) {
                Choice::Case(index) => {
                    channels.serve(actor.number, &cases[index], index + 1, outcome, woken)
                }
                Choice::Default => {
                    woken.clear();
                    *outcome = EventOutcome::Done(Reply::Default);
                    Ok(())
                }
                Choice::Sleep => {
                    *outcome = EventOutcome::Sleeps;
                    channels.enter(actor.number, request)
                }
            }
        }
        _ => channels.meet(actor.number, request, outcome, woken),
    }
}

/// A select by the goroutine of this number, at this clock (Go: Select statements): the chosen clause is done, else the default
/// clause, else the goroutine sleeps with all its clauses. When one is served, all are withdrawn.
pub fn select(
    alloc: Global,
    channels: &mut Channels,
    actor: Key,
    cases: &[Case],
    default: bool,
) -> Result<Outcome, Memory>
    ensures does { IfOk result (λ outcome. DoesAt channels.old actor.number actor.clock (Select cases.now default) outcome channels.new) }
    ensures memory { OnErr result (channels.new ≡ channels.old) }
{
    let request = Request::Select(copy_of_cases(alloc, cases)?, default);
    perform(alloc, channels, actor, &request)
}

/// Goroutine `number` falls asleep at a select with these clauses, none of which is ready: all are offered.
pub fn enter_all(
    alloc: Global,
    channels: &mut Channels,
    number: u64,
    cases: &[Case],
) -> Result<(), Memory>
    ensures asleep { OnOk result (channels.new ≡ record channels.old { asleep = without channels.old.asleep number ++ record { number = number; request = Select cases.now false } ∷ [] }) }
    ensures memory { OnErr result (channels.new ≡ channels.old) }
{
    let request = Request::Select(copy_of_cases(alloc, cases)?, false);
    channels.enter(number, &request)
}

/// Withdraws all offers of goroutine `number`, and no others.
pub fn leave_all(channels: &mut Channels, number: u64)
    ensures { channels.new ≡ record channels.old { asleep = without channels.old.asleep number } }
{
    channels.withdraw(number);
}

/// A copy of the clauses.
fn copy_of_cases(alloc: Global, cases: &[Case]) -> Result<Vec<Case>, Memory>
    ensures { IfOk result (λ copy. copy.items ≡ cases.now) }
{
    let mut copy = Vec::new(alloc);
    for case in cases {
        copy.push(Case {
            chan: case.chan,
            item: copy_of(&case.item),
        })?;
    }
    Ok(copy)
}

/// A copy of the item.
#[inline(always)]
fn copy_of(item: &Option<Item>) -> Option<Item>
    ensures { result ≡ item.now }
{
    match item {
        Some(item) => Some(item.copy()),
        None => None,
    }
}
