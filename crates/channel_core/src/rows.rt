//! The rows of the offers of sleepers.

ghost use Rattle.std.specs.Prelude.{◌≡◌, ◌<◌, ◌++◌, ◌∷◌, [], map, option_copied, OnErr, OnOk};
ghost use Rattle.std.specs.List.{filter};
ghost use Rattle.sleep_queue.specs.Queue.{is_not_of as is_not_of_number};
ghost use Rattle.sleep_queue.specs.Stored.{view_of};
ghost use Rattle.word.specs.Requests.{clause_offers};
ghost use Rattle.word.specs.Views.{request_of};
ghost use Rattle.channel_core.specs.Asleep.{is_not_of, placed, placed_all, placed_offer, row_on};

use go_text::Memory;
use logical_clock::Steps;
use sleep_queue::{OfferView, SleepQueues};
use std::marker::Brand;
use std::sync::ledger::{Blank, Ledger};
use word::request::{Case, Request};
use word::value::Item;

/// The row of the offers on a channel to send, or that of those to receive.
pub(crate) fn row_on(chan: u32, sends: bool) -> usize
    ensures { result ≡ row_on chan sends }
{
    if sends {
        2 * chan as usize + 1
    } else {
        2 * chan as usize
    }
}

/// The offers of a sleeper of this key enter their rows: all, or none if memory is refused.
pub(crate) fn enter_all(queues: &mut SleepQueues, key: u64, request: &Request) -> Result<(), Memory>
    requires { filter (is_not_of key) (placed queues.old) ≡ placed queues.old }
    ensures ok { OnOk result (placed queues.new ≡ placed queues.old ++ placed_all key (request_of request.now)) }
    ensures memory { OnErr result (placed queues.new ≡ placed queues.old) }
{
    match try_enter_all(queues, key, request) {
        Ok(()) => Ok(()),
        Err(memory) => {
            leave_all(queues, key);
            Err(memory)
        }
    }
}

/// Like `enter_all`, but if memory is refused some may have entered.
fn try_enter_all(queues: &mut SleepQueues, key: u64, request: &Request) -> Result<(), Memory>
    ensures ok { OnOk result (placed queues.new ≡ placed queues.old ++ placed_all key (request_of request.now)) }
    ensures others { filter (is_not_of key) (placed queues.new) ≡ filter (is_not_of key) (placed queues.old) }
{
    match request {
        Request::Send(Some(chan), item) => offer(queues, key, 0, *chan, Some(item)),
        Request::Receive(Some(chan)) => offer(queues, key, 0, *chan, None),
        Request::Select(cases, _) => offer_clauses(queues, key, cases.as_slice()),
        _ => Ok(()),
    }
}

/// Each clause of a select that is not on `nil` is offered.
fn offer_clauses(queues: &mut SleepQueues, key: u64, cases: &[Case]) -> Result<(), Memory>
    ensures ok { OnOk result (placed queues.new ≡ placed queues.old ++ map (placed_offer key) (clause_offers 1 cases.now)) }
    ensures others { filter (is_not_of key) (placed queues.new) ≡ filter (is_not_of key) (placed queues.old) }
{
    for i in 0..cases.len() {
        let case = &cases[i];
        if let Some(chan) = case.chan {
            offer(queues, key, i + 1, chan, case.item.as_ref())?;
        }
    }
    Ok(())
}

/// The sleeper of a key offers this on a channel.
fn offer(
    queues: &mut SleepQueues,
    key: u64,
    case: usize,
    chan: u32,
    item: Option<&Item>,
) -> Result<(), Memory>
    ensures ok { OnOk result (placed queues.new ≡ placed queues.old ++ placed_offer key (record { case = case; chan = chan; item = option_copied item.entry }) ∷ []) }
    ensures others { filter (is_not_of key) (placed queues.new) ≡ filter (is_not_of key) (placed queues.old) }
{
    let row = row_on(chan, item.is_some());
    enter(
        queues,
        row,
        OfferView {
            number: key,
            case,
            chan,
            item,
        },
    )
}

/// An offer enters a row, which is made if it is not there.
fn enter(queues: &mut SleepQueues, row: usize, offer: OfferView<'_>) -> Result<(), Memory>
    ensures ok { OnOk result (placed queues.new ≡ placed queues.old ++ record { row = row; entry = view_of offer.entry } ∷ []) }
    ensures memory { OnErr result (placed queues.new ≡ placed queues.old) }
{
    add_rows(queues, row)?;
    queues.enter(row, offer)?;
    Ok(())
}

/// Makes the rows up to this one.
fn add_rows(queues: &mut SleepQueues, row: usize) -> Result<(), Memory>
    ensures ok { OnOk result (row < queues.new.rows) }
    ensures same { queues.new.waiting ≡ queues.old.waiting }
{
    while queues.rows() <= row {
        queues.add_rows()?;
    }
    Ok(())
}

/// Removes all that is there for a key.
pub(crate) fn leave_all(queues: &mut SleepQueues, key: u64)
    ensures { placed queues.new ≡ filter (is_not_of key) (placed queues.old) }
{
    leave_counted::<Brand>(queues, key, Blank::new(1));
}

/// Like `leave_all`, with the steps that it takes counted, which costs nothing.
fn leave_counted<L: Ledger>(queues: &mut SleepQueues, key: u64, blank: Blank)
    requires name { blank.name ≡ L.name }
    requires parts { blank.parts ≡ L.parts }
    requires one { blank.parts ≡ 1 }
    ensures { queues.new.waiting ≡ filter (is_not_of_number key) queues.old.waiting }
{
    let mut steps = Steps::<L>::new(blank);
    queues.leave_all(key, &mut steps);
}
