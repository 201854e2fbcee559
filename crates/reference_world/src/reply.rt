//! The replies to senders and receivers.

ghost use Rattle.std.specs.Prelude.{◌≡◌};
ghost use Rattle.word.specs.Requests.{close_reply, got, sent};
ghost use Rattle.word.specs.Views.{reply_of};

use crate::sleeper::Offer;
use word::request::Reply;
use word::value::Item;

/// The reply of a close to a goroutine that it wakes by this offer: the zero item to a receiver; to a sender, that its item is
/// not accepted.
pub(crate) fn close_reply(zero: &Item, offer: &Offer) -> Reply
    ensures { reply_of result ≡ close_reply zero.now offer.now }
{
    if offer.item.is_some() {
        return Reply::Closed;
    }
    got(offer.case, zero.copy(), false)
}

/// The reply to a sender, by its clause of a select; `clause` is 0 outside of one.
pub(crate) fn sent(clause: usize) -> Reply
    ensures { reply_of result ≡ sent clause }
{
    if clause == 0 {
        return Reply::Nothing;
    }
    Reply::Clause(clause, None)
}

/// The reply to a receiver, by its clause of a select; `clause` is 0 outside of one.
pub(crate) fn got(clause: usize, item: Item, ok: bool) -> Reply
    ensures { reply_of result ≡ got clause item ok }
{
    if clause == 0 {
        return Reply::Received(item, ok);
    }
    Reply::Clause(clause, Some((item, ok)))
}
