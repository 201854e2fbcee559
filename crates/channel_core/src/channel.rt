//! A channel without its sleepers.

ghost use Rattle.std.specs.Prelude.{◌≡◌, ◌<◌, ◌≤◌, ◌++◌, ◌∷◌, [], None, false, drop, nat_lt, pos, slice_index_or, true, length, IfNone, IfOk, IfSome, OnErr, OnOk};
ghost use Rattle.item_queue.specs.Items.{front_word};
ghost use Rattle.smallvec.specs.SmallVec.{small_vec_len};
ghost use Rattle.word.specs.Requests.{got, no_channel};
ghost use Rattle.word.specs.Values.{Done};
ghost use Rattle.word.specs.declared.limits.TheConstants.{MAX_WORDS};
ghost use Rattle.word.specs.Views.{outcome_of};

use crate::outcome::{tell_front, tell_got};
use item_queue::ItemQueue;
use smallvec::SmallVec;
use std::alloc::{AllocError, Global};
use std::marker::Model;
use word::limits::MAX_WORDS;
use word::request::EventOutcome;
use word::value::{Item, Word};

/// A channel without its sleepers: its capacity, what is in its buffer, whether it is closed, and the words of the zero item.
#[derive(Drop)]
pub struct Channel {
    capacity: u32,
    closed: bool,
    items: ItemQueue,
    zero: SmallVec<Word, 1>,
    ghost short: { small_vec_len zero ≤ MAX_WORDS },
}

impl Model for Channel {
    ghost use Rattle.word.specs.Values.{Channel as AnyChannel};

    ghost Value = { AnyChannel };

    ghost view = { λ c. record { capacity = c.capacity; items = c.items; closed = c.closed; zero = c.zero.items } };
}

impl Channel {
    /// An open channel with nothing in its buffer.
    pub(crate) fn new(alloc: Global, capacity: u32, zero: &Item) -> Result<Channel, AllocError>
        ensures { IfOk result (λ c. c ≡ record { capacity = capacity; items = []; closed = false; zero = zero.now }) }
    {
        let words = zero.words();
        let zero = SmallVec::from_slice(alloc, words)?;
        Ok(Channel {
            capacity,
            closed: false,
            items: ItemQueue::new(alloc, words.len()),
            zero,
        })
    }

    /// Whether it is closed.
    pub(crate) fn is_closed(&self) -> bool
        ensures { result ≡ self.now.closed }
    {
        self.closed
    }

    /// Whether the buffer has space for an item.
    pub(crate) fn has_room(&self) -> bool
        ensures { result ≡ nat_lt (length self.now.items) self.now.capacity }
    {
        self.items.len() < self.capacity as usize
    }

    /// How many items are in the buffer (Go: Length and capacity).
    pub(crate) fn len(&self) -> i64
        ensures { result ≡ pos (length self.now.items) }
    {
        self.items.len() as i64
    }

    /// How many items the buffer holds at most (Go: Length and capacity).
    pub(crate) fn capacity(&self) -> i64
        ensures { result ≡ pos self.now.capacity }
    {
        i64::from(self.capacity)
    }

    /// Nothing more is sent on it (Go: Close).
    pub(crate) fn close(&mut self)
        ensures { self.new ≡ record self.old { closed = true } }
    {
        self.closed = true;
    }

    /// Whether an item is in the buffer.
    pub(crate) fn has_items(&self) -> bool
        ensures { result ≡ nat_lt 0 (length self.now.items) }
    {
        self.items.len() > 0
    }

    /// The zero item.
    pub(crate) fn zero(&self) -> Item
        ensures { result ≡ self.now.zero }
    {
        Item::new(*self.zero.allocator(), self.zero.as_slice())
    }

    /// Puts an item at the buffer's back.
    pub(crate) fn push(&mut self, item: &Item) -> Result<(), AllocError>
        ensures ok { OnOk result (self.new ≡ record self.old { items = self.old.items ++ item.now ∷ [] }) }
        ensures err { OnErr result (self.new ≡ self.old) }
    {
        self.items.push(*self.zero.allocator(), item)
    }

    /// Like `push`, of an item of this one word.
    #[inline(always)]
    pub(crate) fn push_word(&mut self, word: Word) -> Result<(), AllocError>
        ensures ok { OnOk result (self.new ≡ record self.old { items = self.old.items ++ (word ∷ []) ∷ [] }) }
        ensures err { OnErr result (self.new ≡ self.old) }
    {
        self.items.push_word(*self.zero.allocator(), word)
    }

    /// Takes the item at the buffer's front, if there is one and it has no other word than the one returned.
    #[inline(always)]
    pub(crate) fn pop_word(&mut self) -> Option<Word>
        ensures front { IfSome result (λ word. slice_index_or self.old.items 0 [] ≡ word ∷ []) }
        ensures rest { IfSome result (λ word. self.new ≡ record self.old { items = drop 1 self.old.items }) }
        ensures none { IfNone result (front_word self.old.items ≡ None) }
        ensures same { IfNone result (self.new ≡ self.old) }
    {
        self.items.pop_word()
    }

    /// Puts this word at the buffer's back, and takes the item at its front (the same one if the buffer was empty), if that
    /// item has no other word than the one returned.
    pub(crate) fn pass_word(&mut self, word: Word) -> Result<Option<Word>, AllocError>
        ensures front { IfOk result (λ front. IfSome front (λ front. slice_index_or (self.old.items ++ (word ∷ []) ∷ []) 0 [] ≡ front ∷ [])) }
        ensures rest { IfOk result (λ front. IfSome front (λ _front. self.new ≡ record self.old { items = drop 1 (self.old.items ++ (word ∷ []) ∷ []) })) }
        ensures none { IfOk result (λ front. IfNone front (front_word (self.old.items ++ (word ∷ []) ∷ []) ≡ None)) }
        ensures same { IfOk result (λ front. IfNone front (self.new ≡ self.old)) }
        ensures err { OnErr result (self.new ≡ self.old) }
    {
        if self.items.len() == 0 {
            return Ok(Some(word));
        }
        let Some(front) = self.items.front_word() else {
            return Ok(None);
        };
        self.push_word(word)?;
        self.items.drop_front();
        Ok(Some(front))
    }

    /// Takes the item at the buffer's front, if there is one, and writes the receiver's reply to `outcome`.
    pub(crate) fn pop(&mut self, alloc: Global, clause: usize, outcome: &mut EventOutcome)
        ensures told { nat_lt 0 (length self.old.items) ≡ true → outcome_of outcome.new ≡ Done (got clause (slice_index_or self.old.items 0 []) true) }
        ensures rest { self.new ≡ record self.old { items = drop 1 self.old.items } }
    {
        tell_front(alloc, outcome, clause, &self.items);
        self.items.drop_front();
    }

    /// Puts an item at the buffer's back, takes the one at its front (the same one if the buffer was empty), and writes
    /// the receiver's reply to `outcome`.
    #[tactic(auto, using(crate::proofs::Deeds::is_longer))]
    pub(crate) fn pass_through(
        &mut self,
        alloc: Global,
        item: &Item,
        clause: usize,
        outcome: &mut EventOutcome,
    ) -> Result<(), AllocError>
        ensures told { OnOk result (outcome_of outcome.new ≡ Done (got clause (slice_index_or (self.old.items ++ item.now ∷ []) 0 []) true)) }
        ensures rest { OnOk result (self.new ≡ record self.old { items = drop 1 (self.old.items ++ item.now ∷ []) }) }
        ensures err { OnErr result (self.new ≡ self.old) }
    {
        if self.items.len() == 0 {
            tell_got(alloc, outcome, clause, item, true);
            return Ok(());
        }
        self.push(item)?;
        self.pop(alloc, clause, outcome);
        Ok(())
    }
}
