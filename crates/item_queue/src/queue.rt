//! Items in order.

ghost use Rattle.std.specs.Prelude.{◌≡◌, ◌≢◌, ◌<◌, ◌≤◌, ◌^◌, ◌++◌, ◌∷◌, [], None, drop, length, slice_index_or, IfNone, IfSome, OnErr, OnOk};
ghost use Rattle.item_queue.specs.Items.{front_word, only_word};
ghost use Rattle.word.specs.declared.limits.TheConstants.{MAX_WORDS};
ghost use Rattle.item_queue.specs.Lines.{items_of};

use crate::line::Line;
use std::alloc::{AllocError, Global};
use std::collections::VecDeque;
use std::marker::Model;
use word::limits::MAX_WORDS;
use word::value::{Item, Word};

/// Items as they are kept in memory.
#[derive(Drop)]
pub(crate) enum Kept {
    /// Items of one number of words.
    Words(Line),
    /// Any items.
    Items(VecDeque<Item>),
}

/// Items in order. As long as each has the `width` words that `new` was given, it takes 16 bytes a word. Once another
/// one comes, each takes 272. It takes no memory before the first one, and then at most twice what the items take.
#[derive(Drop)]
pub struct ItemQueue {
    kept: Kept,
}

impl Model for ItemQueue {
    ghost use Rattle.std.specs.Prelude.{List};
    ghost use Rattle.item_queue.specs.Lines.{items_of};
    ghost use Rattle.word.specs.Values.{Item};

    ghost Value = { List Item };

    ghost view = { λ q. items_of q.kept };
}

impl ItemQueue {
    /// No items; `width` is how many words each is to have.
    pub fn new(alloc: Global, width: usize) -> ItemQueue
        requires { width ≤ MAX_WORDS }
        ensures { result ≡ [] }
    {
        if width == 0 {
            return ItemQueue {
                kept: Kept::Items(VecDeque::new(alloc)),
            };
        }
        ItemQueue {
            kept: Kept::Words(Line::new(alloc, width)),
        }
    }

    /// How many items there are.
    pub fn len(&self) -> usize
        ensures value { result ≡ length self.now }
        ensures small { result < 2 ^ 63 }
    {
        match &self.kept {
            Kept::Words(line) => line.len(),
            Kept::Items(items) => items.len(),
        }
    }

    /// Puts an item at the back.
    ///
    /// # Errors
    ///
    /// `AllocError` if it is out of memory; then nothing has changed.
    pub fn push(&mut self, alloc: Global, item: &Item) -> Result<(), AllocError>
        ensures ok { OnOk result (self.new ≡ self.old ++ item.now ∷ []) }
        ensures err { OnErr result (self.new ≡ self.old) }
    {
        push(&mut self.kept, alloc, item)
    }

    /// Like `push`, of an item of this one word.
    ///
    /// # Errors
    ///
    /// `AllocError` if it is out of memory; then nothing has changed.
    #[inline(always)]
    pub fn push_word(&mut self, alloc: Global, word: Word) -> Result<(), AllocError>
        ensures ok { OnOk result (self.new ≡ self.old ++ (word ∷ []) ∷ []) }
        ensures err { OnErr result (self.new ≡ self.old) }
    {
        match &mut self.kept {
            Kept::Words(line) if line.width() == 1 => line.push_word(word),
            kept => push_other(kept, alloc, &Item::new(alloc, [word].as_slice())),
        }
    }

    /// The word of the item at the front, if there is one and it has no other word.
    #[inline(always)]
    pub fn front_word(&self) -> Option<Word>
        ensures { result ≡ front_word self.now }
    {
        match &self.kept {
            Kept::Words(line) => line.front_word(),
            Kept::Items(items) => front_word(items),
        }
    }

    /// Takes off the item at the front, if there is one and it has no other word than the one returned.
    #[inline(always)]
    pub fn pop_word(&mut self) -> Option<Word>
        ensures some { IfSome result (λ word. self.old ≡ (word ∷ []) ∷ self.new) }
        ensures none { IfNone result (front_word self.old ≡ None) }
        ensures same { IfNone result (self.new ≡ self.old) }
    {
        match &mut self.kept {
            Kept::Words(line) => line.pop_word(),
            Kept::Items(items) => pop_word(items),
        }
    }

    /// Writes the item at the front to `room`, if there is one.
    pub fn copy_front(&self, room: &mut Item)
        ensures { length self.now ≢ 0 → room.new ≡ slice_index_or self.now 0 [] }
    {
        match &self.kept {
            Kept::Words(line) => line.copy_front(room),
            Kept::Items(items) => copy_item(items, room),
        }
    }

    /// Takes off the item at the front, if there is one.
    pub fn drop_front(&mut self)
        ensures { self.new ≡ drop 1 self.old }
    {
        match &mut self.kept {
            Kept::Words(line) => line.drop_front(),
            Kept::Items(items) => {
                let _ = items.pop_front();
            }
        }
    }
}

/// Puts an item at the back.
fn push(kept: &mut Kept, alloc: Global, item: &Item) -> Result<(), AllocError>
    ensures ok { OnOk result (items_of kept.new ≡ items_of kept.old ++ item.now ∷ []) }
    ensures err { OnErr result (items_of kept.new ≡ items_of kept.old) }
{
    let words = item.words();
    match kept {
        Kept::Words(line) => {
            if words.len() == line.width() {
                return line.push(words);
            }
        }
        Kept::Items(items) => return push_item(items, item),
    }
    push_other(kept, alloc, item)
}

/// Puts an item of any number of words at the back. It is a call, so that no other item reserves stack space for it.
#[inline(never)]
fn push_other(kept: &mut Kept, alloc: Global, item: &Item) -> Result<(), AllocError>
    ensures ok { OnOk result (items_of kept.new ≡ items_of kept.old ++ item.now ∷ []) }
    ensures err { OnErr result (items_of kept.new ≡ items_of kept.old) }
{
    let mut items = match kept {
        Kept::Words(line) => line.spread(alloc)?,
        Kept::Items(items) => return push_item(items, item),
    };
    push_item(&mut items, item)?;
    *kept = Kept::Items(items);
    Ok(())
}

/// Puts an item at the back.
#[inline(never)]
fn push_item(items: &mut VecDeque<Item>, item: &Item) -> Result<(), AllocError>
    ensures ok { OnOk result (items.new.items ≡ items.old.items ++ item.now ∷ []) }
    ensures err { OnErr result (items.new.items ≡ items.old.items) }
{
    items.reserve(1)?;
    items.push_back_reserved(item.copy());
    Ok(())
}

/// Writes the item at the front to `room`, if there is one.
fn copy_item(items: &VecDeque<Item>, room: &mut Item)
    ensures { length items.now.items ≢ 0 → room.new ≡ slice_index_or items.now.items 0 [] }
{
    if let Some(front) = items.front() {
        room.set(front.words());
    }
}

/// The word of the item at the front, if there is one and it has no other word.
#[inline(never)]
fn front_word(items: &VecDeque<Item>) -> Option<Word>
    ensures { result ≡ front_word items.now.items }
{
    match items.front() {
        Some(front) => only_word(front.words()),
        None => None,
    }
}

/// Takes off the item at the front, if there is one and it has no other word than the one returned.
#[inline(never)]
fn pop_word(items: &mut VecDeque<Item>) -> Option<Word>
    ensures some { IfSome result (λ word. items.old.items ≡ (word ∷ []) ∷ items.new.items) }
    ensures none { IfNone result (front_word items.old.items ≡ None) }
    ensures same { IfNone result (items.new.items ≡ items.old.items) }
{
    let word = front_word(items);
    if word.is_some() {
        let _ = items.pop_front();
    }
    word
}

/// The word, if there is just one.
fn only_word(words: &[Word]) -> Option<Word>
    ensures { result ≡ only_word words.now }
{
    if words.len() == 1 {
        Some(words[0])
    } else {
        None
    }
}
