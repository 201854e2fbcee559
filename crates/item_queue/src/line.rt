//! Items word by word.

ghost use Rattle.std.specs.Prelude.{◌≡◌, ◌≢◌, ◌+◌, ◌*◌, ◌<◌, ◌≤◌, drop, take, IfOk};
ghost use Rattle.std.specs.VecDeque.{deque_len};
ghost use Rattle.item_queue.specs.Items.{items_in};
ghost use Rattle.word.specs.declared.limits.TheConstants.{MAX_WORDS};

use crate::words::{append, copy, cut, make_room};
use std::alloc::{AllocError, Global};
use std::collections::VecDeque;
use word::limits::MAX_WORDS;
use word::value::{Item, Word};

/// Items in order that have one number of words, which is not 0. They are stored word by word, at 16 bytes each.
#[derive(Drop)]
pub(crate) struct Line {
    pub width: usize,
    pub count: usize,
    pub words: VecDeque<Word>,
    ghost filled: { deque_len words ≡ width * count },
    ghost bounded: { (0 < width) × (width ≤ MAX_WORDS) },
}

impl Line {
    ghost use Rattle.std.specs.Prelude.{◌≡◌, ◌≢◌, ◌<◌, ◌≤◌, ◌^◌, ◌++◌, ◌∷◌, [], None, drop, length, slice_index_or, IfNone, IfOk, IfSome, OnErr, OnOk};
    ghost use Rattle.item_queue.specs.Items.{front_word};
    ghost use Rattle.word.specs.declared.limits.TheConstants.{MAX_WORDS};
    ghost use Rattle.item_queue.specs.Lines.{items_of_line};

    /// No items of `width` words.
    pub(crate) fn new(alloc: Global, width: usize) -> Line
        requires some { 0 < width }
        requires few { width ≤ MAX_WORDS }
        ensures { items_of_line result ≡ [] }
    {
        Line {
            width,
            count: 0,
            words: VecDeque::new(alloc),
        }
    }

    /// How many words an item has.
    pub(crate) fn width(&self) -> usize
        ensures { result ≡ self.now.width }
    {
        self.width
    }

    /// How many items there are.
    #[tactic(auto, using(crate::proofs::Rows::few, crate::proofs::Rows::length_items_in))]
    pub(crate) fn len(&self) -> usize
        ensures value { result ≡ length (items_of_line self.now) }
        ensures small { result < 2 ^ 63 }
    {
        let _words = self.words.len();
        self.count
    }

    /// Puts an item at the back.
    #[tactic(auto, using(crate::proofs::Rows::one_more, crate::proofs::Rows::few))]
    pub(crate) fn push(&mut self, item: &[Word]) -> Result<(), AllocError>
        requires { length item.now ≡ self.old.width }
        ensures ok { OnOk result (items_of_line self.new ≡ items_of_line self.old ++ item.now ∷ []) }
        ensures err { OnErr result (items_of_line self.new ≡ items_of_line self.old) }
    {
        make_room(&mut self.words, item.len())?;
        append(&mut self.words, item);
        self.count += 1;
        Ok(())
    }

    /// Like `push`, of an item of this one word.
    #[inline(always)]
    #[tactic(auto, using(crate::proofs::Rows::one_more, crate::proofs::Rows::few))]
    pub(crate) fn push_word(&mut self, word: Word) -> Result<(), AllocError>
        requires { self.old.width ≡ 1 }
        ensures ok { OnOk result (items_of_line self.new ≡ items_of_line self.old ++ (word ∷ []) ∷ []) }
        ensures err { OnErr result (items_of_line self.new ≡ items_of_line self.old) }
    {
        make_room(&mut self.words, 1)?;
        self.words.push_back_reserved(word);
        self.count += 1;
        Ok(())
    }

    /// The word of the item at the front, if items have one word and there is one.
    #[inline(always)]
    #[tactic(auto, using(crate::proofs::Rows::wide))]
    pub(crate) fn front_word(&self) -> Option<Word>
        ensures { result ≡ front_word (items_of_line self.now) }
    {
        if self.width == 1 {
            self.words.front().copied()
        } else {
            None
        }
    }

    /// Takes off the item at the front, if items have one word and there is one, and returns its word.
    #[inline(always)]
    #[tactic(auto, using(crate::proofs::Rows::wide, crate::proofs::Rows::popped))]
    pub(crate) fn pop_word(&mut self) -> Option<Word>
        ensures some { IfSome result (λ word. items_of_line self.old ≡ (word ∷ []) ∷ items_of_line self.new) }
        ensures none { IfNone result (front_word (items_of_line self.old) ≡ None) }
        ensures same { IfNone result (items_of_line self.new ≡ items_of_line self.old) }
    {
        if self.width != 1 {
            return None;
        }
        let word = self.words.pop_front();
        if word.is_some() {
            self.count -= 1;
        }
        word
    }

    /// Writes the item at the front to `room`, if there is one.
    pub(crate) fn copy_front(&self, room: &mut Item)
        ensures { length (items_of_line self.now) ≢ 0 → room.new ≡ slice_index_or (items_of_line self.now) 0 [] }
    {
        if self.count > 0 {
            copy_item(&self.words, self.width, room);
        }
    }

    /// Takes off the item at the front, if there is one.
    pub(crate) fn drop_front(&mut self)
        ensures { items_of_line self.new ≡ drop 1 (items_of_line self.old) }
    {
        if self.count == 0 {
            return;
        }
        cut(&mut self.words, self.width);
        self.count -= 1;
    }

    /// The items, each by itself.
    pub(crate) fn spread(&self, alloc: Global) -> Result<VecDeque<Item>, AllocError>
        ensures { IfOk result (λ items. items.items ≡ items_of_line self.now) }
    {
        spread(alloc, &self.words, self.width, self.count)
    }
}

/// Writes the item of the first `width` words to `room`.
fn copy_item(words: &VecDeque<Word>, width: usize, room: &mut Item)
    requires some { 0 < width }
    requires few { width ≤ MAX_WORDS }
    requires there { width ≤ deque_len words.now }
    ensures { room.new ≡ take width words.now.items }
{
    if width > 1 {
        copy_words(words, 0, width, room);
    } else if let Some(word) = words.front() {
        room.set([*word].as_slice());
    }
}

/// Writes the item of `width` words, from index `from` on, to `room`. It is a call, so that an item of one word
/// reserves no stack space for more.
#[inline(never)]
fn copy_words(words: &VecDeque<Word>, from: usize, width: usize, room: &mut Item)
    requires few { width ≤ MAX_WORDS }
    requires there { from + width ≤ deque_len words.now }
    ensures { room.new ≡ take width (drop from words.now.items) }
{
    let mut copied = [Word::Int(0); MAX_WORDS];
    let item = &mut copied[..width];
    copy(words, from, item);
    room.set(item);
}

/// The first `count` items of `width` words, each by itself.
fn spread(
    alloc: Global,
    words: &VecDeque<Word>,
    width: usize,
    count: usize,
) -> Result<VecDeque<Item>, AllocError>
    requires few { width ≤ MAX_WORDS }
    requires filled { deque_len words.now ≡ width * count }
    ensures { IfOk result (λ items. items.items ≡ items_in width count words.now.items) }
{
    let mut items = VecDeque::new(alloc);
    let mut from = 0;
    for done in 0..count {
        items.reserve(1)?;
        let mut item = Item::empty(alloc);
        copy_words(words, from, width, &mut item);
        items.push_back_reserved(item);
        from += width;
    }
    Ok(items)
}
