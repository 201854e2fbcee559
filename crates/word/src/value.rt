//! The values of a program.

ghost use Rattle.std.specs.Prelude.{◌≡◌, ◌∷◌, ◌≤◌, [], IsTrue, ◌↔◌, length, pos};
ghost use Rattle.smallvec.specs.SmallVec.{small_vec_len};
ghost use Rattle.word.specs.declared.limits.TheConstants.{MAX_WORDS};

use crate::limits::MAX_WORDS;
use smallvec::SmallVec;
use std::alloc::Global;
use std::marker::Model;

/// A value that takes one word.
#[derive(Clone, Copy, PartialEq, Eq)]
pub enum Word {
    /// An `int`, of 64 bits.
    Int(i64),
    /// A `bool`.
    Bool(bool),
    /// A channel by its number, counted from 1; `None` is `nil`.
    Chan(Option<u32>),
}

impl Default for Word {
    /// The zero `int`.
    fn default() -> Word
        ensures { result ≡ Word.Int (pos 0) }
    {
        Word::Int(0)
    }
}

/// What a channel carries: one word for each field of its type, in order, at most 16.
pub struct Item {
    words: SmallVec<Word, MAX_WORDS>,
    ghost short: { small_vec_len words ≤ MAX_WORDS },
}

impl Drop for Item {
    #[inline(always)]
    fn drop(self) {
        let Item { words } = self;
        drop(words);
    }
}

impl Model for Item {
    ghost use Rattle.std.specs.Prelude.{List};
    ghost use Rattle.word.specs.declared.value.Word.{Word};

    ghost Value = { List Word };

    ghost view = { λ item. item.words.items };
}

impl Item {
    /// The item of these words.
    #[inline(always)]
    pub fn new(alloc: Global, words: &[Word]) -> Item
        requires { length words.now ≤ MAX_WORDS }
        ensures { result ≡ words.now }
    {
        let mut item = Item::empty(alloc);
        item.set(words);
        item
    }

    /// An item of no words.
    #[inline(always)]
    pub fn empty(alloc: Global) -> Item
        ensures { result ≡ [] }
    {
        Item {
            words: SmallVec::new(alloc),
        }
    }

    /// Replaces the item's words by these. The item is not moved: only words are written, those that it had and those that it gets.
    #[inline(always)]
    pub fn set(&mut self, words: &[Word])
        requires { length words.now ≤ MAX_WORDS }
        ensures { self.new ≡ words.now }
    {
        fill(&mut self.words, words);
    }

    /// The item's words.
    pub fn words(&self) -> &[Word]
        ensures words { result.now ≡ self.now }
        ensures short { length self.now ≤ MAX_WORDS }
    {
        self.words.as_slice()
    }

    /// A copy of the item.
    #[inline(always)]
    pub fn copy(&self) -> Item
        ensures { result ≡ self.now }
    {
        Item::new(*self.words.allocator(), self.words.as_slice())
    }
}

/// Replaces the words of `kept` by `words`.
#[inline(always)]
fn fill(kept: &mut SmallVec<Word, MAX_WORDS>, words: &[Word])
    requires { length words.now ≤ MAX_WORDS }
    ensures { kept.new.items ≡ words.now }
{
    kept.clear();
    let _room = kept.capacity();
    for word in words {
        kept.push_reserved(*word);
    }
}
