//! The reply words of a goroutine's last request.

ghost use Rattle.std.specs.Prelude.{◌≡◌, ◌≤◌, ◌<◌, ◌++◌, ◌∷◌, [], length};
ghost use Rattle.bytecode.specs.Machine.{fitted as fitted_of};

use bytecode::WordKind;
use operands::kinds::word_at;
use std::marker::Model;
use word::value::{Item, Word};

/// An item of 16 words at most, and whether it was sent.
pub(crate) const MAX_TOLD: usize = 17;

/// The reply words that the next step puts onto the goroutine's stack. They are stored inline.
#[derive(Drop)]
pub(crate) struct Told {
    words: [Word; 17],
    len: usize,
}

impl Model for Told {
    ghost use Rattle.std.specs.Prelude.{List, take, ◌≤◌, length};
    ghost use Rattle.word.specs.declared.value.Word.{Word};

    ghost Value = { List Word };

    ghost view = { λ t. take t.len t.words };

    ghost invariant = { λ t. t.len ≤ 17 };
}

impl Told {
    /// No words.
    pub(crate) fn nothing() -> Told
        ensures { result ≡ [] }
    {
        Told {
            words: [Word::Int(0); 17],
            len: 0,
        }
    }

    /// The words.
    pub(crate) fn words(&self) -> &[Word]
        ensures { result.now ≡ self.now }
    {
        &self.words[..self.len]
    }

    /// How many there are.
    pub(crate) fn len(&self) -> usize
        ensures { result ≡ length self.now }
    {
        self.words().len()
    }

    /// No words are left.
    pub(crate) fn clear(&mut self)
        ensures { self.new ≡ [] }
    {
        self.len = 0;
    }

    /// A copy of the list.
    pub(crate) fn copy(&self) -> Told
        ensures { result ≡ self.now }
    {
        Told {
            words: self.words,
            len: self.len,
        }
    }

    /// These two words alone.
    #[inline(always)]
    fn pair(&mut self, first: Word, second: Word)
        ensures { self.new ≡ first ∷ (second ∷ []) }
    {
        self.clear();
        self.push(first);
        self.push(second);
    }

    /// Appends a word.
    fn push(&mut self, word: Word)
        requires { length self.old < 17 }
        ensures { self.new ≡ self.old ++ word ∷ [] }
    {
        self.words[self.len] = word;
        self.len += 1;
    }
}

/// Sets `told` to `words`, each fitted to its kind of `kinds`.
pub(crate) fn tell(told: &mut Told, kinds: &[WordKind], words: &[Word])
    requires { length kinds.now ≤ 17 }
    ensures { told.new ≡ fitted_of kinds.now words.now }
{
    told.clear();
    for index in 0..kinds.len() {
        told.push(word_at(kinds[index], words, index));
    }
}

/// Like `tell`, with a truth value after the words. Inlined for one word.
#[inline(always)]
pub(crate) fn tell_with_truth(told: &mut Told, kinds: &[WordKind], words: &[Word])
    requires { length kinds.now ≤ 16 }
    ensures { told.new ≡ fitted_of (kinds.now ++ WordKind.Bool ∷ []) words.now }
{
    match (kinds, words) {
        ([kind], [_, Word::Bool(truth)]) => told.pair(word_at(*kind, words, 0), Word::Bool(*truth)),
        _ => tell_all_with_truth(told, kinds, words),
    }
}

/// Like `tell_with_truth`, for any number of words.
#[inline(never)]
fn tell_all_with_truth(told: &mut Told, kinds: &[WordKind], words: &[Word])
    requires { length kinds.now ≤ 16 }
    ensures { told.new ≡ fitted_of (kinds.now ++ WordKind.Bool ∷ []) words.now }
{
    tell(told, kinds, words);
    told.push(word_at(WordKind::Bool, words, kinds.len()));
}

/// The words of an item, followed by whether it was sent.
pub(crate) fn words_of(item: &Item, ok: bool) -> Told
    ensures { result ≡ item.now ++ Word.Bool ok ∷ [] }
{
    let mut told = Told::nothing();
    for word in item.words() {
        told.push(*word);
    }
    told.push(Word::Bool(ok));
    told
}
