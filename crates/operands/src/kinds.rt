//! Words of kinds.

ghost use Rattle.std.specs.Prelude.{◌≡◌, ◌≤◌, ◌↔◌, ◌++◌, ◌∷◌, [], IsTrue, IfOk, OnOk, drop, length, map, take};
ghost use Rattle.bytecode.specs.Machine.{as_kind as as_kind_of, fitted as fitted_of, zero_of as zero_word};
ghost use Rattle.operands.specs.Words.{word_for};

use bytecode::WordKind;
use std::alloc::{AllocError, Global};
use word::value::Word;

/// The zero of a kind.
pub fn zero_of(kind: WordKind) -> Word
    ensures { result ≡ zero_word kind }
{
    match kind {
        WordKind::Int => Word::Int(0),
        WordKind::Bool => Word::Bool(false),
        WordKind::Chan(_) => Word::Chan(None),
    }
}

/// The word if it is of the kind, else the kind's zero.
fn as_kind(kind: WordKind, word: Word) -> Word
    ensures { result ≡ as_kind_of kind word }
{
    match kind {
        WordKind::Int => match word {
            Word::Int(number) => Word::Int(number),
            Word::Bool(_) | Word::Chan(_) => Word::Int(0),
        },
        WordKind::Bool => match word {
            Word::Bool(truth) => Word::Bool(truth),
            Word::Int(_) | Word::Chan(_) => Word::Bool(false),
        },
        WordKind::Chan(_) => match word {
            Word::Chan(chan) => Word::Chan(chan),
            Word::Int(_) | Word::Bool(_) => Word::Chan(None),
        },
    }
}

/// The word of this kind at `index` of `words`, a zero if there is none.
pub fn word_at(kind: WordKind, words: &[Word], index: usize) -> Word
    ensures { result ≡ word_for kind (drop index words.now) }
{
    match words.get(index) {
        Some(word) => as_kind(kind, *word),
        None => zero_of(kind),
    }
}

/// Overwrites `made` with as many words of these kinds: those of `words`, then zeros.
#[inline(always)]
fn overwrite(made: &mut [Word], kinds: &[WordKind], words: &[Word])
    requires { length made.old ≡ length kinds.now }
    ensures { made.new ≡ fitted_of kinds.now words.now }
{
    for index in 0..kinds.len() {
        made[index] = word_at(kinds[index], words, index);
    }
}

/// Replaces `made`, of another length, by words of these kinds: those of `words`, then zeros.
#[inline(never)]
fn refill(made: &mut Vec<Word>, kinds: &[WordKind], words: &[Word]) -> Result<(), AllocError>
    ensures { OnOk result (made.new.items ≡ fitted_of kinds.now words.now) }
{
    made.clear();
    for index in 0..kinds.len() {
        made.push(word_at(kinds[index], words, index))?;
    }
    Ok(())
}

/// Replaces `made` by words of these kinds: those of `words`, then zeros.
#[inline(always)]
pub fn fit(made: &mut Vec<Word>, kinds: &[WordKind], words: &[Word]) -> Result<(), AllocError>
    ensures { OnOk result (made.new.items ≡ fitted_of kinds.now words.now) }
{
    if made.len() == kinds.len() {
        overwrite(made.as_mut_slice(), kinds, words);
        return Ok(());
    }
    refill(made, kinds, words)
}

/// Zeros of these kinds over as many others, from an index on.
#[inline(never)]
fn overwrite_any(made: &mut [Word], kinds: &[WordKind], from: usize)
    requires same { length made.old ≡ length kinds.now }
    requires within { from ≤ length kinds.now }
    ensures { made.new ≡ take from made.old ++ fitted_of (drop from kinds.now) [] }
{
    for index in from..kinds.len() {
        made[index] = zero_of(kinds[index]);
    }
}

/// Like `overwrite_any`, but expects most of them to be ints.
#[inline(always)]
fn overwrite_rest(made: &mut [Word], kinds: &[WordKind], from: usize)
    requires same { length made.old ≡ length kinds.now }
    requires within { from ≤ length kinds.now }
    ensures { made.new ≡ take from made.old ++ fitted_of (drop from kinds.now) [] }
{
    for index in from..kinds.len() {
        match kinds[index] {
            WordKind::Int => made[index] = Word::Int(0),
            _ => {
                overwrite_any(made, kinds, index);
                return;
            }
        }
    }
}

/// Replaces the words in `made` by words of these kinds: `word` first, and zeros after it.
#[inline(always)]
pub fn fit_one(made: &mut Vec<Word>, kinds: &[WordKind], word: Word) -> Result<(), AllocError>
    ensures { OnOk result (made.new.items ≡ fitted_of kinds.now (word ∷ [])) }
{
    if made.len() == kinds.len() && !kinds.is_empty() {
        made[0] = as_kind(kinds[0], word);
        overwrite_rest(made.as_mut_slice(), kinds, 1);
        return Ok(());
    }
    refill(made, kinds, &[word])
}

/// The zero of a shape.
pub fn zeros(alloc: Global, kinds: &[WordKind]) -> Result<Vec<Word>, AllocError>
    ensures { IfOk result (λ words. words.items ≡ map zero_word kinds.now) }
{
    kinds.iter().map(|kind| zero_of(*kind)).collect(alloc)
}

/// Whether the two lists have the same words, one by one.
pub fn same_words(left: &[Word], right: &[Word]) -> bool
    ensures { IsTrue result ↔ (left.now ≡ right.now) }
{
    if left.len() != right.len() {
        return false;
    }
    for i in 0..left.len() {
        if left[i] != right[i] {
            return false;
        }
    }
    true
}
