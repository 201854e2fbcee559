//! What has to be done before a value is known, and what it gave.

ghost use Rattle.std.specs.Prelude.{◌≡◌, ◌++◌, ◌∷◌, [], IfErr, IfOk, drop, length};
ghost use Rattle.word.specs.Views.{reply_of};
ghost use Rattle.meaning.specs.Expressions.{told, told_one};
ghost use Rattle.meaning.specs.Values.{first_of, parted, reply_words};
ghost use Rattle.meaning.specs.Worked.{given_words, needs};
ghost use Rattle.reference_scope.specs.Parts.{values_of};
ghost use Rattle.reference_value.specs.Stops.{Comes, Stops, given_of, need_of};

use crate::fault::{Stop, had};
use reference_scope::words::{single, with_first, words_like};
use std::alloc::{AllocError, Global};
use word::request::{Reply, Request};
use word::value::{Item, Word};

/// What has to be done before a value is known.
#[derive(Drop)]
pub enum Need {
    /// A request.
    Asking(Request),
    /// A call of the function with this number, with these arguments.
    Calling(usize, Vec<Vec<Word>>),
}

/// What a request or a call gave.
pub enum Given {
    /// The reply to a request.
    Told(Reply),
    /// The result of a call.
    Yielded(Vec<Word>),
}

impl Drop for Given {
    fn drop(self) {
        match self {
            Given::Told(reply) => drop(reply),
            Given::Yielded(words) => drop(words),
        }
    }
}

/// What this gave, and what is left of what was given.
///
/// Errors: `Needs` if nothing was given yet; `Memory`.
pub fn needs(alloc: Global, need: Need, given: &[Given]) -> Result<(&Given, &[Given]), Stop>
    ensures ok { IfOk result (λ r. Comes (needs (need_of need)) given.now (given_of r.0.now) r.1.now) }
    ensures err { IfErr result (Stops (needs (need_of need)) given.now) }
{
    match given.split_first() {
        Some((first, left)) => Ok((first, left)),
        None => Err(Stop::Needs(Box::new(alloc, need)?)),
    }
}

/// The words of an item, and whether it was sent.
fn item_words(alloc: Global, item: &Item, sent: bool) -> Result<Vec<Word>, AllocError>
    ensures { IfOk result (λ v. v.items ≡ item.now ++ Word.Bool sent ∷ []) }
{
    let mut words = Vec::from_slice(alloc, item.words())?;
    words.push(Word::Bool(sent))?;
    Ok(words)
}

/// The words of a reply.
pub fn reply_words(alloc: Global, reply: &Reply) -> Result<Vec<Word>, AllocError>
    ensures { IfOk result (λ v. v.items ≡ reply_words (reply_of reply.now)) }
{
    match reply {
        Reply::Word(word) => single(alloc, *word),
        Reply::Received(item, sent) | Reply::Clause(_, Some((item, sent))) => {
            item_words(alloc, item, *sent)
        }
        Reply::Nothing | Reply::Clause(_, None) | Reply::Default | Reply::Closed => {
            Ok(Vec::new(alloc))
        }
    }
}

/// The words that were given.
pub fn given_words(alloc: Global, given: &Given) -> Result<Vec<Word>, AllocError>
    ensures { IfOk result (λ v. v.items ≡ given_words (given_of given.now)) }
{
    match given {
        Given::Told(reply) => reply_words(alloc, reply),
        Given::Yielded(words) => Vec::from_slice(alloc, words.as_slice()),
    }
}

/// The words after those that are like this zero.
fn after<'a>(zero: &[Word], words: &'a [Word]) -> &'a [Word]
    ensures { result.now ≡ drop (length zero.now) words.now }
{
    if zero.len() < words.len() {
        &words[zero.len()..]
    } else {
        &[]
    }
}

/// Words as one value after the other, each like its zero.
pub fn parted<'a>(
    alloc: Global,
    zeros: &'a [Vec<Word>],
    words: &'a [Word],
) -> Result<Vec<Vec<Word>>, AllocError>
    ensures { IfOk result (λ v. values_of v.items ≡ parted (values_of zeros.now) words.now) }
{
    let Some((zero, rest)) = zeros.split_first() else {
        return Ok(Vec::new(alloc));
    };
    let others = parted(alloc, rest, after(zero.as_slice(), words))?;
    with_first(words_like(alloc, zero.as_slice(), words)?, others)
}

/// The first one of these values.
pub(crate) fn first_of(alloc: Global, mut values: Vec<Vec<Word>>) -> Vec<Word>
    ensures { result.items ≡ first_of (values_of values.items) }
{
    if values.is_empty() {
        return Vec::new(alloc);
    }
    values.swap_remove(0)
}

/// The values that this gave, each like its zero.
///
/// Errors: `Needs`; `Memory`.
pub fn told<'g>(
    alloc: Global,
    zeros: &[Vec<Word>],
    need: Need,
    given: &'g [Given],
) -> Result<(Vec<Vec<Word>>, &'g [Given]), Stop>
    ensures ok { IfOk result (λ r. Comes (told (values_of zeros.now) (need_of need)) given.now (values_of r.0.items) r.1.now) }
    ensures err { IfErr result (Stops (told (values_of zeros.now) (need_of need)) given.now) }
{
    let (first, left) = needs(alloc, need, given)?;
    let words = given_words(alloc, first)?;
    had(parted(alloc, zeros, words.as_slice()), left)
}

/// The value that this gave, like a zero.
///
/// Errors: `Needs`; `Memory`.
pub(crate) fn told_one<'g>(
    alloc: Global,
    like: &[Word],
    need: Need,
    given: &'g [Given],
) -> Result<(Vec<Word>, &'g [Given]), Stop>
    ensures ok { IfOk result (λ r. Comes (told_one like.now (need_of need)) given.now r.0.items r.1.now) }
    ensures err { IfErr result (Stops (told_one like.now (need_of need)) given.now) }
{
    let (first, left) = needs(alloc, need, given)?;
    let words = given_words(alloc, first)?;
    had(words_like(alloc, like, words.as_slice()), left)
}
