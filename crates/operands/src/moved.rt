//! Words that are moved.

ghost use Rattle.std.specs.Prelude.{◌≡◌, ◌+◌, ◌≤◌, length};
ghost use Rattle.bytecode.specs.Machine.{put_at};

use word::value::Word;

/// Copies words into others, from an index on.
#[inline(always)]
pub fn put_words(into: &mut [Word], from: usize, words: &[Word])
    requires { from + length words.now ≤ length into.old }
    ensures { into.new ≡ put_at from words.now into.old }
{
    into[from..from + words.len()].copy_from_slice(words);
}

/// Returns `word`. It is taken by its variant, so that what an operator just wrote in parts is not read as a whole, for which the
/// processor would wait.
#[inline(always)]
pub fn by_variant(word: Word) -> Word
    ensures { result ≡ word }
{
    match word {
        Word::Int(number) => Word::Int(number),
        Word::Bool(truth) => Word::Bool(truth),
        Word::Chan(chan) => Word::Chan(chan),
    }
}
