//! What a print writes.

ghost use Rattle.std.specs.Prelude.{◌≡◌, ◌++◌, ◌≤◌, IfOk, OnOk, drop, length};
ghost use Rattle.bytecode.specs.Machine.{part_rest, part_text, printed};

use bytecode::{Part, PrintTable};
use std::alloc::{AllocError, Global};
use word::text::append;
use word::value::Word;

/// Appends the text of a part, which takes its value from `words` at `index`, and returns the index after it.
fn put_part(
    text: &mut Vec<u8>,
    part: &Part,
    words: &[Word],
    index: usize,
) -> Result<usize, AllocError>
    requires { index ≤ length words.now }
    ensures text { OnOk result (text.new.items ≡ text.old.items ++ part_text part.now (drop index words.now)) }
    ensures rest { IfOk result (λ next. drop next words.now ≡ part_rest part.now (drop index words.now)) }
    ensures within { IfOk result (λ next. next ≤ length words.now) }
{
    match part {
        Part::Text(bytes) => {
            text.extend_from_slice(bytes.bytes())?;
            Ok(index)
        }
        Part::Int => put_word(text, words, index),
        Part::Bool => put_word(text, words, index),
    }
}

/// Appends the text of the word at `index`, and returns the index after it.
fn put_word(text: &mut Vec<u8>, words: &[Word], index: usize) -> Result<usize, AllocError>
    requires { index ≤ length words.now }
    ensures text { OnOk result (text.new.items ≡ text.old.items ++ part_text Part.Int (drop index words.now)) }
    ensures rest { IfOk result (λ next. drop next words.now ≡ part_rest Part.Int (drop index words.now)) }
    ensures within { IfOk result (λ next. next ≤ length words.now) }
{
    if index >= words.len() {
        return Ok(index);
    }
    append(text, words[index])?;
    Ok(index + 1)
}

/// What a print writes of these words.
pub fn print(alloc: Global, table: &PrintTable, words: &[Word]) -> Result<Vec<u8>, AllocError>
    ensures { IfOk result (λ text. text.items ≡ printed table.now words.now) }
{
    let mut text = Vec::new(alloc);
    let parts = table.parts();
    if let Some((first, rest)) = parts.split_first() {
        let mut index = put_part(&mut text, first, words, 0)?;
        for part in rest {
            if table.line() {
                text.push(b' ')?;
            }
            index = put_part(&mut text, part, words, index)?;
        }
    }
    if table.line() {
        text.push(b'\n')?;
    }
    Ok(text)
}
