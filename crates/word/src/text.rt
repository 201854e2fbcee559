//! The text of a value, as `print` and `println` write it.

ghost use Rattle.std.specs.Prelude.{◌≡◌, ◌++◌, OnOk};
ghost use Rattle.word.specs.Text.{text_of};

use crate::value::Word;
use itoa::Buffer;
use std::alloc::AllocError;

/// Appends the text of a value: an int in decimal, `true` or `false`, nothing of a channel.
pub fn append(text: &mut Vec<u8>, word: Word) -> Result<(), AllocError>
    ensures { OnOk result (text.new.items ≡ text.old.items ++ text_of word) }
{
    match word {
        Word::Int(number) => text.extend_from_slice(Buffer::new().format(number).as_bytes())?,
        Word::Bool(true) => text.extend_from_slice(b"true".as_slice())?,
        Word::Bool(false) => text.extend_from_slice(b"false".as_slice())?,
        Word::Chan(_) => {}
    }
    Ok(())
}
