//! Text that is appended to other text.

use std::alloc::AllocError;

/// The text as XML writes it within an element: `<`, `>`, `&` and `"` by their names, and a space for what XML can't hold.
pub(crate) fn push_escaped(text: &mut String, more: &str) -> Result<(), AllocError> {
    for letter in more.chars() {
        push_letter(text, letter)?;
    }
    Ok(())
}

/// A letter as XML writes it.
fn push_letter(text: &mut String, letter: char) -> Result<(), AllocError> {
    match letter {
        '<' => text.push_str("&lt;"),
        '>' => text.push_str("&gt;"),
        '&' => text.push_str("&amp;"),
        '"' => text.push_str("&quot;"),
        '\u{fffe}' | '\u{ffff}' => text.push(' '),
        other => text.push(printable(other)),
    }
}

/// The text as JSON writes it within a string.
pub(crate) fn push_quoted(text: &mut String, more: &str) -> Result<(), AllocError> {
    for letter in more.chars() {
        match letter {
            '"' => text.push_str("\\\"")?,
            '\\' => text.push_str("\\\\")?,
            other => text.push(printable(other))?,
        }
    }
    Ok(())
}

/// The letter, or a space for a control character.
fn printable(letter: char) -> char {
    if letter < ' ' {
        return ' ';
    }
    letter
}
