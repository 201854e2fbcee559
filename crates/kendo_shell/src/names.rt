//! How the names of files are shown.

use go_text::Memory;
use std::alloc::Global;
use std::fmt;

/// The name of a file as a line shows it: as it is, or, if it has control characters, in double quotes and with escapes, as by Go's `%q`.
#[derive(Clone, Copy)]
pub struct Shown<'a>(pub &'a str);

impl fmt::Display for Shown<'_> {
    fn fmt<W: fmt::Write>(&self, f: &mut fmt::Formatter<W>) -> fmt::Result {
        if !self.0.chars().any(|letter| letter.is_control()) {
            return f.write_str(self.0);
        }
        f.write_char('"')?;
        for letter in self.0.chars() {
            write_letter(f, letter)?;
        }
        f.write_char('"')
    }
}

/// Writes a character as Go writes it between double quotes.
fn write_letter<W: fmt::Write>(f: &mut fmt::Formatter<W>, letter: char) -> fmt::Result {
    match letter {
        '"' => f.write_str("\\\""),
        '\\' => f.write_str("\\\\"),
        '\x07' => f.write_str("\\a"),
        '\x08' => f.write_str("\\b"),
        '\x0c' => f.write_str("\\f"),
        '\n' => f.write_str("\\n"),
        '\r' => f.write_str("\\r"),
        '\t' => f.write_str("\\t"),
        '\x0b' => f.write_str("\\v"),
        _ if letter.is_ascii_control() => write_code(f, "\\x", u32::from(letter), &[16, 1]),
        _ if letter.is_control() => write_code(f, "\\u", u32::from(letter), &[4_096, 256, 16, 1]),
        _ => f.write_char(letter),
    }
}

/// Writes a number after `start`, in hexadecimal digits that count `units`.
fn write_code<W: fmt::Write>(
    f: &mut fmt::Formatter<W>,
    start: &str,
    code: u32,
    units: &[u32],
) -> fmt::Result {
    f.write_str(start)?;
    for unit in units {
        let digit = code.checked_div(*unit).unwrap_or(0) % 16;
        f.write_char(char::from_digit(digit, 16).unwrap_or('0'))?;
    }
    Ok(())
}

/// The name of a file as lines show it.
///
/// Errors: `Memory`.
pub fn shown_name(alloc: Global, name: &str) -> Result<String, Memory> {
    let name = Shown(name);
    Ok(format!(in alloc; "{name}")?)
}
