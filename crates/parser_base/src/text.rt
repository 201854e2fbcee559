//! What strings stand for.

ghost use Rattle.std.specs.Prelude.{◌≡◌, false, IfOk, IfErr};
ghost use Rattle.parser_base.specs.declared.fault.ParseFault.TheVariants as faults;
ghost use Rattle.parser_base.specs.Lexemes.{escape, text_after, text};

use crate::fault::ParseFault;
use std::alloc::Global;

/// The byte that a letter after a backslash stands for: `n` for a newline, `t` for a tab, and others for themselves.
fn escape(letter: u8) -> u8
    ensures { result ≡ escape letter }
{
    match letter {
        b'n' => b'\n',
        b't' => b'\t',
        other => other,
    }
}

/// The bytes that a string in quotes stands for.
pub fn text(alloc: Global, quoted: &[u8]) -> Result<Vec<u8>, ParseFault>
    ensures ok { IfOk result (λ bytes. bytes.items ≡ text quoted.now) }
    ensures err { IfErr result (λ e. e ≡ faults.Memory) }
{
    let mut bytes = Vec::new(alloc);
    let Some((_, inside)) = quoted.split_first() else {
        return Ok(bytes);
    };
    let mut escaped = false;
    for byte in inside {
        if escaped {
            bytes.push(escape(*byte))?;
            escaped = false;
        } else if *byte == b'"' {
            return Ok(bytes);
        } else if *byte == b'\\' {
            escaped = true;
        } else {
            bytes.push(*byte)?;
        }
    }
    Ok(bytes)
}
