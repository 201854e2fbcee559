//! What the first lines of a plan's file say about the plan.

ghost use Rattle.std.specs.Prelude.{◌≡◌, IfOk, map, option_map};
ghost use Rattle.sha2.specs.Sha256.{sha256};
ghost use Rattle.pauses.specs.Headers.{after, checksum_in, header_from, header_in, header_in_lines, header_of, meaning_of, unescaped, unescaped_from};

use crate::checksum::Checksum;
use crate::number::pieces;
use crate::reading::TITLE;
use go_text::{Memory, is_word};
use hex::FromHex;
use std::alloc::Global;

/// The number of bytes in ` sha256 ` and the 64 hexadecimal digits after it.
const TAIL: usize = 72;

/// Which program a plan is for, and to which end it leads.
#[derive(Drop)]
pub struct PlanHeader {
    /// The path of the program, as it was typed.
    pub path: Vec<u8>,
    pub checksum: Checksum,
    /// The end, as reports print it: `deadlock`.
    pub end: Vec<u8>,
}

impl PlanHeader {
    /// The header of a plan for the program with this source, which leads to this end.
    ///
    /// Errors: `Memory`.
    pub fn new(alloc: Global, path: &[u8], source: &[u8], end: &[u8]) -> Result<PlanHeader, Memory>
        ensures path { IfOk result (λ h. h.path.items ≡ path.now) }
        ensures checksum { IfOk result (λ h. h.checksum.0 ≡ sha256 source.now) }
        ensures end { IfOk result (λ h. h.end.items ≡ end.now) }
    {
        Ok(PlanHeader {
            path: Vec::from_slice(alloc, path)?,
            checksum: Checksum::of(source),
            end: Vec::from_slice(alloc, end)?,
        })
    }

    /// The header with which a file begins: its second line names a program, and its third an end. `None` if it begins otherwise.
    ///
    /// Errors: `Memory`.
    pub fn of(alloc: Global, bytes: &[u8]) -> Result<Option<PlanHeader>, Memory>
        ensures { IfOk result (λ found. option_map header_of found ≡ header_in bytes.now) }
    {
        let lines = pieces(alloc, bytes, b'\n')?;
        header_in_lines(alloc, lines.as_slice())
    }
}

/// The header that the second and the third of these lines are.
fn header_in_lines(alloc: Global, lines: &[&[u8]]) -> Result<Option<PlanHeader>, Memory>
    ensures { IfOk result (λ found. option_map header_of found ≡ header_in_lines (map (λ l. l.now) lines.now)) }
{
    let [title, program, end, ..] = lines else {
        return Ok(None);
    };
    if is_word(title, TITLE) {
        header_from(alloc, program, end)
    } else {
        Ok(None)
    }
}

/// The header that these two lines are.
fn header_from(alloc: Global, program: &[u8], end: &[u8]) -> Result<Option<PlanHeader>, Memory>
    ensures { IfOk result (λ found. option_map header_of found ≡ header_from program.now end.now) }
{
    let (Some(program), Some(end)) = (after(program, b"# program: "), after(end, b"# end: ")) else {
        return Ok(None);
    };
    let (path, tail) = program.split_at(program.len().saturating_sub(TAIL));
    let (Some(path), Some(checksum), Some(end)) = (
        unescaped(alloc, path)?,
        checksum_in(tail),
        unescaped(alloc, end)?,
    ) else {
        return Ok(None);
    };
    Ok(Some(PlanHeader {
        path,
        checksum,
        end,
    }))
}

/// What follows this word, if the line begins with it.
fn after<'a>(line: &'a [u8], word: &[u8]) -> Option<&'a [u8]>
    ensures { option_map (λ rest. rest.now) result ≡ after word.now line.now }
{
    if line.starts_with(word) {
        Some(&line[word.len()..])
    } else {
        None
    }
}

/// The checksum that ` sha256 ` and 64 hexadecimal digits are.
fn checksum_in(tail: &[u8]) -> Option<Checksum>
    ensures { option_map (λ sum. sum.0) result ≡ checksum_in tail.now }
{
    let digits = after(tail, b" sha256 ")?;
    match <[u8; 32] as FromHex>::from_hex(digits) {
        Ok(sum) => Some(Checksum(sum)),
        Err(_) => None,
    }
}

/// The byte that this one means after a backslash.
fn meaning_of(byte: u8) -> Option<u8>
    ensures { result ≡ meaning_of byte }
{
    match byte {
        b'n' => Some(b'\n'),
        b'\\' => Some(b'\\'),
        _ => None,
    }
}

/// The bytes that were written with escapes.
fn unescaped(alloc: Global, bytes: &[u8]) -> Result<Option<Vec<u8>>, Memory>
    ensures { IfOk result (λ found. option_map (λ v. v.items) found ≡ unescaped bytes.now) }
{
    let mut text = Vec::new(alloc);
    let mut is_escape = false;
    for byte in bytes {
        let meant = if is_escape {
            meaning_of(*byte)
        } else {
            Some(*byte)
        };
        let Some(meant) = meant else {
            return Ok(None);
        };
        is_escape = !is_escape && *byte == b'\\';
        if !is_escape {
            text.push(meant)?;
        }
    }
    if is_escape { Ok(None) } else { Ok(Some(text)) }
}
