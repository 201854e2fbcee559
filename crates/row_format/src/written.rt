//! Sources as they are written in tables and in `.gen` files.

use crate::row_error::RowError;
use std::alloc::Global;

/// The bytes that a written source stands for: `\n`, `\t` and `\\`, `\xHH` for one byte, `\N<PIECE>` for `N` times the piece
/// as it is, and all else for itself.
pub fn bytes_of(alloc: Global, written: &str) -> Result<Vec<u8>, RowError> {
    let mut bytes = Vec::new(alloc);
    let mut is_escape = false;
    for piece in written.split('\\') {
        if !is_escape {
            bytes.extend_from_slice(piece.as_bytes())?;
            is_escape = true;
        } else if piece.is_empty() {
            bytes.push(b'\\')?;
            is_escape = false;
        } else {
            let rest = escape(&mut bytes, piece)?;
            bytes.extend_from_slice(rest.as_bytes())?;
        }
    }
    // Each piece but the first comes after a backslash: the last one may not be its escape.
    if is_escape {
        Ok(bytes)
    } else {
        Err(RowError::Escape)
    }
}

/// Takes the escape with which a piece begins, without its backslash, and returns what comes after it.
fn escape<'a>(bytes: &mut Vec<u8>, piece: &'a str) -> Result<&'a str, RowError> {
    if let Some(rest) = piece.strip_prefix('n') {
        bytes.push(b'\n')?;
        return Ok(rest);
    }
    if let Some(rest) = piece.strip_prefix('t') {
        bytes.push(b'\t')?;
        return Ok(rest);
    }
    if let Some(rest) = piece.strip_prefix('x') {
        return hexadecimal(bytes, rest);
    }
    repeated(bytes, piece)
}

/// Takes two hexadecimal digits.
fn hexadecimal<'a>(bytes: &mut Vec<u8>, piece: &'a str) -> Result<&'a str, RowError> {
    let Some((digits, rest)) = piece.split_at_checked(2) else {
        return Err(RowError::Escape);
    };
    let Ok(byte) = u8::from_str_radix(digits, 16) else {
        return Err(RowError::Escape);
    };
    bytes.push(byte)?;
    Ok(rest)
}

/// Takes `N<PIECE>`.
fn repeated<'a>(bytes: &mut Vec<u8>, piece: &'a str) -> Result<&'a str, RowError> {
    let Some((count, rest)) = piece.split_once('<') else {
        return Err(RowError::Escape);
    };
    let (Ok(count), Some((piece, rest))) = (count.parse::<u32>(), rest.split_once('>')) else {
        return Err(RowError::Escape);
    };
    for _ in 0..count {
        bytes.extend_from_slice(piece.as_bytes())?;
    }
    Ok(rest)
}
