//! Numbers and pieces of bytes.

ghost use Rattle.std.specs.Prelude.{◌≡◌, ◌==◌, ◌<◌, ◌^◌, IfOk, map};
ghost use Rattle.std.specs.List.{slice_split};
ghost use Rattle.pauses.specs.Files.{digits_after, is_digit, number};

use std::alloc::{AllocError, Global};

/// Numbers of a plan are below this one.
pub(crate) const BOUND: u64 = 1_000_000_000_000_000_000;

/// Whether the byte is a decimal digit.
fn is_digit(byte: u8) -> bool
    ensures { result ≡ is_digit byte }
{
    47 < byte && byte < 58
}

/// The number that these digits write after those of `before`.
fn digits_after(before: u64, digits: &[u8]) -> Option<u64>
    requires { before < 10 ^ 18 }
    ensures { result ≡ digits_after before digits.now }
{
    let Some((first, rest)) = digits.split_first() else {
        return Some(before);
    };
    if !is_digit(*first) {
        return None;
    }
    let value = 10 * before + u64::from(*first - 48);
    if value < BOUND {
        digits_after(value, rest)
    } else {
        None
    }
}

/// The number that these digits write: from 1 on, of at most 18 digits.
pub(crate) fn number(digits: &[u8]) -> Option<u64>
    ensures { result ≡ number digits.now }
{
    let (first, _) = digits.split_first()?;
    if *first == b'0' {
        return None;
    }
    digits_after(0, digits)
}

/// The pieces of some bytes between those that are `mark`.
pub(crate) fn pieces(alloc: Global, bytes: &[u8], mark: u8) -> Result<Vec<&[u8]>, AllocError>
    ensures { IfOk result (λ v. map (λ x. x.now) v.items ≡ slice_split (λ b. b == mark) bytes.now) }
{
    bytes.split(|byte| *byte == mark).collect(alloc)
}
