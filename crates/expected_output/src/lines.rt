//! The lines of a text, in the order of their bytes.

ghost use Rattle.std.specs.Prelude.{◌≡◌, ◌==◌, IfOk, IsTrue, map};
ghost use Rattle.std.specs.List.{slice_split};
ghost use Rattle.std.specs.Cmp.Lexicographic.{slice_cmp};
ghost use Rattle.std.specs.List.Sorted.{IsPermutation, IsSortedByKey};
ghost use Rattle.std.specs.Ordering.{nat_cmp};

use std::alloc::{AllocError, Global};

/// The lines of a text, in the order of their bytes.
///
/// Errors: out of memory.
pub fn sorted_lines<'t>(alloc: Global, text: &'t str) -> Result<Vec<&'t str>, AllocError>
    ensures lines { IfOk result (λ lines. IsPermutation (slice_split (λ b. b == 10) text.entry.now) (map (λ line. line.now) lines.items)) }
    ensures sorted { IfOk result (λ lines. IsSortedByKey (λ line. line.now) (slice_cmp nat_cmp) lines.items) }
{
    let mut lines = lines_in(alloc, text)?;
    lines.sort()?;
    Ok(lines)
}

/// The lines of a text.
pub(crate) fn lines_in<'t>(alloc: Global, text: &'t str) -> Result<Vec<&'t str>, AllocError>
    ensures { IfOk result (λ lines. map (λ line. line.now) lines.items ≡ slice_split (λ b. b == 10) text.entry.now) }
{
    text.split('\n').collect(alloc)
}

/// Whether two lists of lines are the same.
pub(crate) fn are_same_lines(one: &[&str], other: &[&str]) -> bool
    ensures yes { IsTrue result → map (λ line. line.now) one.now ≡ map (λ line. line.now) other.now }
    ensures no { map (λ line. line.now) one.now ≡ map (λ line. line.now) other.now → IsTrue result }
{
    one == other
}
