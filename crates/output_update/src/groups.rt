//! The comments of a program, and where they are.

use go_text::{Fault, Source};
use scanner::scan;
use std::alloc::{AllocError, Global};

/// A comment: several that follow one another without an empty line between them are one, as `expected_output` reads them.
#[derive(Clone, Copy)]
pub(crate) struct Group {
    /// The index of its first byte.
    pub from: usize,
    /// The index after its last byte.
    pub to: usize,
}

/// The comments of a program, in their order.
///
/// Errors: `Memory`; by the numbers 3 to 6 why the text has no tokens.
pub(crate) fn groups_of(alloc: Global, source: &Source) -> Result<Vec<Group>, Fault> {
    let tokens = scan(alloc, source)?;
    let text = source.as_str();
    let mut groups = Vec::new(alloc);
    let mut end = 0;
    for token in tokens.iter() {
        push_groups(&mut groups, text, end, token.span.from as usize)?;
        end = token.span.to as usize;
    }
    push_groups(&mut groups, text, end, text.len())?;
    Ok(groups)
}

/// Appends the comments between two tokens, of which one ends at `from` and one begins at `to`.
fn push_groups(
    groups: &mut Vec<Group>,
    text: &str,
    from: usize,
    to: usize,
) -> Result<(), AllocError> {
    let mut at = from;
    // How many lines may end before a comment that goes on with the group before it: none for the first, which begins one.
    let mut most: Option<usize> = None;
    for _ in from..to {
        let Some((before, comment)) = text.get(at..to).and_then(first_comment) else {
            break;
        };
        let start = at.saturating_add(before.len());
        let end = start.saturating_add(comment.len());
        let lines = before
            .as_bytes()
            .iter()
            .filter(|byte| **byte == b'\n')
            .count();
        match (most, groups.last_mut()) {
            (Some(most), Some(group)) if lines <= most => group.to = end,
            _ => {
                let is_on_line = most.is_none() && from > 0 && lines == 0;
                most = Some(if is_on_line { 0 } else { 1 });
                groups.push(Group {
                    from: start,
                    to: end,
                })?;
            }
        }
        at = end;
    }
    Ok(())
}

/// The first comment of a gap, which has only comments and white space, and what stands before it.
fn first_comment(gap: &str) -> Option<(&str, &str)> {
    let (before, rest) = gap.split_at_checked(gap.find('/')?)?;
    let length = if rest.starts_with("//") {
        let line = rest
            .split_once('\n')
            .map(|(line, _rest)| line)
            .unwrap_or(rest);
        line.strip_suffix('\r').unwrap_or(line).len()
    } else {
        rest.find("*/")?.saturating_add(2)
    };
    Some((before, rest.get(..length)?))
}
