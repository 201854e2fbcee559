//! The comments of a program.

ghost use Rattle.std.specs.Prelude.{◌≡◌, ◌⊎◌, ◌≤◌, ◌==◌, ◌++◌, ℕ, Err, IfErr, IfOk, List, MatchOption, OnOk, drop, length, map, string_bytes};
ghost use Rattle.std.specs.List.{before_first, position_or_len};
ghost use Rattle.go_text.specs.Source.{bytes_of};
ghost use Rattle.scanner.specs.Tokens.{tokens_of};
ghost use Rattle.expected_output.specs.Comments.{AreBetween, AreComments, AreGroups, IsCommented, IsGap, HasComments, IsComment, IsFirstComment, IsFirstGroup, comment_text, group_size, group_text, lines_before, most_lines, said_in, unspaced};

use crate::lines::lines_in;
use go_text::{Fault, Source};
use scanner::{Token, scan};
use std::alloc::{AllocError, Global};

/// The comments of a program in order, each without its marks and the white space at the ends of its lines, of which each ends in a
/// newline. Comments that follow one another without an empty line between them are one; one that stands on the line of a token
/// goes on on that line alone. (Go: `ast.CommentGroup`.)
///
/// Errors: `Memory`; by the numbers 3 to 6 why the text has no tokens.
pub(crate) fn comments_of(alloc: Global, source: &Source) -> Result<Vec<String>, Fault>
    ensures comments { IfOk result (λ comments. IsCommented (bytes_of source.now) (map string_bytes comments.items)) }
    ensures fault { IfErr result (λ fault. (fault ≡ Fault.Memory) ⊎ (tokens_of (bytes_of source.now) ≡ Err fault)) }
{
    let tokens = scan(alloc, source)?;
    let found = comments_around(alloc, source.as_str(), tokens.as_slice())?;
    Ok(found)
}

/// The comments of a text with these tokens.
fn comments_around(alloc: Global, text: &str, tokens: &[Token]) -> Result<Vec<String>, AllocError>
    ensures { IfOk result (λ comments. AreComments text.now 0 tokens.now (map string_bytes comments.items)) }
{
    let mut found = Vec::new(alloc);
    let mut end = 0;
    for token in tokens {
        let mut groups = comments_between(alloc, text, end, token.span.from as usize)?;
        found.append(&mut groups)?;
        end = token.span.to as usize;
    }
    let mut groups = comments_between(alloc, text, end, text.len())?;
    found.append(&mut groups)?;
    Ok(found)
}

/// The comments between two tokens, of which one ends at `from` and one begins at `to`.
fn comments_between(
    alloc: Global,
    text: &str,
    from: usize,
    to: usize,
) -> Result<Vec<String>, AllocError>
    ensures { IfOk result (λ comments. AreBetween text.now from to (map string_bytes comments.items)) }
{
    let comments = comments_in(alloc, gap(text, from, to))?;
    groups_of(alloc, comments.as_slice(), from > 0)
}

/// The bytes from one token's end to the next one's beginning; none if they would cut a character.
fn gap(text: &str, from: usize, to: usize) -> &str
    ensures { IsGap text.entry.now from to result.now }
{
    match text.get(from..to) {
        Some(gap) => gap,
        None => "",
    }
}

/// The comments of a gap, which has only comments and white space.
fn comments_in<'s>(alloc: Global, gap: &'s str) -> Result<Vec<Comment<'s>>, AllocError>
    ensures { IfOk result (λ comments. HasComments gap.entry.now (said_in comments.items)) }
{
    let mut found = Vec::new(alloc);
    let mut rest = gap;
    while let Some(comment) = Comment::first(rest) {
        found.push(comment)?;
        rest = comment.rest;
    }
    Ok(found)
}

/// The texts of the groups of comments between two tokens. `follows_token` says whether a token stands before them.
fn groups_of(
    alloc: Global,
    comments: &[Comment<'_>],
    follows_token: bool,
) -> Result<Vec<String>, AllocError>
    ensures { IfOk result (λ groups. AreGroups follows_token (said_in comments.now) (map string_bytes groups.items)) }
{
    let mut groups = Vec::new(alloc);
    let mut at = 0;
    let mut follows = follows_token;
    while at < comments.len() {
        let (group, size) = first_group(alloc, &comments[at..], follows)?;
        groups.push(group)?;
        at += size;
        follows = false;
    }
    Ok(groups)
}

/// The text of the first group of comments, and how many comments that is.
fn first_group(
    alloc: Global,
    comments: &[Comment<'_>],
    follows_token: bool,
) -> Result<(String, usize), AllocError>
    requires { 1 ≤ length comments.now }
    ensures group { IfOk result (λ found. IsFirstGroup follows_token (said_in comments.now) (string_bytes found.0) found.1) }
    ensures size { IfOk result (λ found. (1 ≤ found.1) × (found.1 ≤ length comments.now)) }
{
    let mut group = String::new(alloc);
    let Some((first, more)) = comments.split_first() else {
        return Ok((group, 1));
    };
    let size = group_size(more, first.most_lines(follows_token));
    append(alloc, &mut group, first.body)?;
    append_all(alloc, &mut group, &more[..size])?;
    Ok((group, 1 + size))
}

/// How many of these comments go on with the one before them, if at most `most` lines may end between them.
fn group_size(comments: &[Comment<'_>], most: usize) -> usize
    ensures value { result ≡ group_size most (said_in comments.now) }
    ensures bound { result ≤ length comments.now }
{
    let mut size = 0;
    for comment in comments {
        if comment.lines_before() > most {
            break;
        }
        size += 1;
    }
    size
}

/// Appends the texts of comments to their group.
fn append_all(alloc: Global, group: &mut String, comments: &[Comment<'_>]) -> Result<(), AllocError>
    ensures { OnOk result (string_bytes group.new ≡ string_bytes group.old ++ group_text (said_in comments.now)) }
{
    for comment in comments {
        append(alloc, group, comment.body)?;
    }
    Ok(())
}

/// Appends the text of a comment to its group: its lines without the white space at their ends, each with its newline.
fn append(alloc: Global, group: &mut String, comment: &str) -> Result<(), AllocError>
    ensures { OnOk result (string_bytes group.new ≡ string_bytes group.old ++ comment_text comment.now) }
{
    let lines = lines_in(alloc, comment)?;
    for line in lines.iter() {
        group.push_str(line.trim_end())?;
        group.push('\n')?;
    }
    Ok(())
}

/// A comment in what stands between two tokens.
#[derive(Clone, Copy)]
struct Comment<'s> {
    /// The white space before it.
    before: &'s str,
    /// What stands between its marks; of a line comment without the space after the mark.
    body: &'s str,
    /// What stands after it.
    rest: &'s str,
}

impl<'s> Comment<'s> {
    /// The first comment of a gap, which has only comments and white space; `None` if it has none.
    fn first(gap: &'s str) -> Option<Comment<'s>>
        ensures { MatchOption result ((before : List ℕ) (body : List ℕ) (rest : List ℕ) → IsFirstComment gap.entry.now before body rest → ⊥) (λ comment. IsFirstComment gap.entry.now comment.before.now comment.body.now comment.rest.now) }
    {
        let Some((before, text)) = gap.split_once('/') else {
            return None;
        };
        match comment_after_slash(text) {
            Some((body, rest)) => Some(Comment { before, body, rest }),
            None => None,
        }
    }

    /// How many lines end in the white space before it.
    fn lines_before(self) -> usize
        ensures { result ≡ lines_before (self.entry.before.now, self.entry.body.now) }
    {
        let mut lines = 0;
        for byte in self.before.as_bytes() {
            if *byte == b'\n' {
                lines += 1;
            }
        }
        lines
    }

    /// How many lines may end between the comments of a group whose first one this is: none if it stands on the line of a token.
    fn most_lines(self, follows_token: bool) -> usize
        ensures { result ≡ most_lines follows_token (self.entry.before.now, self.entry.body.now) }
    {
        if follows_token && self.lines_before() == 0 {
            0
        } else {
            1
        }
    }
}

/// What a comment says that goes on here after its first slash, and what follows it; `None` if none does.
fn comment_after_slash(text: &str) -> Option<(&str, &str)>
    ensures { MatchOption result ((body : List ℕ) (rest : List ℕ) → IsComment text.entry.now body rest → ⊥) (λ parts. IsComment text.entry.now parts.0.now parts.1.now) }
{
    if let Some(line) = text.strip_prefix('/') {
        return Some(line_comment(line));
    }
    match text.strip_prefix('*') {
        Some(inner) => inner.split_once("*/"),
        None => None,
    }
}

/// What a line comment says, without a space at its front, and what stands from the end of its line on.
fn line_comment(line: &str) -> (&str, &str)
    ensures body { result.0.now ≡ unspaced (before_first (λ b. b == 10) line.entry.now) }
    ensures rest { result.1.now ≡ drop (position_or_len (λ b. b == 10) line.entry.now) line.entry.now }
{
    let (body, rest) = split_line(line);
    (unspaced(body), rest)
}

/// The first line of a text without its end, and what stands from that on.
fn split_line(text: &str) -> (&str, &str)
    ensures line { result.0.now ≡ before_first (λ b. b == 10) text.entry.now }
    ensures rest { result.1.now ≡ drop (position_or_len (λ b. b == 10) text.entry.now) text.entry.now }
{
    match text.find('\n') {
        Some(at) => text.split_at(at),
        None => (text, ""),
    }
}

/// A text without a space at its front.
fn unspaced(text: &str) -> &str
    ensures { result.now ≡ unspaced text.entry.now }
{
    match text.strip_prefix(' ') {
        Some(rest) => rest,
        None => text,
    }
}
