//! The new comments of a program.

ghost use Rattle.std.specs.Prelude.{◌≡◌, IfOk, IfSome, map, true};
ghost use Rattle.go_text.specs.Source.{bytes_of};
ghost use Rattle.output_update.specs.Tokens.{HaveSameTokens, piece_of, spelt_in};

use crate::groups::{Group, groups_of};
use crate::wording::Comment;
use diagnostic_words::words::Words;
use expected_output::{Expectation, ExpectationError};
use go_text::{Fault, Memory, Source, Span};
use scanner::{Token, scan};
use std::alloc::Global;
use word::end::End;

/// The program with comments that say that it ends so and prints this. The last comment that speaks of the output, or of the end, is
/// rewritten where it stands; if none does, one is added after the last line. All else stays as it is, byte for byte. A comment that says
/// only how the program ends says nothing of its output afterwards either. `None` if the output is no text, or if a comment that is
/// rewritten stands before a token of its line.
///
/// That the new comments are read so is for the caller to see: some outputs, as one with spaces at the end of a line, can't be said.
///
/// Errors: `Memory`; by the numbers 3 to 6 why the text has no tokens.
pub fn rewritten(
    alloc: Global,
    source: &Source,
    end: End,
    output: &[u8],
) -> Result<Option<Vec<u8>>, Fault>
    ensures { IfOk result (λ text. IfSome text (λ text. HaveSameTokens text.items (bytes_of source.now))) }
{
    let Ok(output) = str::from_utf8(output) else {
        return Ok(None);
    };
    let speaking = Speaking::of(alloc, source)?;
    let mut said = Words::new(alloc);
    speaking.push_rewritten(&mut said, alloc, source.as_str(), end, output);
    let text = said.into_bytes().map_err(|_| Fault::Memory)?;
    if has_tokens_of(alloc, text.as_slice(), source)? {
        Ok(Some(text))
    } else {
        Ok(None)
    }
}

/// What a comment speaks of.
#[derive(Clone, Copy, PartialEq, Eq)]
enum Topic {
    Nothing,
    /// The output, and maybe the end.
    Output { is_unordered: bool },
    /// The end alone.
    End,
}

/// The comments that count.
#[derive(Clone, Copy)]
struct Speaking {
    /// The last one that speaks of the output, and whether the order of its lines doesn't count.
    output: Option<(Group, bool)>,
    /// The last one that speaks of the end alone.
    end: Option<Group>,
}

impl Speaking {
    /// Those of a program.
    fn of(alloc: Global, source: &Source) -> Result<Speaking, Fault> {
        let groups = groups_of(alloc, source)?;
        let mut speaking = Speaking {
            output: None,
            end: None,
        };
        for group in groups.iter() {
            let text = source.as_str().get(group.from..group.to).unwrap_or("");
            match topic_of(alloc, text)? {
                Topic::Nothing => {}
                Topic::Output { is_unordered } => speaking.output = Some((*group, is_unordered)),
                Topic::End => speaking.end = Some(*group),
            }
        }
        Ok(speaking)
    }

    /// Appends the text of the program with new comments.
    fn push_rewritten(self, said: &mut Words, alloc: Global, text: &str, end: End, output: &str) {
        let said_end = if self.end.is_none() && end != End::Finished {
            Some(end)
        } else {
            None
        };
        let for_output = self.output.map(|(group, is_unordered)| {
            let comment = Comment {
                output: Some(output),
                is_unordered,
                end: said_end,
            };
            (group, comment)
        });
        let for_end = self.end.map(|group| {
            let comment = Comment {
                output: None,
                is_unordered: false,
                end: Some(end),
            };
            (group, comment)
        });
        match (for_output, for_end) {
            (None, None) => {
                let comment = Comment {
                    output: Some(output),
                    is_unordered: false,
                    end: said_end,
                };
                push_after(said, alloc, text, comment);
            }
            (Some(one), None) | (None, Some(one)) => {
                let left = push_in_place(said, alloc, text, 0, one);
                said.text(text.get(left..).unwrap_or(""));
            }
            (Some(one), Some(other)) => {
                let (first, second) = if one.0.from <= other.0.from {
                    (one, other)
                } else {
                    (other, one)
                };
                let left = push_in_place(said, alloc, text, 0, first);
                let left = push_in_place(said, alloc, text, left, second);
                said.text(text.get(left..).unwrap_or(""));
            }
        }
    }
}

/// What the text of a comment speaks of.
fn topic_of(alloc: Global, text: &str) -> Result<Topic, Memory> {
    let Ok(source) = Source::new(Vec::from_slice(alloc, text.as_bytes())?) else {
        return Ok(Topic::Nothing);
    };
    match Expectation::of(alloc, &source) {
        Ok(expectation) => Ok(match expectation.output {
            Some(output) => Topic::Output {
                is_unordered: output.is_unordered,
            },
            None if expectation.is_said => Topic::End,
            None => Topic::Nothing,
        }),
        Err(ExpectationError::Fault(Fault::Memory)) => Err(Memory),
        Err(ExpectationError::Fault(_) | ExpectationError::UnknownEnd(_)) => Ok(Topic::Nothing),
    }
}

/// Appends the text from `from` to a comment, and that comment rewritten. Returns where the text goes on.
fn push_in_place(
    said: &mut Words,
    alloc: Global,
    text: &str,
    from: usize,
    (group, comment): (Group, Comment<'_>),
) -> usize {
    said.text(text.get(from..group.from).unwrap_or(""));
    comment.push(said, alloc, indent_of(text, group.from));
    group.to
}

/// Appends the text, and then a comment below an empty line.
fn push_after(said: &mut Words, alloc: Global, text: &str, comment: Comment<'_>) {
    said.text(text);
    said.text(if text.ends_with('\n') { "\n" } else { "\n\n" });
    comment.push(said, alloc, "");
    said.text("\n");
}

/// The white space that stands alone before an index on its line; empty if a token does too.
fn indent_of(text: &str, at: usize) -> &str {
    let before = text.get(..at).unwrap_or("");
    let line = match before.rsplit_once('\n') {
        Some((_lines, line)) => line,
        None => before,
    };
    if line.trim().is_empty() { line } else { "" }
}

/// Whether the text has the same tokens as the program: comments and white space apart, it is the same.
fn has_tokens_of(alloc: Global, text: &[u8], program: &Source) -> Result<bool, Fault>
    ensures { IfOk result (λ is_same. is_same ≡ true → HaveSameTokens text.now (bytes_of program.now)) }
{
    let text = match Source::new(Vec::from_slice(alloc, text)?) {
        Ok(text) => text,
        Err(_) => return Ok(false),
    };
    let tokens = match scan(alloc, &text) {
        Ok(tokens) => tokens,
        Err(Fault::Memory) => return Err(Fault::Memory),
        Err(_) => return Ok(false),
    };
    let wanted = scan(alloc, program)?;
    let (text, program) = (text.as_bytes(), program.as_bytes());
    Ok(are_same(text, tokens.as_slice(), program, wanted.as_slice()))
}

/// Whether the tokens of a text are those of another one, by kinds and bytes.
fn are_same(text: &[u8], tokens: &[Token], other: &[u8], wanted: &[Token]) -> bool
    ensures { result ≡ true → map (spelt_in text.now) tokens.now ≡ map (spelt_in other.now) wanted.now }
{
    let mut tokens = tokens;
    let mut wanted = wanted;
    'tokens: while let Some((token, more)) = tokens.split_first() {
        let Some((want, others)) = wanted.split_first() else {
            return false;
        };
        if !is_same(text, token, other, want) {
            return false;
        }
        tokens = more;
        wanted = others;
    }
    wanted.is_empty()
}

/// Whether a token of a text is that of another one, by its kind and its bytes.
fn is_same(text: &[u8], token: &Token, other: &[u8], wanted: &Token) -> bool
    ensures { result ≡ true → spelt_in text.now token.now ≡ spelt_in other.now wanted.now }
{
    token.kind == wanted.kind && piece(text, token.span) == piece(other, wanted.span)
}

/// The bytes of a text at a span; those that the text has, if the span reaches beyond its end.
fn piece(text: &[u8], span: Span) -> &[u8]
    ensures { result.now ≡ piece_of text.now span }
{
    let rest = &text[(span.from as usize).min(text.len())..];
    let count = span.to.saturating_sub(span.from) as usize;
    &rest[..count.min(rest.len())]
}
