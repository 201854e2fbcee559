//! What a program is expected to do.

ghost use Rattle.std.specs.Prelude.{◌≡◌, IfErr, IfOk, map, option_map, string_bytes};
ghost use Rattle.expected_output.specs.Expecting.{AreSaid, IsEndOf, IsOfSaid, IsSaidIn, IsUnknownEnd, IsWhyNot, MatchUnknown, output_bytes};
ghost use Rattle.expected_output.specs.Saying.{said_end, said_output};
ghost use Rattle.expected_output.specs.declared.expectation.ExpectationError.TheVariants as errors;
ghost use Rattle.go_text.specs.Source.{bytes_of};
ghost use Rattle.go_text.specs.declared.fault.Fault.TheVariants as faults;

use crate::comments::comments_of;
use crate::ends::end_named;
use crate::said::{Said, SaidOutput};
use go_text::{Fault, Source};
use std::alloc::{AllocError, Global};
use word::end::End;

/// What a program is expected to print.
#[derive(Drop)]
pub struct ExpectedOutput {
    /// The text, with white space around it that doesn't count.
    pub text: String,
    /// Whether the order of its lines doesn't count.
    pub is_unordered: bool,
}

/// What a program is expected to do.
#[derive(Drop)]
pub struct Expectation {
    /// What it prints; `None` if no comment says it.
    pub output: Option<ExpectedOutput>,
    /// How it ends.
    pub end: End,
    /// Whether a comment says any of it.
    pub is_said: bool,
}

/// Why a program's comments don't say what is expected.
#[derive(Drop)]
pub enum ExpectationError {
    /// Out of memory; or, by the numbers 3 to 6, why the text has no tokens.
    Fault(Fault),
    /// A comment says that it ends in these words, which name no end.
    UnknownEnd(String),
}

impl From<Fault> for ExpectationError {
    ghost from_gives = { λ fault error. error ≡ errors.Fault fault };

    fn from(fault: Fault) -> ExpectationError {
        ExpectationError::Fault(fault)
    }
}

impl From<AllocError> for ExpectationError {
    ghost from_gives = { λ _ error. error ≡ errors.Fault faults.Memory };

    fn from(_error: AllocError) -> ExpectationError {
        ExpectationError::Fault(Fault::Memory)
    }
}

impl Expectation {
    /// What the comments of a program say: of its output the last one that speaks of it, and likewise of its end, which is
    /// `Finished` if none does.
    pub fn of(alloc: Global, source: &Source) -> Result<Expectation, ExpectationError>
        ensures said { IfOk result (IsSaidIn (bytes_of source.now)) }
        ensures why { IfErr result (IsWhyNot (bytes_of source.now)) }
    {
        let comments = comments_of(alloc, source)?;
        expectation_of(alloc, all_said(comments.as_slice()))
    }
}

/// The expectation of what comments say.
fn expectation_of(alloc: Global, said: Said<'_>) -> Result<Expectation, ExpectationError>
    ensures said { IfOk result (IsOfSaid (said_output said.entry.output) (said_end said.entry.end)) }
    ensures unknown { IfErr result (IsUnknownEnd (said_end said.entry.end)) }
{
    let is_said = said.output.is_some() || said.end.is_some();
    let end = expected_end(alloc, said.end)?;
    let output = expected_output(alloc, said.output)?;
    Ok(Expectation {
        output,
        end,
        is_said,
    })
}

/// What comments say, each as the last one that does.
fn all_said(comments: &[String]) -> Said<'_>
    ensures { AreSaid (map string_bytes comments.entry.now) (said_output result.output) (said_end result.end) }
{
    let mut output = None;
    let mut end = None;
    for comment in comments {
        let said = Said::by(comment.as_str());
        output = said.output.or(output);
        end = said.end.or(end);
    }
    Said { output, end }
}

/// The end of these words; `Finished` without words.
fn expected_end(alloc: Global, words: Option<&str>) -> Result<End, ExpectationError>
    ensures called { IfOk result (IsEndOf (said_end words.entry)) }
    ensures unknown { IfErr result (IsUnknownEnd (said_end words.entry)) }
{
    let Some(words) = words else {
        return Ok(End::Finished);
    };
    match end_named(words) {
        Some(end) => Ok(end),
        None => Err(unknown_end(alloc, words)),
    }
}

/// That these words name no end, or out of memory.
fn unknown_end(alloc: Global, words: &str) -> ExpectationError
    ensures { MatchUnknown result words.now }
{
    match String::from_str(alloc, words) {
        Ok(words) => ExpectationError::UnknownEnd(words),
        Err(_) => ExpectationError::Fault(Fault::Memory),
    }
}

/// A copy of what a comment says of the output, if it says that.
fn expected_output(
    alloc: Global,
    said: Option<SaidOutput<'_>>,
) -> Result<Option<ExpectedOutput>, AllocError>
    ensures { IfOk result (λ output. option_map output_bytes output ≡ said_output said.entry) }
{
    match said {
        Some(said) => Ok(Some(ExpectedOutput {
            text: String::from_str(alloc, said.text)?,
            is_unordered: said.is_unordered,
        })),
        None => Ok(None),
    }
}
