//! Goroutines at their beginning.

ghost use Rattle.std.specs.Prelude.{◌≡◌, IfOk, codes, drop, slice_get, take};
ghost use Rattle.syntax.specs.View.{file_of, function_of};
ghost use Rattle.type_table.specs.Visible.{types_of};
ghost use Rattle.meaning.specs.Expressions.{number_of};
ghost use Rattle.meaning.specs.Source.{begun, functions, globals, parameters_of, split};
ghost use Rattle.reference.specs.Calls.{parameters_in};
ghost use Rattle.reference_task.specs.Tasks.{frames_of};
ghost use Rattle.reference_scope.specs.Parts.{values_of};

use crate::call::{Parameter, entered, function_of, parameters};
use reference_scope::part::words_in;
use reference_scope::words::with_first;
use reference_task::program::Program;
use reference_task::task::Frame;
use std::alloc::{AllocError, Global};
use syntax::FunctionNode;
use word::value::Word;

/// The first `count` words, and the rest.
fn parted(words: &[Word], count: usize) -> (&[Word], &[Word])
    ensures first { result.0.now ≡ take count words.now }
    ensures rest { result.1.now ≡ drop count words.now }
{
    if count < words.len() {
        words.split_at(count)
    } else {
        (words, &[])
    }
}

/// Words as the values of these parameters.
fn split<'a, 't>(
    alloc: Global,
    program: &'a Program<'t>,
    parameters: &'a [Parameter<'t>],
    words: &'a [Word],
) -> Result<Vec<Vec<Word>>, AllocError>
    ensures { IfOk result (λ v. values_of v.items ≡ split (file_of program.now.file.now) (parameters_in (types_of program.now.table) parameters.now) words.now) }
{
    let Some((parameter, parameters)) = parameters.split_first() else {
        return Ok(Vec::new(alloc));
    };
    let (value, words) = parted(words, words_in(&program.table, parameter.kind));
    let others = split(alloc, program, parameters, words)?;
    with_first(Vec::from_slice(alloc, value)?, others)
}

/// The values that a function's parameters take from the words of its arguments.
#[tactic(auto, using(crate::proofs::Functions::split_settled))]
fn arguments_of<'t>(
    alloc: Global,
    program: &Program<'t>,
    function: &'t FunctionNode,
    words: &[Word],
) -> Result<Vec<Vec<Word>>, AllocError>
    ensures { IfOk result (λ v. values_of v.items ≡ split (file_of program.now.file.now) (parameters_of (globals (file_of program.now.file.now)) (function_of function.now)) words.now) }
{
    let all = parameters(alloc, &program.table, function.parameters.as_slice())?;
    split(alloc, program, all.as_slice(), words)
}

/// A goroutine at the beginning of the function of this number.
pub(crate) fn begun<'t>(
    alloc: Global,
    program: &Program<'t>,
    number: u32,
    arguments: &[Word],
) -> Result<Vec<Frame<'t>>, AllocError>
    ensures { IfOk result (λ frames. frames_of (types_of program.now.table) frames.items ≡ begun (file_of program.now.file.now) (slice_get (functions (file_of program.now.file.now)) number) arguments.now) }
{
    let mut frames = Vec::new(alloc);
    let Some(function) = function_of(program, number as usize) else {
        return Ok(frames);
    };
    let values = arguments_of(alloc, program, function, arguments)?;
    frames.push(entered(alloc, program, function, values.as_slice())?)?;
    Ok(frames)
}

/// The number of the function that a program begins with.
pub(crate) fn main_number(program: &Program<'_>) -> u32
    ensures { result ≡ number_of (globals (file_of program.now.file.now)) (codes "main") }
{
    program.number_of(b"main")
}
