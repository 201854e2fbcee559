//! Ways from `main` to goroutines, and how they travel.

ghost use Rattle.std.specs.Prelude.{◌≡◌, ◌++◌, [], IfOk, OnOk, map};
ghost use Rattle.pauses.specs.Paused.{known, number_word, way_after, way_in, way_to, way_words};
ghost use Rattle.pauses.specs.Plans.{pauses_of};
ghost use Rattle.pauses.specs.Views.{way_kept};

use crate::plan::Plan;
use go_text::Memory;
use std::alloc::Global;
use word::value::Word;

/// The way, if a way of the plan begins with it.
fn known(plan: &Plan, way: Vec<u64>) -> Option<Vec<u64>>
    ensures { way_kept result ≡ known (pauses_of plan.now.pauses.items) way.items }
{
    if plan.knows(way.as_slice()) {
        Some(way)
    } else {
        None
    }
}

/// The way of the goroutine of this number that a goroutine of this way starts, if a way of the plan begins with it.
pub fn way_to(
    alloc: Global,
    plan: &Plan,
    way: &Option<Vec<u64>>,
    number: u64,
) -> Result<Option<Vec<u64>>, Memory>
    ensures { IfOk result (λ child. way_kept child ≡ way_to (pauses_of plan.now.pauses.items) (way_kept way.now) number) }
{
    let Some(way) = way else {
        return Ok(None);
    };
    let mut child = Vec::from_slice(alloc, way.as_slice())?;
    child.push(number)?;
    Ok(known(plan, child))
}

/// The way as words, and these arguments after it.
pub fn with_way(
    alloc: Global,
    way: &Option<Vec<u64>>,
    arguments: &[Word],
) -> Result<Vec<Word>, Memory>
    ensures { IfOk result (λ v. v.items ≡ way_words (way_kept way.now) ++ arguments.now) }
{
    let mut words = Vec::new(alloc);
    match way {
        None => words.push(Word::Bool(false))?,
        Some(way) => {
            push_numbers(&mut words, way.as_slice())?;
            words.push(Word::Bool(true))?;
        }
    }
    words.extend_from_slice(arguments)?;
    Ok(words)
}

/// Appends numbers as words.
fn push_numbers(words: &mut Vec<Word>, numbers: &[u64]) -> Result<(), Memory>
    ensures { OnOk result (words.new.items ≡ words.old.items ++ map number_word numbers.now) }
{
    for number in numbers {
        let Ok(word) = i64::try_from(*number) else {
            return Err(Memory);
        };
        words.push(Word::Int(word))?;
    }
    Ok(())
}

/// The way with which these words begin, and the arguments after it. Goroutine 1 begins without words.
pub fn way_in(alloc: Global, words: &[Word]) -> Result<(Option<Vec<u64>>, &[Word]), Memory>
    ensures { IfOk result (λ found. (way_kept found.0, found.1.now) ≡ way_in words.now) }
{
    if words.is_empty() {
        return Ok((Some(Vec::from_slice(alloc, &[1])?), words));
    }
    way_after(alloc, words)
}

/// The way with which these words begin, and the arguments after it.
fn way_after(alloc: Global, words: &[Word]) -> Result<(Option<Vec<u64>>, &[Word]), Memory>
    ensures { IfOk result (λ found. (way_kept found.0, found.1.now) ≡ way_after [] words.now) }
{
    let mut way = Vec::new(alloc);
    let mut left = words;
    while let Some((first, rest)) = left.split_first() {
        match *first {
            Word::Bool(true) => return Ok((Some(way), rest)),
            Word::Bool(false) => return Ok((None, rest)),
            Word::Int(number) if number >= 0 => way.push(number as u64)?,
            _ => return Ok((None, left)),
        }
        left = rest;
    }
    Ok((None, left))
}
