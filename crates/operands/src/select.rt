//! What the clauses of a select offer.

ghost use Rattle.std.specs.Prelude.{◌≡◌, ◌≤◌, [], IfOk, MatchOption, None, Some, drop, length, take};
ghost use Rattle.bytecode.specs.Machine.{case_of, cases_of};
ghost use Rattle.bytecode.specs.Rules.{IsVerified};

use crate::width::clause_width;
use bytecode::{Clause, Code};
use std::alloc::{AllocError, Global};
use word::limits::MAX_WORDS;
use word::request::Case;
use word::value::{Item, Word};

/// What a clause offers, by its operands; `None` if they are not of its kinds.
fn case(alloc: Global, clause: Clause, words: &[Word]) -> Option<Case>
    ensures { result ≡ case_of clause words.now }
{
    match clause {
        Clause::Receive(_, _) => match words {
            [Word::Chan(chan)] => Some(Case {
                chan: *chan,
                item: None,
            }),
            _ => None,
        },
        Clause::Send(_, _) => match words {
            [Word::Chan(chan), item @ ..] => {
                if item.len() > MAX_WORDS {
                    return None;
                }
                Some(Case {
                    chan: *chan,
                    item: Some(Item::new(alloc, item)),
                })
            }
            _ => None,
        },
    }
}

/// `count` words from `index` on, or as many as there are.
fn words_from(words: &[Word], index: usize, count: usize) -> &[Word]
    requires { index ≤ length words.now }
    ensures { result.now ≡ take count (drop index words.now) }
{
    let rest = &words[index..];
    if count < rest.len() {
        &rest[..count]
    } else {
        rest
    }
}

/// What the clauses offer, by their operands, in the buffer of the empty list `room`; `None` if these are not of their kinds.
pub fn cases(
    alloc: Global,
    code: &Code,
    clauses: &[Clause],
    words: &[Word],
    room: Vec<Case>,
) -> Result<Option<Vec<Case>>, AllocError>
    requires verified { IsVerified code.now }
    requires room { room.items ≡ [] }
    ensures { IfOk result (λ o. MatchOption o (cases_of code.now clauses.now words.now ≡ None) (λ cases. cases_of code.now clauses.now words.now ≡ Some cases.items)) }
{
    let mut made = room;
    made.reserve(clauses.len())?;
    let mut index = 0;
    for clause in clauses {
        let some = words_from(words, index, clause_width(code, *clause));
        match case(alloc, *clause, some) {
            None => return Ok(None),
            Some(one) => made.push(one)?,
        }
        index += some.len();
    }
    Ok(Some(made))
}
