//! Selects of which only some clauses can be done.

ghost use Rattle.std.specs.Prelude.{◌≡◌, IfOk, cond, option_map};
ghost use Rattle.pauses.specs.Selects.{alone, case_at, is_same_channel, keeps, masked_from, off, thinned};

use std::alloc::{AllocError, Global};
use word::request::Case;

/// Which clauses of a select stay as they are.
#[derive(Clone, Copy)]
pub(crate) enum Mask {
    /// The clause of this number, counted from 1.
    Alone(u64),
    /// That clause, and all others but those on this channel that also send, or also receive.
    Thinned(u64, Option<u32>, bool),
}

/// Whether both are one channel, and not nil.
fn is_same_channel(left: Option<u32>, right: Option<u32>) -> bool
    ensures { result ≡ is_same_channel left right }
{
    match (left, right) {
        (Some(left), Some(right)) => left == right,
        _ => false,
    }
}

impl Mask {
    /// Whether this clause, of this number, stays as it is.
    fn keeps(self, number: u64, case: &Case) -> bool
        ensures { result ≡ keeps self number case.now }
    {
        match self {
            Mask::Alone(clause) => number == clause,
            Mask::Thinned(clause, chan, sends) => {
                number == clause
                    || !(is_same_channel(case.chan, chan) && case.item.is_some() == sends)
            }
        }
    }

    /// This clause, of this number, on nil if it doesn't stay as it is.
    fn over(self, number: u64, mut case: Case) -> Case
        ensures { result ≡ cond (keeps self number case) case (off case) }
    {
        if !self.keeps(number, &case) {
            case.chan = None;
        }
        case
    }
}

/// The clauses, of which those that the mask doesn't keep are on nil.
#[tactic(auto, using(crate::proofs::Masks::masked_more))]
fn masked(alloc: Global, mask: Mask, cases: Vec<Case>) -> Result<Vec<Case>, AllocError>
    ensures { IfOk result (λ v. v.items ≡ masked_from mask 1 cases.items) }
{
    let mut all = Vec::new(alloc);
    let mut number = 1;
    for case in cases {
        all.push(mask.over(number, case))?;
        let Some(next) = number.checked_add(1) else {
            return Err(AllocError);
        };
        number = next;
    }
    Ok(all)
}

/// The clause of this number, on its own.
pub fn alone(alloc: Global, clause: u64, cases: Vec<Case>) -> Result<Vec<Case>, AllocError>
    ensures { IfOk result (λ v. v.items ≡ alone clause cases.items) }
{
    masked(alloc, Mask::Alone(clause), cases)
}

/// The clause of this number, counted from 1.
fn case_at(clause: u64, cases: &[Case]) -> Option<&Case>
    ensures { option_map (λ x. x.now) result ≡ case_at clause cases.now }
{
    let before = clause.checked_sub(1)?;
    cases.get(before as usize)
}

/// The clauses without those that are on the same channel in the same direction as the one of this number.
pub fn thinned(alloc: Global, clause: u64, cases: Vec<Case>) -> Result<Vec<Case>, AllocError>
    ensures { IfOk result (λ v. v.items ≡ thinned clause cases.items) }
{
    let mask = match case_at(clause, cases.as_slice()) {
        Some(case) => Mask::Thinned(clause, case.chan, case.item.is_some()),
        None => return Ok(cases),
    };
    masked(alloc, mask, cases)
}
