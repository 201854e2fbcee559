//! The kinds on the operand stack at each instruction of a function, path by path.

ghost use Rattle.std.specs.Prelude.{◌≡◌, ◌+◌, ℕ, ◌<◌, IfOk, length, vec_len, slice_get, Some};
ghost use Rattle.bytecode.specs.declared.instr.Instr.{Instr};
ghost use Rattle.bytecode.specs.Effects.{count, wants};
ghost use Rattle.bytecode.specs.Rules.{Named, Inside, Path, IsHeaded};
ghost use Rattle.verifier.specs.Tables.{AreReached, Merged, Led, Followed, Visited, Steps, LeadsOn, Swept, Infers, Reached, Judged, judged_of, onward_of};

use bytecode::{Code, Function, Instr, Rule, WordKind, same_kinds};
use std::alloc::{AllocError, Global};
use verifier_base::{broken_rule, first_broken, following, operands_at, way, way_count};

/// The outcome of a way to an instruction.
#[derive(Clone, Copy)]
pub enum Merge {
    Same,
    New,
    Differs,
}

/// Enters the kinds at a pc that has none.
fn enter_kinds(table: &mut Vec<Option<Vec<WordKind>>>, to: usize, kinds: Vec<WordKind>) -> Merge
    requires { to < vec_len table.old }
    ensures len { vec_len table.new ≡ vec_len table.old }
    ensures merged { Merged result table.old.items table.new.items to kinds.items }
{
    if let Some(js) = &table[to] {
        return if same_kinds(js, &kinds) {
            Merge::Same
        } else {
            Merge::Differs
        };
    }
    table[to] = Some(kinds);
    Merge::New
}

/// Enters the kinds with which a path leads to a pc.
#[tactic(auto, using(crate::proofs::Entries::led))]
fn lead(
    code: &Code,
    f: &Function,
    table: &mut Vec<Option<Vec<WordKind>>>,
    to: usize,
    kinds: Vec<WordKind>,
) -> Merge
    requires there { to < vec_len table.old }
    requires path { (n : ℕ) × Path code.now f.now n to kinds.items }
    requires reached { Reached code.now f.now table.old.items }
    ensures len { vec_len table.new ≡ vec_len table.old }
    ensures reached { Reached code.now f.now table.new.items }
    ensures there { to < length table.old.items }
    ensures led { Led result code.now f.now table.old.items table.new.items to kinds.items }
{
    let _ = code;
    let _ = f;
    enter_kinds(table, to, kinds)
}

/// The outcome of a look at an instruction.
#[derive(Clone, Copy)]
pub enum Visit {
    Settles,
    Grows,
    Unfit(Rule),
    Parts(usize),
}

/// Compares the instruction at a pc with the kinds there: `Leads` has both, and the index of its first operand.
#[derive(Drop)]
pub enum Transfer {
    Dead,
    Unfits(Rule),
    Leads(Instr, Vec<WordKind>, usize),
}

/// Fetches and compares the instruction at `place` with the kinds there.
fn step_at(
    alloc: Global,
    code: &Code,
    f: &Function,
    table: &[Option<Vec<WordKind>>],
    place: usize,
) -> Result<Transfer, AllocError>
    requires there { place < length f.now.instrs }
    requires named { (i : Instr) → slice_get f.now.instrs place ≡ Some i → Named code.now f.now i × Inside f.now place i }
    requires len { length table.now ≡ length f.now.instrs }
    requires reached { Reached code.now f.now table.now }
    ensures ok { IfOk result (λ s. Steps s code.now f.now table.now place) }
{
    match &table[place] {
        None => Ok(Transfer::Dead),
        Some(ks) => {
            let i = f.instrs()[place];
            match operands_at(alloc, code, f, i, ks)? {
                None => Ok(Transfer::Unfits(broken_rule(i))),
                Some(at) => Ok(Transfer::Leads(i, Vec::from_slice(alloc, ks)?, at)),
            }
        }
    }
}

/// The outcome of one way of an instruction.
#[derive(Clone, Copy)]
pub enum Onward {
    /// The pc to which it leads has these kinds, and no pc that this pass has looked at has new ones.
    Kept,
    /// A pc that this pass has looked at has kinds now.
    Grown,
    /// This pc, to which it leads, has other kinds.
    Apart(usize),
}

/// The outcome of a way from `place` to `to`. If `to` lies after `place` it is looked at in the same pass.
fn arrive(merge: Merge, place: usize, to: usize) -> Onward
    ensures { result ≡ onward_of merge place to }
{
    match merge {
        Merge::Same => Onward::Kept,
        Merge::New => {
            if place < to {
                Onward::Kept
            } else {
                Onward::Grown
            }
        }
        Merge::Differs => Onward::Apart(to),
    }
}

/// Follows the way of this number.
fn follow(
    alloc: Global,
    code: &Code,
    f: &Function,
    table: &mut Vec<Option<Vec<WordKind>>>,
    place: usize,
    i: Instr,
    kinds: &[WordKind],
    at: usize,
    number: usize,
) -> Result<Onward, AllocError>
    requires there { place < length f.now.instrs }
    requires named { Named code.now f.now i × Inside f.now place i }
    requires paths { AreReached code.now f.now place i kinds.now }
    requires at { at + count (wants code.now f.now i) ≡ length kinds.now }
    requires len { vec_len table.old ≡ length f.now.instrs }
    requires reached { Reached code.now f.now table.old.items }
    ensures len { vec_len table.new ≡ vec_len table.old }
    ensures reached { Reached code.now f.now table.new.items }
    ensures ok { IfOk result (λ o. Followed o code.now f.now table.old.items table.new.items place i kinds.now number) }
{
    match way(code, i, place, number) {
        None => Ok(Onward::Kept),
        Some(to) => {
            let out = following(alloc, code, f, i, number, kinds, at)?;
            let merge = lead(code, f, table, to, out);
            Ok(arrive(merge, place, to))
        }
    }
}

/// Follows the ways of an instruction.
fn spread(
    alloc: Global,
    code: &Code,
    f: &Function,
    table: &mut Vec<Option<Vec<WordKind>>>,
    place: usize,
    i: Instr,
    kinds: &[WordKind],
    at: usize,
) -> Result<Visit, AllocError>
    requires there { place < length f.now.instrs }
    requires named { Named code.now f.now i × Inside f.now place i }
    requires leads { LeadsOn code.now f.now table.old.items place i kinds.now at }
    requires len { vec_len table.old ≡ length f.now.instrs }
    requires reached { Reached code.now f.now table.old.items }
    ensures len { vec_len table.new ≡ vec_len table.old }
    ensures reached { Reached code.now f.now table.new.items }
    ensures ok { IfOk result (λ v. Visited v code.now f.now table.old.items table.new.items place) }
{
    let mut grew = false;
    for number in 0..way_count(code, i) {
        match follow(alloc, code, f, table, place, i, kinds, at, number)? {
            Onward::Kept => {}
            Onward::Grown => grew = true,
            Onward::Apart(to) => return Ok(Visit::Parts(to)),
        }
    }
    if grew {
        Ok(Visit::Grows)
    } else {
        Ok(Visit::Settles)
    }
}

/// Looks at one pc: its instruction must fit its kinds, and the pcs to which it leads get the kinds after it.
fn look(
    alloc: Global,
    code: &Code,
    f: &Function,
    table: &mut Vec<Option<Vec<WordKind>>>,
    place: usize,
) -> Result<Visit, AllocError>
    requires there { place < length f.now.instrs }
    requires named { (i : Instr) → slice_get f.now.instrs place ≡ Some i → Named code.now f.now i × Inside f.now place i }
    requires len { vec_len table.old ≡ length f.now.instrs }
    requires reached { Reached code.now f.now table.old.items }
    ensures len { vec_len table.new ≡ vec_len table.old }
    ensures reached { Reached code.now f.now table.new.items }
    ensures ok { IfOk result (λ v. Visited v code.now f.now table.old.items table.new.items place) }
{
    match step_at(alloc, code, f, table, place)? {
        Transfer::Dead => Ok(Visit::Settles),
        Transfer::Unfits(rule) => Ok(Visit::Unfit(rule)),
        Transfer::Leads(i, kinds, at) => spread(alloc, code, f, table, place, i, &kinds, at),
    }
}

/// The outcome of a pass over all instructions.
#[derive(Clone, Copy)]
pub enum Sweep {
    Done,
    More,
    Broken(Rule, usize),
    Parted(usize),
}

/// One pass over all pcs, in order.
fn pass(
    alloc: Global,
    code: &Code,
    f: &Function,
    table: &mut Vec<Option<Vec<WordKind>>>,
) -> Result<Sweep, AllocError>
    requires named { (place : ℕ) → (i : Instr) → slice_get f.now.instrs place ≡ Some i → Named code.now f.now i × Inside f.now place i }
    requires len { vec_len table.old ≡ length f.now.instrs }
    requires reached { Reached code.now f.now table.old.items }
    ensures len { vec_len table.new ≡ vec_len table.old }
    ensures reached { Reached code.now f.now table.new.items }
    ensures ok { IfOk result (λ s. Swept s code.now f.now table.old.items table.new.items) }
{
    let mut grew = false;
    for place in 0..f.instrs().len() {
        match look(alloc, code, f, table, place)? {
            Visit::Settles => {}
            Visit::Grows => grew = true,
            Visit::Unfit(rule) => return Ok(Sweep::Broken(rule, place)),
            Visit::Parts(to) => return Ok(Sweep::Parted(to)),
        }
    }
    if grew {
        Ok(Sweep::More)
    } else {
        Ok(Sweep::Done)
    }
}

/// The kinds at each instruction of a function, or the rule that it violates.
#[derive(Drop)]
pub enum Inferred {
    Full(Vec<Option<Vec<WordKind>>>),
    BrokenAt(Rule, usize),
    PartedAt(usize),
}

/// A table in which only the start has kinds, which are none.
fn blank(alloc: Global, code: &Code, f: &Function) -> Result<Vec<Option<Vec<WordKind>>>, AllocError>
    requires { 0 < length f.now.instrs }
    ensures ok { IfOk result (λ t. (vec_len t ≡ length f.now.instrs) × Reached code.now f.now t.items) }
{
    let _ = code;
    let mut table = Vec::new(alloc);
    table.push(Some(Vec::new(alloc)))?;
    for i in 1..f.instrs().len() {
        let _ = i;
        table.push(None)?;
    }
    Ok(table)
}

/// Passes over a function until nothing changes.
fn infer(alloc: Global, code: &Code, f: &Function) -> Result<Inferred, AllocError>
    requires some { 0 < length f.now.instrs }
    requires named { (place : ℕ) → (i : Instr) → slice_get f.now.instrs place ≡ Some i → Named code.now f.now i × Inside f.now place i }
    ensures ok { IfOk result (λ r. Infers r code.now f.now) }
{
    let mut table = blank(alloc, code, f)?;
    loop {
        match pass(alloc, code, f, &mut table)? {
            Sweep::Done => return Ok(Inferred::Full(table)),
            Sweep::More => {}
            Sweep::Broken(rule, place) => return Ok(Inferred::BrokenAt(rule, place)),
            Sweep::Parted(to) => return Ok(Inferred::PartedAt(to)),
        }
    }
}

/// What was inferred, as the rule that is violated, or none.
fn judge(inferred: &Inferred) -> Option<(Rule, usize)>
    ensures { result ≡ judged_of inferred.now }
{
    match inferred {
        Inferred::Full(_) => None,
        Inferred::BrokenAt(rule, place) => Some((*rule, *place)),
        Inferred::PartedAt(to) => Some((Rule::Paths, *to)),
    }
}

/// The rule that a function violates, and the pc.
pub(crate) fn check_function(
    alloc: Global,
    code: &Code,
    f: &Function,
) -> Result<Option<(Rule, usize)>, AllocError>
    requires { IsHeaded code.now f.now }
    ensures ok { IfOk result (λ o. Judged o code.now f.now) }
{
    match first_broken(code, f) {
        Some(broken) => Ok(Some(broken)),
        None => {
            let inferred = infer(alloc, code, f)?;
            Ok(judge(&inferred))
        }
    }
}
