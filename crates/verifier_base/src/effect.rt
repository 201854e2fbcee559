//! What an instruction takes off the operand stack and leaves on it, by kinds.

ghost use Rattle.std.specs.Prelude.{◌≡◌, ◌+◌, ◌≤◌, ◌<◌, ◌++◌, ◌↔◌, IsTrue, IfOk, OnOk, MatchOption, length, slice_get, take, [], ◌∷◌};
ghost use Rattle.bytecode.specs.Effects.{Exactly, all_clause_kinds, clause_gives, clauses_in, operands as operands_of, outcome as outcome_of, wants, leaves, count, Meets, Fits, afterwards, part_kinds, shape_kinds};
ghost use Rattle.bytecode.specs.Rules.{Named, rule_of};
ghost use Rattle.verifier_base.specs.Needs.{wants_of};

use bytecode::{Clause, Code, Function, Instr, Part, Rule, WordKind, same_kinds};
use std::alloc::{AllocError, Global};
use word::apply::Op;

/// What an instruction wants on the top of the stack.
#[derive(Drop)]
pub enum Need {
    /// These kinds.
    These(Vec<WordKind>),
    /// One word of this kind.
    One(WordKind),
    /// Two words of this kind.
    Two(WordKind),
    /// This many words of any kind.
    Some(usize),
    /// A channel.
    Channel,
    /// Two channels of one shape.
    Channels,
}

/// What an operator wants.
fn operands(op: Op) -> Need
    ensures { wants_of result ≡ operands_of op }
{
    match op {
        Op::Neg | Op::Com => Need::One(WordKind::Int),
        Op::Not => Need::One(WordKind::Bool),
        Op::EqBool | Op::NeBool => Need::Two(WordKind::Bool),
        Op::EqChan | Op::NeChan => Need::Channels,
        _ => Need::Two(WordKind::Int),
    }
}

/// The kinds of a function's parameters.
fn params_of(f: &Function) -> &[WordKind]
    ensures { result.now ≡ take f.now.params f.now.locals }
{
    let params = f.params() as usize;
    let locals = f.locals();
    if params < locals.len() {
        &locals[..params]
    } else {
        locals
    }
}

/// What wants these kinds.
fn these(alloc: Global, kinds: &[WordKind]) -> Result<Need, AllocError>
    ensures ok { IfOk result (λ n. wants_of n ≡ Exactly kinds.now) }
{
    Ok(Need::These(Vec::from_slice(alloc, kinds)?))
}

/// What a print wants.
fn printed(alloc: Global, parts: &[Part]) -> Result<Need, AllocError>
    ensures ok { IfOk result (λ n. wants_of n ≡ Exactly (part_kinds parts.now)) }
{
    let mut kinds = Vec::new(alloc);
    for part in parts {
        match part {
            Part::Int => kinds.push(WordKind::Int)?,
            Part::Bool => kinds.push(WordKind::Bool)?,
            Part::Text(_) => {}
        }
    }
    Ok(Need::These(kinds))
}

/// The kinds of a shape; none if it is not there.
fn kinds_of(code: &Code, s: u32) -> &[WordKind]
    ensures { result.now ≡ shape_kinds code.now s }
{
    match code.shapes().get(s as usize) {
        Some(shape) => shape.kinds(),
        None => &[],
    }
}

/// The clauses of a select table; none if it is not there.
fn clauses_of(code: &Code, q: u32) -> &[Clause]
    ensures { result.now ≡ clauses_in (slice_get code.now.selects q) }
{
    match code.selects().get(q as usize) {
        Some(table) => table.clauses(),
        None => &[],
    }
}

/// What a send wants: a channel, and an item of its shape on it.
fn channel_and_item(alloc: Global, code: &Code, s: u32) -> Result<Need, AllocError>
    ensures ok { IfOk result (λ n. wants_of n ≡ Exactly (WordKind.Chan s ∷ shape_kinds code.now s)) }
{
    let mut kinds = vec![in alloc; WordKind::Chan(s)]?;
    kinds.extend_from_slice(kinds_of(code, s))?;
    Ok(Need::These(kinds))
}

/// What a select's clauses want.
fn operands_of_clauses(alloc: Global, code: &Code, clauses: &[Clause]) -> Result<Need, AllocError>
    ensures ok { IfOk result (λ n. wants_of n ≡ Exactly (all_clause_kinds code.now clauses.now)) }
{
    let mut kinds = Vec::new(alloc);
    for clause in clauses {
        kinds.push(WordKind::Chan(clause.shape()))?;
        if let Clause::Send(shape, _) = *clause {
            kinds.extend_from_slice(kinds_of(code, shape))?;
        }
    }
    Ok(Need::These(kinds))
}

/// What an instruction wants on the top of the stack.
fn wanted(alloc: Global, code: &Code, f: &Function, i: Instr) -> Result<Need, AllocError>
    requires { Named code.now f.now i }
    ensures ok { IfOk result (λ n. wants_of n ≡ wants code.now f.now i) }
{
    match i {
        Instr::Store(a, n) => {
            let from = a as usize;
            let to = from + n as usize;
            these(alloc, &f.locals()[from..to])
        }
        Instr::Pick(t, _, _) => Ok(Need::Some(t as usize)),
        Instr::Discard(n) => Ok(Need::Some(n as usize)),
        Instr::Apply(op) => Ok(operands(op)),
        Instr::Unless(_) => Ok(Need::One(WordKind::Bool)),
        Instr::Call(g) | Instr::Go(g) => these(alloc, params_of(&code.functions()[g as usize])),
        Instr::Return => these(alloc, f.results()),
        Instr::Make(_) => Ok(Need::One(WordKind::Int)),
        Instr::Send(s) => channel_and_item(alloc, code, s),
        Instr::Receive(s) => Ok(Need::One(WordKind::Chan(s))),
        Instr::Close | Instr::Len | Instr::Cap => Ok(Need::Channel),
        Instr::Print(q) => printed(alloc, code.prints()[q as usize].parts()),
        Instr::Select(q) => operands_of_clauses(alloc, code, clauses_of(code, q)),
        _ => Ok(Need::Some(0)),
    }
}

/// How many words are wanted.
fn amount(need: &Need) -> usize
    ensures { result ≡ count (wants_of need.now) }
{
    match need {
        Need::These(kinds) => kinds.len(),
        Need::Some(n) => *n,
        Need::One(_) | Need::Channel => 1,
        Need::Two(_) | Need::Channels => 2,
    }
}

/// Whether the words on the top are what is wanted.
fn meets(need: &Need, top: &[WordKind]) -> bool
    ensures { IsTrue result ↔ Meets (wants_of need.now) top.now }
{
    match need {
        Need::These(kinds) => same_kinds(top, kinds),
        Need::One(kind) => same_kinds(top, &[*kind]),
        Need::Two(kind) => same_kinds(top, &[*kind, *kind]),
        Need::Some(_) => true,
        Need::Channel => match top {
            [WordKind::Chan(_)] => true,
            _ => false,
        },
        Need::Channels => match top {
            [WordKind::Chan(s), WordKind::Chan(t)] => s == t,
            _ => false,
        },
    }
}

/// The kind of an operator's value.
fn outcome(op: Op) -> WordKind
    ensures { result ≡ outcome_of op }
{
    match op {
        Op::Not
        | Op::EqInt
        | Op::NeInt
        | Op::Lt
        | Op::Le
        | Op::Gt
        | Op::Ge
        | Op::EqBool
        | Op::NeBool
        | Op::EqChan
        | Op::NeChan => WordKind::Bool,
        _ => WordKind::Int,
    }
}

/// Appends a kind.
fn give_one(kind: WordKind, out: &mut Vec<WordKind>) -> Result<(), AllocError>
    ensures ok { OnOk result (out.new.items ≡ out.old.items ++ kind ∷ []) }
{
    Ok(out.push(kind)?)
}

/// Appends the kinds of an item and of a truth value.
fn give_item(code: &Code, s: u32, out: &mut Vec<WordKind>) -> Result<(), AllocError>
    ensures ok { OnOk result (out.new.items ≡ out.old.items ++ (shape_kinds code.now s ++ WordKind.Bool ∷ [])) }
{
    out.extend_from_slice(kinds_of(code, s))?;
    out.push(WordKind::Bool)?;
    Ok(())
}

/// Appends what is left after a clause was done.
fn give_clause(
    code: &Code,
    clause: Option<Clause>,
    out: &mut Vec<WordKind>,
) -> Result<(), AllocError>
    ensures ok { OnOk result (out.new.items ≡ out.old.items ++ clause_gives code.now clause) }
{
    match clause {
        Some(Clause::Receive(s, _)) => give_item(code, s, out),
        Some(Clause::Send(_, _)) => Ok(()),
        None => Ok(()),
    }
}

/// Appends what an instruction leaves on its way of this number.
fn give(
    code: &Code,
    f: &Function,
    i: Instr,
    way: usize,
    top: &[WordKind],
    out: &mut Vec<WordKind>,
) -> Result<(), AllocError>
    requires named { Named code.now f.now i }
    requires enough { count (wants code.now f.now i) ≤ length top.now }
    ensures ok { OnOk result (out.new.items ≡ out.old.items ++ leaves code.now f.now i way top.now) }
{
    match i {
        Instr::Int(_) | Instr::Len | Instr::Cap => give_one(WordKind::Int, out),
        Instr::Bool(_) => give_one(WordKind::Bool, out),
        Instr::Nil(s) | Instr::Make(s) => give_one(WordKind::Chan(s), out),
        Instr::Load(a, n) => {
            let from = a as usize;
            let to = from + n as usize;
            out.extend_from_slice(&f.locals()[from..to])
        }
        Instr::Pick(_, a, n) => {
            let from = a as usize;
            let to = from + n as usize;
            out.extend_from_slice(&top[from..to])
        }
        Instr::Apply(op) => give_one(outcome(op), out),
        Instr::Call(g) => out.extend_from_slice(code.functions()[g as usize].results()),
        Instr::Receive(s) => give_item(code, s, out),
        Instr::Select(q) => {
            let clauses = clauses_of(code, q);
            give_clause(code, clauses.get(way).copied(), out)
        }
        _ => Ok(()),
    }
}

/// Where the operands of an instruction begin among these kinds, or `None` if it does not fit them.
pub fn operands_at(
    alloc: Global,
    code: &Code,
    f: &Function,
    i: Instr,
    kinds: &[WordKind],
) -> Result<Option<usize>, AllocError>
    requires { Named code.now f.now i }
    ensures ok { IfOk result (λ o. MatchOption o (Fits code.now f.now i kinds.now → ⊥) (λ at. Fits code.now f.now i kinds.now × (at + count (wants code.now f.now i) ≡ length kinds.now))) }
{
    let need = wanted(alloc, code, f, i)?;
    let n = amount(&need);
    if n > kinds.len() {
        return Ok(None);
    }
    let at = kinds.len() - n;
    if at > 0 && matches!(i, Instr::Return) {
        return Ok(None);
    }
    if !meets(&need, &kinds[at..]) {
        return Ok(None);
    }
    Ok(Some(at))
}

/// The kinds after instruction `i` on its way `way`, whose operands begin at index `at` of `kinds`.
pub fn following(
    alloc: Global,
    code: &Code,
    f: &Function,
    i: Instr,
    way: usize,
    kinds: &[WordKind],
    at: usize,
) -> Result<Vec<WordKind>, AllocError>
    requires named { Named code.now f.now i }
    requires at { at + count (wants code.now f.now i) ≡ length kinds.now }
    ensures ok { IfOk result (λ v. v.items ≡ afterwards code.now f.now i way kinds.now) }
{
    let mut out = Vec::with_capacity(alloc, at + 1)?;
    out.extend_from_slice(&kinds[..at])?;
    give(code, f, i, way, &kinds[at..], &mut out)?;
    Ok(out)
}

/// The rule that an instruction violates if it does not fit.
pub fn broken_rule(i: Instr) -> Rule
    ensures { result ≡ rule_of i }
{
    match i {
        Instr::Call(_) | Instr::Go(_) => Rule::Calls,
        Instr::Return => Rule::Returns,
        Instr::Store(_, _) => Rule::Locals,
        _ => Rule::Paths,
    }
}
