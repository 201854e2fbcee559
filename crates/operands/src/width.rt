//! How many words an instruction pops.

ghost use Rattle.std.specs.Prelude.{◌≡◌, ◌≤◌, length, slice_get};
ghost use Rattle.bytecode.specs.Effects.{all_clause_kinds, clause_kinds, clauses_in, count, operands, params_in, part_kinds, shape_kinds};
ghost use Rattle.bytecode.specs.Machine.{pops};
ghost use Rattle.bytecode.specs.Rules.{IsVerified};

use bytecode::{Clause, Code, Function, Instr, Part};
use word::apply::Op;

/// The clauses of a select table; none if it is not there.
pub fn clauses_of(code: &Code, table: u32) -> &[Clause]
    ensures { result.now ≡ clauses_in (slice_get code.now.selects table) }
{
    match code.selects().get(table as usize) {
        Some(table) => table.clauses(),
        None => &[],
    }
}

/// How many words an item of a shape has; none if the shape is not there.
fn item_width(code: &Code, shape: u32) -> usize
    requires { IsVerified code.now }
    ensures width { result ≡ length (shape_kinds code.now shape) }
    ensures few { result ≤ 16 }
{
    match code.shapes().get(shape as usize) {
        Some(shape) => shape.kinds().len(),
        None => 0,
    }
}

/// How many operands a clause has.
pub(crate) fn clause_width(code: &Code, clause: Clause) -> usize
    requires { IsVerified code.now }
    ensures width { result ≡ length (clause_kinds code.now clause) }
    ensures few { result ≤ 17 }
{
    match clause {
        Clause::Send(shape, _) => item_width(code, shape) + 1,
        Clause::Receive(_, _) => 1,
    }
}

/// How many operands a select has.
fn select_width(code: &Code, table: u32) -> usize
    requires { IsVerified code.now }
    ensures { result ≡ length (all_clause_kinds code.now (clauses_in (slice_get code.now.selects table))) }
{
    let mut width = 0;
    let clauses = clauses_of(code, table);
    for clause in clauses {
        width += clause_width(code, *clause);
    }
    width
}

/// How many operands an operator has.
pub fn arity(op: Op) -> usize
    ensures { result ≡ count (operands op) }
{
    match op {
        Op::Neg | Op::Com | Op::Not => 1,
        _ => 2,
    }
}

/// How many words a print takes.
fn values_of(parts: &[Part]) -> usize
    ensures { result ≡ length (part_kinds parts.now) }
{
    let mut values = 0;
    for part in parts {
        match part {
            Part::Int => values += 1,
            Part::Bool => values += 1,
            Part::Text(_) => {}
        }
    }
    values
}

/// How many of the locals are parameters.
pub fn params_of(code: &Code, function: u32) -> usize
    ensures { result ≡ length (params_in (slice_get code.now.functions function)) }
{
    match code.functions().get(function as usize) {
        Some(f) => (f.params() as usize).min(f.locals().len()),
        None => 0,
    }
}

/// How many words an instruction pops.
pub fn pops_of(code: &Code, f: &Function, i: Instr) -> usize
    requires { IsVerified code.now }
    ensures { result ≡ pops code.now f.now i }
{
    match i {
        Instr::Store(a, n) => f.locals().len().saturating_sub(a as usize).min(n as usize),
        Instr::Pick(t, _, _) => t as usize,
        Instr::Discard(n) => n as usize,
        Instr::Apply(op) => arity(op),
        Instr::Unless(_) => 1,
        Instr::Call(g) => params_of(code, g),
        Instr::Go(g) => params_of(code, g),
        Instr::Return => f.results().len(),
        Instr::Make(_) => 1,
        Instr::Send(shape) => item_width(code, shape) + 1,
        Instr::Receive(_) | Instr::Close | Instr::Len | Instr::Cap => 1,
        Instr::Print(q) => match code.prints().get(q as usize) {
            Some(table) => values_of(table.parts()),
            None => 0,
        },
        Instr::Select(q) => select_width(code, q),
        _ => 0,
    }
}
