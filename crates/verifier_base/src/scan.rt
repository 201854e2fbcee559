//! Which rule an instruction violates by itself, whatever path leads to it.

ghost use Rattle.std.specs.Prelude.{◌≡◌, ◌↔◌, ◌<◌, IsTrue, length, slice_get};
ghost use Rattle.bytecode.specs.Effects.{targets_in};
ghost use Rattle.bytecode.specs.Rules.{AreAfter, AreWithin, Named, Inside, Directed};
ghost use Rattle.verifier_base.specs.Scans.{Scanned, ScannedAt};

use crate::ways::{select_way, select_ways};
use bytecode::{Code, Function, Instr, Rule};

/// Whether each way of select `q` leads to one of `n` instructions.
fn are_within(code: &Code, q: u32, n: usize) -> bool
    ensures { IsTrue result ↔ AreWithin (targets_in (slice_get code.now.selects q)) n }
{
    for number in 0..select_ways(code, q) {
        if let Some(to) = select_way(code, q, number) {
            if to >= n {
                return false;
            }
        }
    }
    true
}

/// Whether each way of select `q` leads past `place`.
fn are_after(code: &Code, q: u32, place: usize) -> bool
    ensures { IsTrue result ↔ AreAfter (targets_in (slice_get code.now.selects q)) place }
{
    for number in 0..select_ways(code, q) {
        if let Some(to) = select_way(code, q, number) {
            if to <= place {
                return false;
            }
        }
    }
    true
}

/// Whether what an instruction names is there.
fn is_named(code: &Code, f: &Function, i: Instr) -> bool
    ensures { IsTrue result ↔ Named code.now f.now i }
{
    match i {
        Instr::Nil(s) | Instr::Make(s) | Instr::Send(s) | Instr::Receive(s) => {
            (s as usize) < code.shapes().len()
        }
        Instr::Load(a, n) | Instr::Store(a, n) => {
            let locals = f.locals().len();
            n as usize <= locals && a as usize <= locals - n as usize
        }
        Instr::Pick(t, a, n) => n <= t && a <= t - n,
        Instr::Call(g) | Instr::Go(g) => (g as usize) < code.functions().len(),
        Instr::Print(q) => (q as usize) < code.prints().len(),
        Instr::Select(q) => {
            (q as usize) < code.selects().len() && are_within(code, q, f.instrs().len())
        }
        _ => true,
    }
}

/// Whether the ways of `i` lead to pcs of the function.
fn is_inside(f: &Function, place: usize, i: Instr) -> bool
    requires { place < length f.now.instrs }
    ensures { IsTrue result ↔ Inside f.now place i }
{
    let n = f.instrs().len();
    match i {
        Instr::Jump(to) | Instr::Loop(to) => (to as usize) < n,
        Instr::Unless(to) => (to as usize) < n && place + 1 < n,
        Instr::Return => true,
        _ => place + 1 < n,
    }
}

/// Whether its ways lead in the direction that they must.
fn is_directed(code: &Code, place: usize, i: Instr) -> bool
    ensures { IsTrue result ↔ Directed code.now place i }
{
    match i {
        Instr::Jump(to) | Instr::Unless(to) => place < to as usize,
        Instr::Loop(to) => to as usize <= place,
        Instr::Select(q) => are_after(code, q, place),
        _ => true,
    }
}

/// The rule that one instruction violates by itself, and its pc.
fn scan_one(code: &Code, f: &Function, place: usize) -> Option<(Rule, usize)>
    requires { place < length f.now.instrs }
    ensures { ScannedAt result code.now f.now place }
{
    let i = f.instrs()[place];
    if !is_named(code, f, i) || !is_inside(f, place, i) {
        return Some((Rule::Names, place));
    }
    if !is_directed(code, place, i) {
        return Some((Rule::Targets, place));
    }
    None
}

/// The first rule that an instruction of a function violates by itself, and the instruction's pc.
pub fn first_broken(code: &Code, f: &Function) -> Option<(Rule, usize)>
    ensures { Scanned result code.now f.now }
{
    for place in 0..f.instrs().len() {
        match scan_one(code, f, place) {
            None => {}
            Some(broken) => return Some(broken),
        }
    }
    None
}
