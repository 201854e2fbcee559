//! Where an instruction leads.

ghost use Rattle.std.specs.Prelude.{◌≡◌, ◌+◌, ◌^◌, [], ◌∷◌, ℕ, ◌<◌, length, slice_get};
ghost use Rattle.bytecode.specs.Effects.{targets_in};
ghost use Rattle.bytecode.specs.Rules.{ways};

use bytecode::{Code, Instr};

/// How many ways a select has.
pub(crate) fn select_ways(code: &Code, q: u32) -> usize
    ensures { result ≡ length (targets_in (slice_get code.now.selects q)) }
{
    match code.selects().get(q as usize) {
        Some(table) => table.target_count(),
        None => 0,
    }
}

/// Where a select leads on its way of this number.
pub(crate) fn select_way(code: &Code, q: u32, number: usize) -> Option<usize>
    ensures { result ≡ slice_get (targets_in (slice_get code.now.selects q)) number }
{
    match code.selects().get(q as usize) {
        Some(table) => table.target(number).map(|to| to as usize),
        None => None,
    }
}

/// How many ways an instruction has.
pub fn way_count(code: &Code, i: Instr) -> usize
    ensures { (place : ℕ) → result ≡ length (ways code.now i place) }
{
    match i {
        Instr::Unless(_) => 2,
        Instr::Return => 0,
        Instr::Select(q) => select_ways(code, q),
        _ => 1,
    }
}

/// The only way of most instructions, of number 0.
fn only(to: usize, number: usize) -> Option<usize>
    ensures { result ≡ slice_get (to ∷ []) number }
{
    if number == 0 { Some(to) } else { None }
}

/// Where an instruction leads on its way of this number.
pub fn way(code: &Code, i: Instr, place: usize, number: usize) -> Option<usize>
    requires { place < 2 ^ 63 }
    ensures { result ≡ slice_get (ways code.now i place) number }
{
    match i {
        Instr::Jump(to) | Instr::Loop(to) => only(to as usize, number),
        Instr::Unless(to) => match number {
            0 => Some(place + 1),
            1 => Some(to as usize),
            _ => None,
        },
        Instr::Return => None,
        Instr::Select(q) => select_way(code, q, number),
        _ => only(place + 1, number),
    }
}
