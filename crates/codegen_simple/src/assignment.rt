//! What goes to several spots ("Assignment statements" of the Go specification).

ghost use Rattle.std.specs.Prelude.{◌++◌, ◌∷◌, [], List, OnOk, map};
ghost use Rattle.bytecode.specs.declared.instr.Instr.{Instr as OneInstr};
ghost use Rattle.codegen_base.specs.Statements.{Local, Spot as OneSpot, assigns, single_spots, singles};
ghost use Rattle.codegen_expression.specs.Emission.{Puts};
ghost use Rattle.codegen_simple.specs.Spots.{Stored, spot_in, stores_each};

use crate::spot::{Spot, store};
use bytecode::Instr;
use codegen_expression::operand::put;
use std::alloc::{AllocError, Global};
use std::collections::HashSet;

/// Stores a word into local `place`, or drops it if another one is stored there later.
fn store_word(
    place: u32,
    places: &mut HashSet<u32>,
    code: &mut Vec<Instr>,
) -> Result<(), AllocError>
    ensures { (first : List OneInstr) (later : List OneSpot) → OnOk result (Stored first later places.old code.old.items → Stored first (Local place 1 ∷ later) places.new code.new.items) }
{
    if places.insert(place)? {
        put(code, Instr::Store(place, 1))
    } else {
        put(code, Instr::Discard(1))
    }
}

/// Stores `words` words into the locals from `place` on, the last one first.
fn store_words<'p, 'c>(
    place: u32,
    words: u32,
    places: &'p mut HashSet<u32>,
    code: &'c mut Vec<Instr>,
) -> Result<(), AllocError>
    ensures { (first : List OneInstr) (later : List OneSpot) → OnOk result (Stored first later places.old code.old.items → Stored first (single_spots place words ++ later) places.new code.new.items) }
{
    if words == 0 {
        return Ok(());
    }
    let Some(next) = place.checked_add(1) else {
        return Err(AllocError);
    };
    store_words(next, words - 1, places, code)?;
    store_word(place, places, code)
}

/// The words of a value go to its spot, the last one first.
fn store_spot(
    spot: Spot,
    places: &mut HashSet<u32>,
    code: &mut Vec<Instr>,
) -> Result<(), AllocError>
    ensures { (first : List OneInstr) (spots : List OneSpot) → OnOk result (Stored first (singles spots) places.old code.old.items → Stored first (singles (spot_in spot ∷ spots)) places.new code.new.items) }
{
    match spot {
        Spot::Dropped(_) => store(spot, code),
        Spot::Local(place, words) => store_words(place, words, places, code),
    }
}

/// The words of values go to their spots, the last one first.
fn store_spots<'s, 'p, 'c>(
    spots: &'s [Spot],
    places: &'p mut HashSet<u32>,
    code: &'c mut Vec<Instr>,
) -> Result<(), AllocError>
    ensures { (first : List OneInstr) → OnOk result (Stored first [] places.old code.old.items → Stored first (singles (map spot_in spots.now)) places.new code.new.items) }
{
    let Some((spot, spots)) = spots.split_first() else {
        return Ok(());
    };
    store_spots(spots, places, code)?;
    store_spot(*spot, places, code)
}

/// Values go to their spots, as if from left to right.
fn store_each(alloc: Global, spots: &[Spot], code: &mut Vec<Instr>) -> Result<(), AllocError>
    ensures { OnOk result (Puts code.old.items code.new.items (stores_each (map spot_in spots.now))) }
{
    match spots {
        [] => Ok(()),
        [spot] => store(*spot, code),
        [_, _, ..] => {
            let mut places = HashSet::new(alloc);
            store_spots(spots, &mut places, code)
        }
    }
}

/// Values go to their spots, as if from left to right, and the clock ticks.
///
/// Errors: out of memory.
#[tactic(auto, using(crate::proofs::Storing::puts_assigned))]
pub fn assign(alloc: Global, spots: &[Spot], code: &mut Vec<Instr>) -> Result<(), AllocError>
    ensures { OnOk result (Puts code.old.items code.new.items (assigns (map spot_in spots.now))) }
{
    store_each(alloc, spots, code)?;
    put(code, Instr::Tick)
}
