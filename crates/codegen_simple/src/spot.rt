//! Where values go.

ghost use Rattle.std.specs.Prelude.{OnOk};
ghost use Rattle.codegen_base.specs.Statements.{stores};
ghost use Rattle.codegen_base.specs.Pushes.{drops};
ghost use Rattle.codegen_expression.specs.Emission.{Puts};
ghost use Rattle.codegen_simple.specs.Spots.{spot_in};

use bytecode::Instr;
use codegen_expression::operand::put;
use std::alloc::AllocError;

/// Where the words of a value go.
#[derive(Clone, Copy)]
pub enum Spot {
    /// The number of words that are dropped.
    Dropped(u32),
    /// The first local, and how many locals take the words.
    Local(u32, u32),
}

/// Drops `count` words.
#[tactic(auto, using(crate::proofs::Storing::puts_no_drop, crate::proofs::Storing::puts_drop))]
pub fn drop_words(count: u32, code: &mut Vec<Instr>) -> Result<(), AllocError>
    ensures { OnOk result (Puts code.old.items code.new.items (drops count)) }
{
    if count > 0 {
        code.push(Instr::Discard(count))?;
    }
    Ok(())
}

/// A value goes to its spot.
pub fn store(spot: Spot, code: &mut Vec<Instr>) -> Result<(), AllocError>
    ensures { OnOk result (Puts code.old.items code.new.items (stores (spot_in spot))) }
{
    match spot {
        Spot::Dropped(words) => drop_words(words, code),
        Spot::Local(place, words) => put(code, Instr::Store(place, words)),
    }
}
