//! Jumps that wait for their targets.

ghost use Rattle.std.specs.Prelude.{◌≡◌, cond, slice_set};
ghost use Rattle.codegen_flow.specs.Waits.{filled};

use bytecode::Instr;

/// The jump of a break or a continue, at pc `place`. Its target is not known yet.
#[derive(Clone, Copy)]
pub struct Wait {
    pub place: usize,
    pub leaves: bool,
}

/// Replaces the instruction at pc `at`.
pub fn aim(code: &mut Vec<Instr>, at: usize, instr: Instr)
    ensures { code.new.items ≡ slice_set code.old.items at instr }
{
    if let Some(place) = code.get_mut(at) {
        *place = instr;
    }
}

/// Where the jump leads.
fn target(wait: Wait, leave: u32, again: u32) -> u32
    ensures { result ≡ cond wait.leaves leave again }
{
    if wait.leaves { leave } else { again }
}

/// Gives all jumps their targets: a break leads to `leave`, and a continue to `again`.
#[tactic(auto, using(crate::proofs::Filled::filled_last))]
pub fn fill(waits: &[Wait], leave: u32, again: u32, code: &mut Vec<Instr>)
    ensures { code.new.items ≡ filled waits.now leave again code.old.items }
{
    let mut left = waits;
    while let Some((wait, others)) = left.split_last() {
        aim(code, wait.place, Instr::Jump(target(*wait, leave, again)));
        left = others;
    }
}
