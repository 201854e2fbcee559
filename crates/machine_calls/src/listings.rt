//! What a listing shows.

use crate::checks::Checks;
use crate::made::main_code;
use bytecode::Instr::*;
use bytecode::{Instr, listing};
use go_text::{Fault, Memory};
use std::alloc::Global;
use word::apply::Op;

/// Instructions of all forms of operands; in no order that a verifier takes.
const INSTRS: [Instr; 13] = [
    Int(-9_223_372_036_854_775_808),
    Bool(true),
    Nil(2),
    Load(1, 2),
    Store(0, 3),
    Pick(5, 1, 2),
    Discard(4),
    Apply(Op::AndNot),
    Tick,
    Unless(10),
    Close,
    Print(0),
    Select(1),
];

const LISTING: &str = "\
func main params 0 locals 2 result 0
     0 int -9223372036854775808
     1 bool true
     2 nil 2
     3 load 1 2
     4 store 0 3
     5 pick 5 1 2
     6 drop 4
     7 apply andnot
     8 tick
     9 unless 10
    10 close
    11 print 0
    12 select 1
func negative params 1 locals 1 result 1
     0 load 0 1
     1 int 0
     2 apply lt
     3 return
";

/// Whether functions and operands of all forms are listed.
pub(crate) fn check(alloc: Global, checks: &mut Checks) -> Result<(), Memory> {
    checks.see("functions and operands are listed", are_listed(alloc))
}

fn are_listed(alloc: Global) -> Result<bool, Fault> {
    let code = main_code(alloc, &INSTRS)?;
    let text = listing(alloc, &code)?;
    Ok(text.as_slice() == LISTING.as_bytes())
}
