//! The code of a compiled program, what each instruction does, and what the verifier requires of it.
#![tactic(auto)]

mod code;
mod instr;
mod lines;
mod rule;
mod table;

pub use code::{Code, Function};
pub use instr::{Instr, WordKind};
pub use lines::listing;
pub use rule::Rule;
pub use table::{
    Clause, MAX_CLAUSES, MAX_PARTS, Part, PrintTable, SelectTable, Shape, Text, same_kinds,
};
