//! The rules that code must keep, so that no test of the machine fails.

ghost use Rattle.std.specs.Prelude.{◌≡◌};
ghost use Rattle.bytecode.specs.Rules.{rule_number};

/// A rule of the verifier.
#[derive(Clone, Copy, PartialEq, Eq)]
pub enum Rule {
    /// V1: what is named is there, and the last instruction is a return, jump or loop.
    Names,
    /// V2: a jump and a select lead forward, a loop back.
    Targets,
    /// V3: on every path to an instruction the operand stack has the same kinds, and they fit it.
    Paths,
    /// V4: a call finds the kinds of the parameters.
    Calls,
    /// V5: a return finds exactly the kinds of the results.
    Returns,
    /// V6: what is stored has the kinds of the locals.
    Locals,
    /// V7: shapes have 1 to 16 kinds, select tables at most 64 clauses, a default counted too, and print tables at most 64
    /// parts.
    Tables,
    /// V8: there is a function `main` without parameters and result.
    Main,
}

impl Rule {
    /// The rule's number, 1 to 8.
    pub fn number(self) -> u8
        ensures { result ≡ rule_number self }
    {
        match self {
            Rule::Names => 1,
            Rule::Targets => 2,
            Rule::Paths => 3,
            Rule::Calls => 4,
            Rule::Returns => 5,
            Rule::Locals => 6,
            Rule::Tables => 7,
            Rule::Main => 8,
        }
    }
}
