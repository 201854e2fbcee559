//! The typing rules and the limits, by their numbers.

/// A typing rule of the language; `rule as u8` is its number.
#[derive(Clone, Copy, Debug, PartialEq, Eq)]
pub enum Rule {
    /// The file declares a function `main` without parameters and result.
    Main = 1,
    /// A name is declared once in its block, and no reserved name is declared.
    Declared = 2,
    /// A used name is visible, and is what its context requires.
    Visible = 3,
    /// A struct has fields of different names and doesn't contain itself.
    Struct = 4,
    /// Operands fit the operator.
    Operands = 5,
    /// A constant used as int is representable, no constant divisor is zero, no constant shift count negative.
    Constant = 6,
    /// A value is assignable to the type it is used as.
    Assignable = 7,
    /// Numbers of names, values, arguments and fields agree.
    Numbers = 8,
    /// `:=` declares at least one new name.
    NewName = 9,
    /// What is assigned to is an lvalue.
    Assigned = 10,
    /// A channel's direction allows the operation.
    Direction = 11,
    /// The operand is a value of channel type.
    Channel = 12,
    /// `nil` is used only where the other side has a channel type.
    Nil = 13,
    /// Conditions are bool.
    Condition = 14,
    /// `return` has a value exactly if the function has a result.
    Returned = 15,
    /// A function with a result ends in a terminating statement.
    Terminating = 16,
    /// `break` is within a `for` or `select`, `continue` within a `for`.
    Branch = 17,
    /// A call names a function, and one used as a value has a result.
    Called = 18,
    /// `make` names a channel type, and its size is an int that is not negative.
    Made = 19,
    /// A `select` has at most one `default`.
    OneDefault = 20,
}

/// A limit on the size of a program's parts; `kind as u8` is its number.
#[derive(Clone, Copy, Debug, PartialEq, Eq)]
pub enum LimitKind {
    /// A constant's size is at most 2^100, and the count of a wholly constant shift at most 100.
    ConstantSize = 1,
    /// A struct is at most 16 words wide.
    StructWidth = 2,
    /// A select has at most 64 clauses.
    SelectClauses = 3,
    /// A list of names, values, arguments, parameters or fields has at most 64 entries.
    ListEntries = 4,
    /// The variables of a function take at most 4,096 words.
    FunctionWords = 5,
    /// There are at most 4,096 functions and 4,096 struct types.
    Declarations = 6,
}
