//! Instructions, and the kinds of the words that they take and leave.

use word::apply::Op;

/// The kind of a word.
#[derive(Clone, Copy, PartialEq, Eq)]
pub enum WordKind {
    /// An `int`.
    Int,
    /// A `bool`.
    Bool,
    /// A channel, or `nil`, whose items have the shape of this number.
    Chan(u32),
}

/// An instruction. Instructions (by pc), functions, locals, shapes and tables are counted from 0. Words are taken from
/// the top of the operand stack, the last one named being on its top, and left there.
#[derive(Clone, Copy, PartialEq, Eq)]
pub enum Instr {
    /// Pushes this number.
    Int(i64),
    /// Pushes this truth value.
    Bool(bool),
    /// Pushes the `nil` channel of this shape.
    Nil(u32),
    /// Pushes the locals from the first number on, as many as the second says.
    Load(u32, u32),
    /// Pops words into the locals from the first number on, as many as the second says.
    Store(u32, u32),
    /// Of as many words as the first number says, keeps those from the second on, as many as the third says.
    Pick(u32, u32, u32),
    /// Drops as many words as the number says.
    Discard(u32),
    /// Pops the operator's operands and pushes its value; or panics.
    Apply(Op),
    /// One assignment is completed: the clock grows by 1.
    Tick,
    /// Goes on at this pc, which is ahead.
    Jump(u32),
    /// Pops a truth value and, if it is false, goes on at this pc, which is ahead.
    Unless(u32),
    /// Goes back to this pc; the clock grows by 1.
    Loop(u32),
    /// Pops its arguments and enters the function of this number; the clock grows by 1. Panics at 1,000 functions.
    Call(u32),
    /// Leaves the function with its results, which the caller finds on its stack; in a goroutine's first function, requests the end.
    Return,
    /// Pops a size and requests a channel of this shape, which is pushed.
    Make(u32),
    /// Pops its arguments and requests the start of the function of this number.
    Go(u32),
    /// Pops a channel of this shape and an item, and requests to send it.
    Send(u32),
    /// Pops a channel of this shape and requests to receive; the item and a truth value are pushed.
    Receive(u32),
    /// Pops a channel and requests its close.
    Close,
    /// Pops a channel and requests the number of items in its buffer, which is pushed.
    Len,
    /// Pops a channel and requests its capacity, which is pushed.
    Cap,
    /// Pops the values of the print table of this number, and requests to print them.
    Print(u32),
    /// Pops the operands of the select table of this number, and requests one of its clauses; goes on at the pc of the
    /// clause that was done, or of the default. Of a receive the item and a truth value are pushed.
    Select(u32),
}
