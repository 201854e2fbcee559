//! What a seat knows. No value of these is made.

use bytecode::Code;
use goroutine_vm::GoState;
use std::collections::LinkedList;

/// The goroutine of this number was lent in this state, in a run of this code under this limit.
pub struct Loan {
    pub code: Code,
    pub limit: u64,
    pub number: u64,
    pub base: GoState,
}

/// What the book's seat knows of one slot.
pub enum Row {
    /// Not lent: the word is this clock.
    Home(u64),
    /// Lent, with the last look.
    Lent(Loan, u64),
    /// A seat was just taken in: the loan that the book knew of with its last look, the seat's loan and its clock.
    Back(Option<(Loan, u64)>, Loan, u64),
}

/// What a seat knows of the table.
pub enum View {
    /// The book's seat: a row for each slot, and how many looks it made.
    Desk(LinkedList<Row>, u64),
    /// A lease's seat: the slot, its loan, the clock that it published last, and how many stores it made.
    Lease(u64, Loan, u64, u64),
    /// A seat that was taken back.
    Spent,
}
