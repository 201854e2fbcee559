//! Which part of the source each instruction comes from.

use codegen_expression::operand::number;
use std::alloc::{AllocError, Global};

/// A part of a function that has marks of its own.
#[derive(Clone, Copy, PartialEq, Eq)]
pub enum Part {
    /// A statement of a block.
    Statement,
    /// The simple statement at the beginning of the header of an `if` or a `for`.
    Head,
    /// The simple statement at the end of the header of a `for`.
    Post,
    /// What follows `else`.
    Else,
    /// A clause of a `select`, except a default.
    Clause,
}

/// A point between two instructions of a function, in the order in which they were emitted.
#[derive(Clone, Copy)]
pub enum Mark {
    /// The next function begins.
    Function,
    /// A part begins, when the function has `at` instructions.
    Begin { part: Part, at: u32 },
    /// The part that began last and has not ended ends, when the function has `at` instructions.
    End { at: u32 },
}

/// The marks of a program, function by function. A part that cannot be reached is not emitted, and has none.
#[derive(Drop)]
pub struct Marks {
    list: Vec<Mark>,
}

impl Marks {
    /// No marks.
    pub fn new(alloc: Global) -> Marks {
        Marks {
            list: Vec::new(alloc),
        }
    }

    /// The marks, the first one first.
    pub fn as_slice(&self) -> &[Mark] {
        self.list.as_slice()
    }

    /// The next function begins.
    ///
    /// Errors: out of memory.
    pub fn begin_function(&mut self) -> Result<(), AllocError> {
        self.list.push(Mark::Function)?;
        Ok(())
    }

    /// A part begins, when the function has `at` instructions.
    ///
    /// Errors: out of memory, or `at` is 2^32 or more.
    pub(crate) fn begin(&mut self, part: Part, at: usize) -> Result<(), AllocError> {
        let at = number(at)?;
        self.list.push(Mark::Begin { part, at })?;
        Ok(())
    }

    /// A part ends, when the function has `at` instructions.
    ///
    /// Errors: out of memory, or `at` is 2^32 or more.
    pub(crate) fn end(&mut self, at: usize) -> Result<(), AllocError> {
        let at = number(at)?;
        self.list.push(Mark::End { at })?;
        Ok(())
    }
}
