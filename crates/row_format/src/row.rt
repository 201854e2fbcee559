//! What a row expects of a program's runs.

use crate::row_error::RowError;
use std::alloc::{AllocError, Global};

/// The clock limit if a row states none.
pub const LIMIT: u64 = 1_099_511_627_776;

/// How a program is run, and what is expected of it besides its output.
#[derive(Drop)]
pub struct Row {
    /// The clock limit.
    pub limit: u64,
    /// The numbers of workers, with each of which the program is run.
    pub workers: Vec<u64>,
    /// The exit status.
    pub status: u8,
    /// The line on standard error; if it ends in `..`, only its beginning.
    pub error: String,
}

impl Row {
    /// The row of an empty `.row` file: a run that finishes.
    pub fn new(alloc: Global) -> Result<Row, AllocError> {
        Ok(Row {
            limit: LIMIT,
            workers: Vec::from_slice(alloc, &[1, 2, 64])?,
            status: 0,
            error: String::new(alloc),
        })
    }

    /// The row that the lines of a `.row` state.
    pub fn parse(alloc: Global, text: &str) -> Result<Row, RowError> {
        let mut row = Row::new(alloc)?;
        for (before, line) in text.lines().enumerate() {
            if !row.take(alloc, line)? {
                return Err(RowError::Unread(before.saturating_add(1)));
            }
        }
        Ok(row)
    }

    /// Takes a line: a word, a space and its value, or a comment. False if it has no such form.
    fn take(&mut self, alloc: Global, line: &str) -> Result<bool, AllocError> {
        if line.is_empty() || line.starts_with('#') {
            return Ok(true);
        }
        match line.split_once(' ') {
            Some(("limit", value)) => Ok(put(&mut self.limit, value.parse().ok())),
            Some(("status", value)) => Ok(put(&mut self.status, value.parse().ok())),
            Some(("workers", value)) => Ok(put(&mut self.workers, numbers(alloc, value)?)),
            Some(("error", value)) => {
                self.error = value.to_string(alloc)?;
                Ok(true)
            }
            _ => Ok(false),
        }
    }
}

/// Stores a value in `place`, if there is one; returns whether there was.
fn put<T: Drop>(place: &mut T, value: Option<T>) -> bool {
    match value {
        Some(value) => {
            *place = value;
            true
        }
        None => false,
    }
}

/// The numbers of a line, if all its words are numbers.
fn numbers(alloc: Global, line: &str) -> Result<Option<Vec<u64>>, AllocError> {
    let mut numbers = Vec::new(alloc);
    for word in line.split(' ') {
        match word.parse::<u64>() {
            Ok(number) => numbers.push(number)?,
            Err(_) => return Ok(None),
        }
    }
    Ok(Some(numbers))
}
