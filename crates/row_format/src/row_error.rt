//! What can be wrong with a file of rows.

use go_text::Fault;
use std::alloc::{AllocError, AllocFailed, Global};
use std::io;
use thiserror::Error;

/// How many bytes of what was wanted, and of what came, are shown.
const SHOWN: usize = 80;

/// How many of them are before the first byte that differs.
const BEFORE: usize = 20;

/// Why a file of rows fails.
#[derive(Debug, Drop, Error)]
pub enum RowError {
    /// A call of a crate, named by what it must show, shows something else.
    #[error("it does not hold")]
    Call,
    /// A folder has no rows in its folders.
    #[error("it has no rows")]
    NoRows,
    /// No file of a row has such a name.
    #[error("it belongs to no row")]
    Stranger,
    /// A file that states the expected result of a program has none next to it.
    #[error("it has no text beside it")]
    NoText,
    /// No file next to a program states its expected result.
    #[error("nothing beside it tells what comes of it")]
    NothingTold,
    /// A file of rows is not UTF-8.
    #[error("it is not UTF-8")]
    NotUtf8,
    /// This line, counted from 1, has no form of its file.
    #[error("line {0} cannot be read")]
    Unread(usize),
    /// A line of a table has no expectation before its source.
    #[error("it has no tab between what is told and a text")]
    Form,
    /// A written source has a backslash before something other than its escapes.
    #[error("a backslash escapes nothing")]
    Escape,
    /// `came` differs from `wanted` from this byte on, counted from 0.
    #[error("{what}, at byte {at}: wanted {wanted}, came {came}")]
    Differs {
        what: String,
        at: usize,
        wanted: String,
        came: String,
    },
    /// A source that was to be read was refused, or the other way round.
    #[error("wanted {wanted}, came {came}")]
    Outcome {
        wanted: &'static str,
        came: String,
    },
    /// The source was refused although its tokens, its tree, its code or its events were wanted, or memory was refused.
    #[error("{0}")]
    Refused(Fault),
    /// A file could not be read.
    #[error("{0}")]
    Io(io::Error),
}

impl From<io::Error> for RowError {
    fn from(error: io::Error) -> RowError {
        RowError::Io(error)
    }
}

impl From<Fault> for RowError {
    fn from(fault: Fault) -> RowError {
        RowError::Refused(fault)
    }
}

impl From<AllocError> for RowError {
    fn from(_error: AllocError) -> RowError {
        RowError::Refused(Fault::Memory)
    }
}

impl<T: Drop> From<AllocFailed<T>> for RowError {
    fn from(_error: AllocFailed<T>) -> RowError {
        RowError::Refused(Fault::Memory)
    }
}

/// Compares what came with what was wanted; `what` names it.
pub fn same(alloc: Global, what: &str, wanted: &[u8], came: &[u8]) -> Result<(), RowError> {
    if wanted == came {
        return Ok(());
    }
    let pairs = wanted.iter().zip(came.iter());
    let at = pairs.take_while(|(left, right)| left == right).count();
    Err(RowError::Differs {
        what: what.to_string(alloc)?,
        at,
        wanted: shown(alloc, wanted, at)?,
        came: shown(alloc, came, at)?,
    })
}

/// Some bytes in quotes, from shortly before offset `at` on.
pub fn shown(alloc: Global, bytes: &[u8], at: usize) -> Result<String, AllocError> {
    let from = at.saturating_sub(BEFORE).min(bytes.len());
    let rest = &bytes[from..];
    let piece = String::from_utf8_lossy(alloc, &rest[..rest.len().min(SHOWN)])?;
    let following = if rest.len() > SHOWN { " .." } else { "" };
    format!(in alloc; "{piece:?}{following}")
}
