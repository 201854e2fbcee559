//! Why a file or a stream can't be used.

use std::io::ErrorKind;
use std::{fmt, io};

/// Why a file or a stream can't be used.
#[derive(Clone, Copy, PartialEq, Eq)]
pub enum Reason {
    /// Memory was refused.
    OutOfMemory,
    /// There is no such file.
    NotFound,
    /// The file may not be used in this way.
    PermissionDenied,
    /// It is a directory.
    IsDirectory,
    /// A part of its path is not a directory.
    NotDirectory,
    /// Nothing may be written there.
    ReadOnly,
    /// The disk, or the user's part of it, is full.
    NoSpace,
    /// The reading end of the pipe is closed.
    ClosedPipe,
    /// It took no byte.
    TookNothing,
    /// It is the source file, which would be overwritten.
    IsSource,
    /// It is another file that the command names.
    IsNamedTwice,
    /// It is the file that standard output goes to.
    IsStandardOutput,
    /// It is the file that standard error goes to.
    IsStandardError,
    /// It is longer than a source file may be.
    TooLong,
    /// Another error of the system.
    Other,
}

impl Reason {
    /// The reason that the system gave.
    pub fn of(error: &io::Error) -> Reason {
        match error.kind() {
            ErrorKind::OutOfMemory => Reason::OutOfMemory,
            ErrorKind::NotFound => Reason::NotFound,
            ErrorKind::PermissionDenied => Reason::PermissionDenied,
            ErrorKind::IsADirectory => Reason::IsDirectory,
            ErrorKind::NotADirectory => Reason::NotDirectory,
            ErrorKind::ReadOnlyFilesystem => Reason::ReadOnly,
            ErrorKind::StorageFull | ErrorKind::QuotaExceeded | ErrorKind::FileTooLarge => {
                Reason::NoSpace
            }
            ErrorKind::BrokenPipe => Reason::ClosedPipe,
            _ => Reason::Other,
        }
    }
}

impl fmt::Display for Reason {
    fn fmt<W: fmt::Write>(&self, f: &mut fmt::Formatter<W>) -> fmt::Result {
        f.write_str(match *self {
            Reason::OutOfMemory => "out of memory",
            Reason::NotFound => "no such file or directory",
            Reason::PermissionDenied => "permission denied",
            Reason::IsDirectory => "is a directory",
            Reason::NotDirectory => "a part of the path is not a directory",
            Reason::ReadOnly => "read-only file system",
            Reason::NoSpace => "no space left on the device",
            Reason::ClosedPipe => "the pipe is closed: nobody reads it any more",
            Reason::TookNothing => "no byte was taken",
            Reason::IsSource => "is the source file, which would be overwritten",
            Reason::IsNamedTwice => "is named twice, and would be overwritten",
            Reason::IsStandardOutput => "is where standard output goes, which would be overwritten",
            Reason::IsStandardError => "is where standard error goes, which would be overwritten",
            Reason::TooLong => "is longer than 1,048,576 bytes",
            Reason::Other => "input or output error",
        })
    }
}
