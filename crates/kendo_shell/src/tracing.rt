//! The file of a trace or a picture.

ghost use Rattle.std.specs.Prelude.{◌≡◌, None, false};
ghost use Rattle.kendo_shell.specs.Traces.{has_file};

use crate::reason::Reason;
use crate::streams::Stream;
use std::fs::File;
use std::io::Stdout;
use word::{Write, WriteFault};
use workers::TraceWriter;

/// The file of a trace or a picture, if one is named.
#[derive(Drop)]
pub enum Trace {
    /// No file: lines are dropped, which never fails.
    Dropped,
    /// A file.
    Kept(Stream<File>),
}

impl Write for Trace {
    ghost use Rattle.kendo_shell.specs.Traces.{has_lost};

    ghost has_failed = { λ trace. has_lost trace };

    fn write(&mut self, piece: &[u8]) -> Result<usize, WriteFault> {
        match self {
            Trace::Dropped => Ok(piece.len()),
            Trace::Kept(file) => file.write(piece),
        }
    }
}

impl TraceWriter for Trace {
    /// A file is read, dropped lines are not.
    fn is_read(&self) -> bool
        ensures unknown { result ≡ false → ⟦<Trace as Write>⟧.contents self.now ≡ None }
        ensures file { result ≡ has_file self.now }
    {
        matches!(self, Trace::Kept(_))
    }
}

impl Trace {
    /// Why bytes were first refused; `None` if none were.
    fn refusal(&self) -> Option<Reason> {
        match self {
            Trace::Dropped => None,
            Trace::Kept(file) => file.refusal(),
        }
    }
}

/// An output that a command writes to.
#[derive(Drop)]
pub struct Outputs {
    /// Standard output.
    pub standard: Stream<Stdout>,
    /// The file of the trace or the picture.
    pub file: Trace,
    /// The file of the values of the trace.
    pub values: Trace,
}

/// An output that refused bytes, and why.
#[derive(Clone, Copy)]
pub enum Refused {
    /// Standard output.
    Standard(Reason),
    /// The file of the trace or the picture.
    File(Reason),
    /// The file of the values.
    Values(Reason),
}

impl Outputs {
    /// Standard output, and this file.
    pub fn new(rt: &HostRuntime, file: Trace) -> Outputs {
        Outputs {
            standard: Stream::new(rt, rt.stdout()),
            file,
            values: Trace::Dropped,
        }
    }

    /// These outputs, with this file for the values.
    pub fn with_values(self, values: Trace) -> Outputs {
        Outputs {
            standard: self.standard,
            file: self.file,
            values,
        }
    }

    /// Which output refused bytes, and why; `None` if none did.
    pub fn refused(&self) -> Option<Refused> {
        match self.standard.refusal() {
            Some(reason) => Some(Refused::Standard(reason)),
            None => match self.file.refusal() {
                Some(reason) => Some(Refused::File(reason)),
                None => self.values.refusal().map(Refused::Values),
            },
        }
    }
}
