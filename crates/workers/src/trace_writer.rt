//! Writers of traces.

ghost use Rattle.std.specs.Prelude.{◌≡◌, None, false, true};

use std::io;
use word::{Flagged, Write};

/// What takes the lines of a run's trace.
pub trait TraceWriter: Write {
    /// Whether the trace is read. If it is not, no line is made.
    fn is_read(&self) -> bool
        ensures { result ≡ false → Self.contents self.now ≡ None };
}

impl<W: io::Write + Drop> TraceWriter for Flagged<W> {
    /// Always.
    fn is_read(&self) -> bool
        ensures { result ≡ true }
    {
        true
    }
}
