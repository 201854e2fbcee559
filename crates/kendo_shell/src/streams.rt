//! The standard streams, and the exit status.

ghost use Rattle.std.specs.Prelude.{◌≡◌, ◌≤◌, IfOk, IsErr, IsTrue, length};
ghost use Rattle.std.specs.Process.{exit_status};
ghost use Rattle.kendo_report.specs.Outcome.{report_status};

use crate::MEMORY;
use crate::names::shown_name;
use crate::reason::Reason;
use crate::tracing::Refused;
use go_text::{Fault, Memory};
use kendo_report::report;
use std::alloc::Global;
use std::io::{ErrorKind, IsTerminal};
use std::process::ExitCode;
use std::time::Duration;
use std::{io, thread};
use word::end::End;
use word::{Write, WriteFault, write_all};

/// How many milliseconds a stream that takes nothing for now is left alone.
const NAP: u64 = 1;

/// A writer that hands bytes on at once, so that they are seen at once and nothing is lost however the process ends. It waits for what
/// takes no bytes for now, as a pipe that another program set not to block. It remembers why it first refused bytes.
#[derive(Drop)]
pub struct Stream<W: Drop> {
    rt: HostRuntime,
    inner: W,
    refusal: Option<Reason>,
}

impl<W: io::Write + Drop> Stream<W> {
    ghost use Rattle.std.specs.Prelude.{false};
    ghost use Rattle.kendo_shell.specs.Streams.{has_refused};

    /// A stream to this writer, which has refused nothing.
    pub fn new(rt: &HostRuntime, inner: W) -> Stream<W>
        ensures { has_refused result ≡ false }
    {
        Stream {
            rt: *rt,
            inner,
            refusal: None,
        }
    }

    /// Why bytes were first refused; `None` if none were.
    pub fn refusal(&self) -> Option<Reason> {
        self.refusal
    }

    /// Notes why bytes are refused, unless some were refused before.
    fn refuse(&mut self, reason: Reason)
        ensures { IsTrue (has_refused self.new) }
    {
        if self.refusal.is_none() {
            self.refusal = Some(reason);
        }
    }
}

impl<W: io::Write + Drop> Write for Stream<W> {
    ghost use Rattle.kendo_shell.specs.Streams.{has_refused};

    ghost has_failed = { λ stream. has_refused stream };

    fn write(&mut self, piece: &[u8]) -> Result<usize, WriteFault> {
        match write_when_ready(&self.rt, &mut self.inner, piece) {
            Ok(taken) => {
                if taken == 0 && !piece.is_empty() {
                    self.refuse(Reason::TookNothing);
                }
                Ok(taken)
            }
            // An interrupted write counts as any other error.
            Err(error) => {
                self.refuse(Reason::of(&error));
                Err(WriteFault)
            }
        }
    }
}

/// Writes a beginning of the piece, and returns how many bytes of it were taken. As long as the writer says that it would block, it is
/// asked again.
fn write_when_ready<W: io::Write>(
    rt: &HostRuntime,
    writer: &mut W,
    piece: &[u8],
) -> io::Result<usize>
    ensures { IfOk result (λ taken. taken ≤ length piece.now) }
{
    for _ in 0..u64::MAX {
        match writer.write(piece) {
            Ok(taken) => return Ok(taken),
            Err(error) if error.kind() != ErrorKind::WouldBlock => return Err(error),
            Err(_) => thread::sleep(rt, Duration::from_millis(NAP)),
        }
    }
    Err(io::Error::from(ErrorKind::WouldBlock))
}

/// Writes a line to standard error. The exit status says what happened even if the line is lost.
pub fn tell(rt: &HostRuntime, line: &[u8]) {
    let mut stream = Stream::new(rt, rt.stderr());
    let _told = write_all(&mut stream, line);
}

/// Like `told`, for a command whose output was refused so. If the reader of standard output went away, as `head` does once it has its
/// lines, a terminal is told nothing.
///
/// Errors: `Memory`.
pub fn told_of_refusal(
    rt: &HostRuntime,
    alloc: Global,
    name: Option<&str>,
    outcome: &Result<End, Fault>,
    refused: Option<Refused>,
) -> Result<u8, Memory>
    ensures { IfOk result (λ status. status ≡ report_status outcome.now) }
{
    if !is_unread(outcome, refused) || !rt.stderr().is_terminal() {
        return told(rt, alloc, name, outcome);
    }
    let (_line, status) = report(alloc, outcome)?;
    Ok(status)
}

/// Whether a command ended because the reader of its standard output went away.
pub fn is_unread(outcome: &Result<End, Fault>, refused: Option<Refused>) -> bool {
    matches!(outcome, Err(Fault::Write))
        && matches!(refused, Some(Refused::Standard(Reason::ClosedPipe)))
}

/// Writes the line that reports this outcome to standard error, and returns its exit status. The line begins with `name` if there
/// is one, else with the program's name.
///
/// Errors: `Memory`.
pub fn told(
    rt: &HostRuntime,
    alloc: Global,
    name: Option<&str>,
    outcome: &Result<End, Fault>,
) -> Result<u8, Memory>
    ensures { IfOk result (λ status. status ≡ report_status outcome.now) }
{
    let (line, status) = report(alloc, outcome)?;
    tell_as(rt, alloc, name, line.as_slice())?;
    Ok(status)
}

/// Writes `line` to standard error. `name`, if there is one, replaces a `kendo` at its beginning.
///
/// Errors: `Memory`.
pub(crate) fn tell_as(
    rt: &HostRuntime,
    alloc: Global,
    name: Option<&str>,
    line: &[u8],
) -> Result<(), Memory> {
    match (name, line.strip_prefix(b"kendo".as_slice())) {
        (Some(name), Some(rest)) => {
            let mut named = shown_name(alloc, name)?.into_bytes();
            named.extend_from_slice(rest)?;
            tell(rt, named.as_slice());
        }
        _ => tell(rt, line),
    }
    Ok(())
}

/// How the program exits with this status, or out of memory.
pub fn exit(rt: &HostRuntime, found: Result<u8, Memory>) -> ExitCode
    ensures found { IfOk found (λ status. exit_status result ≡ status) }
    ensures memory { IsErr found → exit_status result ≡ MEMORY }
{
    let status = match found {
        Ok(status) => status,
        Err(Memory) => {
            tell(rt, b"kendo: 13 Memory\n".as_slice());
            MEMORY
        }
    };
    ExitCode::from(status)
}
