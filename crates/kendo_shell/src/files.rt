//! The files that a command line names.

ghost use Rattle.std.specs.Prelude.{◌≡◌, IfOk, IfSome};
ghost use Rattle.kendo_shell.specs.Traces.{IsKept, has_file, is_named};

use crate::names::Shown;
use crate::reason::Reason;
use crate::streams::{Stream, tell, tell_as};
use crate::tracing::Trace;
use command_line::arguments::Invocation;
use go_text::Memory;
use go_text::source::MAX_LENGTH;
use std::alloc::Global;
use std::fs::{File, Metadata};
use std::io::Read;
use std::os::unix::fs::MetadataExt;
use std::{fs, io};

/// The path that means standard input, or standard output.
const STANDARD: &str = "-";

/// The paths of the standard streams.
const INPUT: &str = "/dev/stdin";

const OUTPUT: &str = "/dev/stdout";

const ERROR: &str = "/dev/stderr";

/// A regular file, whatever names and links lead to it.
#[derive(Clone, Copy, PartialEq, Eq)]
struct Identity {
    device: u64,
    inode: u64,
}

impl Identity {
    /// Which file this is; `None` of a pipe, a terminal or another device.
    fn of(metadata: &Metadata) -> Option<Identity> {
        metadata.is_file().then(|| Identity {
            device: metadata.dev(),
            inode: metadata.ino(),
        })
    }
}

/// The regular files that no output may be, since it would overwrite them.
#[derive(Clone, Copy)]
struct Taken {
    source: Option<Identity>,
    /// The file of the plan.
    plan: Option<Identity>,
    /// The file of the trace, for the file of its values.
    trace: Option<Identity>,
    standard_output: Option<Identity>,
    standard_error: Option<Identity>,
}

impl Taken {
    /// The source file, the plan of the command, and where the standard streams go.
    fn of(rt: &HostRuntime, invocation: &Invocation<'_, '_>, source: &SourceFile) -> Taken {
        Taken {
            source: source.identity,
            plan: invocation.pauses.and_then(|plan| identity_at(rt, plan)),
            trace: None,
            standard_output: identity_at(rt, OUTPUT),
            standard_error: identity_at(rt, ERROR),
        }
    }

    /// Why an output must not be this file; `None` if it may.
    fn refusal(self, file: Identity) -> Option<Reason> {
        let file = Some(file);
        if file == self.source {
            Some(Reason::IsSource)
        } else if file == self.plan || file == self.trace {
            Some(Reason::IsNamedTwice)
        } else if file == self.standard_output {
            Some(Reason::IsStandardOutput)
        } else if file == self.standard_error {
            Some(Reason::IsStandardError)
        } else {
            None
        }
    }
}

/// The line on standard error if the trace, or its values, would go to standard output.
pub fn output_conflict(invocation: &Invocation<'_, '_>) -> Option<&'static [u8]> {
    if invocation.trace == Some(STANDARD) {
        return Some(b"kendo: --trace can't be -, standard output, where the program prints\n");
    }
    if invocation.values == Some(STANDARD) {
        return Some(b"kendo: --values can't be -, standard output, where the program prints\n");
    }
    None
}

/// A source file that was read.
#[derive(Drop)]
pub struct SourceFile {
    /// Its bytes, at most one more than a program may have.
    pub bytes: Vec<u8>,
    identity: Option<Identity>,
}

/// The bytes of the source file `source`, and the file of its trace or its picture, which is created once the source was read,
/// before anything is judged. `None` if one of them can't be used: standard error says which, and, if the command explains,
/// why. The line begins with `name` if there is one.
///
/// Errors: `Memory`.
pub fn opened(
    rt: &HostRuntime,
    alloc: Global,
    invocation: &Invocation<'_, '_>,
    source: &str,
    name: Option<&str>,
) -> Result<Option<(Vec<u8>, Trace)>, Memory>
    ensures { IfOk result (λ found. IfSome found (λ opened. has_file opened.1 ≡ is_named invocation.now.trace invocation.now.out)) }
{
    let Some(source) = source_file(rt, alloc, invocation, source, name)? else {
        return Ok(None);
    };
    match output_file(rt, alloc, invocation, &source, name)? {
        Some(trace) => {
            let SourceFile { bytes, identity: _ } = source;
            Ok(Some((bytes, trace)))
        }
        None => Ok(None),
    }
}

/// The source file at the path `source`. `None` if it can't be read: standard error says so, as for `opened`.
///
/// Errors: `Memory`.
pub fn source_file(
    rt: &HostRuntime,
    alloc: Global,
    invocation: &Invocation<'_, '_>,
    source: &str,
    name: Option<&str>,
) -> Result<Option<SourceFile>, Memory> {
    match read(rt, alloc, source) {
        Ok((bytes, identity)) => Ok(Some(SourceFile { bytes, identity })),
        Err(error) => {
            let unusable = Unusable::new("read", source, Reason::of(&error));
            unusable.report(rt, alloc, name, invocation.explains)?;
            Ok(None)
        }
    }
}

/// The file of the trace or the picture of a source file, which is created, if one is named. `None` if it can't be used: standard error
/// says so, as for `opened`.
///
/// Errors: `Memory`.
pub fn output_file(
    rt: &HostRuntime,
    alloc: Global,
    invocation: &Invocation<'_, '_>,
    source: &SourceFile,
    name: Option<&str>,
) -> Result<Option<Trace>, Memory>
    ensures { IfOk result (λ found. IfSome found (λ trace. has_file trace ≡ is_named invocation.now.trace invocation.now.out)) }
{
    let Some(path) = invocation.trace.or(invocation.out) else {
        return Ok(Some(Trace::Dropped));
    };
    let taken = Taken::of(rt, invocation, source);
    match create(rt, path, &taken) {
        Ok(trace) => Ok(Some(trace)),
        Err(reason) => {
            let unusable = Unusable::new("create", path, reason);
            unusable.report(rt, alloc, name, invocation.explains)?;
            Ok(None)
        }
    }
}

/// The files of the trace and of its values, each created if it is named. `None` if one of them can't be used, or is a file that must not be
/// overwritten: standard error says so, as for `opened`, and no file is changed.
///
/// Errors: `Memory`.
pub fn output_files(
    rt: &HostRuntime,
    alloc: Global,
    invocation: &Invocation<'_, '_>,
    source: &SourceFile,
) -> Result<Option<(Trace, Trace)>, Memory>
    ensures { IfOk result (λ found. IfSome found (λ files. has_file files.0 ≡ is_named invocation.now.trace invocation.now.out)) }
{
    if !are_apart(rt, alloc, invocation, source)? {
        return Ok(None);
    }
    let is_new = is_missing(rt, invocation.trace);
    let Some(trace) = output_file(rt, alloc, invocation, source, None)? else {
        return Ok(None);
    };
    match values_file(rt, alloc, invocation, source)? {
        Some(values) => Ok(Some((trace, values))),
        None => {
            if is_new {
                remove(rt, invocation.trace);
            }
            Ok(None)
        }
    }
}

/// Whether the file of the values is none that must not be overwritten, as far as that is known before the trace's file is created; else
/// standard error says so.
fn are_apart(
    rt: &HostRuntime,
    alloc: Global,
    invocation: &Invocation<'_, '_>,
    source: &SourceFile,
) -> Result<bool, Memory> {
    let Some(path) = invocation.values else {
        return Ok(true);
    };
    let taken = Taken::of(rt, invocation, source);
    let trace = invocation.trace.and_then(|trace| identity_at(rt, trace));
    if trace.and_then(|trace| taken.refusal(trace)).is_some() {
        // The trace's own file is refused, which comes first.
        return Ok(true);
    }
    let reason = if invocation.trace == Some(path) {
        Some(Reason::IsNamedTwice)
    } else {
        let values = identity_at(rt, path);
        values.and_then(|values| Taken { trace, ..taken }.refusal(values))
    };
    match reason {
        Some(reason) => {
            let unusable = Unusable::new("create", path, reason);
            unusable.report(rt, alloc, None, invocation.explains)?;
            Ok(false)
        }
        None => Ok(true),
    }
}

/// The file of the values of a trace, which is created, if one is named. The file of the trace is there.
fn values_file(
    rt: &HostRuntime,
    alloc: Global,
    invocation: &Invocation<'_, '_>,
    source: &SourceFile,
) -> Result<Option<Trace>, Memory> {
    let Some(path) = invocation.values else {
        return Ok(Some(Trace::Dropped));
    };
    let trace = invocation.trace.and_then(|trace| identity_at(rt, trace));
    let taken = Taken {
        trace,
        ..Taken::of(rt, invocation, source)
    };
    match create(rt, path, &taken) {
        Ok(values) => Ok(Some(values)),
        Err(reason) => {
            let unusable = Unusable::new("create", path, reason);
            unusable.report(rt, alloc, None, invocation.explains)?;
            Ok(None)
        }
    }
}

/// Whether a path is named at which there is nothing.
fn is_missing(rt: &HostRuntime, path: Option<&str>) -> bool {
    match path {
        Some(path) => fs::symlink_metadata(rt, path).is_err(),
        None => false,
    }
}

/// Removes the file at a path, if one is named.
fn remove(rt: &HostRuntime, path: Option<&str>) {
    if let Some(path) = path {
        let _removed = fs::remove_file(rt, path);
    }
}

/// Whether the file at the path is a regular one to which standard output or standard error goes.
pub fn is_standard(rt: &HostRuntime, file: &Metadata) -> bool {
    match Identity::of(file) {
        Some(identity) => {
            let streams = [identity_at(rt, OUTPUT), identity_at(rt, ERROR)];
            streams.iter().any(|stream| *stream == Some(identity))
        }
        None => false,
    }
}

/// Which file is at a path; `None` if there is none.
fn identity_at(rt: &HostRuntime, path: &str) -> Option<Identity> {
    let path = if path == STANDARD { INPUT } else { path };
    match fs::metadata(rt, path) {
        Ok(metadata) => Identity::of(&metadata),
        Err(_) => None,
    }
}

/// The bytes of the file at `path`, which is not a source file. `None` if it can't be read, or is longer than a source file may be:
/// standard error says so, and, if the command explains, why.
///
/// Errors: `Memory`.
pub fn other_bytes(
    rt: &HostRuntime,
    alloc: Global,
    path: &str,
    explains: bool,
) -> Result<Option<Vec<u8>>, Memory> {
    let reason = match read_file(rt, alloc, path) {
        Ok(bytes) if bytes.len() <= MAX_LENGTH => return Ok(Some(bytes)),
        Ok(_) => Reason::TooLong,
        Err(error) => Reason::of(&error),
    };
    let unusable = Unusable::new("read", path, reason);
    unusable.report(rt, alloc, None, explains)?;
    Ok(None)
}

/// Like `other_bytes`, but of a file of any length.
///
/// Errors: `Memory`.
pub fn all_bytes(
    rt: &HostRuntime,
    alloc: Global,
    path: &str,
    explains: bool,
) -> Result<Option<Vec<u8>>, Memory> {
    match read_all(rt, alloc, path) {
        Ok(bytes) => Ok(Some(bytes)),
        Err(error) => {
            let unusable = Unusable::new("read", path, Reason::of(&error));
            unusable.report(rt, alloc, None, explains)?;
            Ok(None)
        }
    }
}

/// The bytes of a file.
fn read_all(rt: &HostRuntime, alloc: Global, path: &str) -> io::Result<Vec<u8>> {
    let mut bytes = Vec::new(alloc);
    let mut file = File::open(rt, path)?;
    file.read_to_end(&mut bytes)?;
    Ok(bytes)
}

/// The bytes of a file, up to one more than a source file may have.
fn read_file(rt: &HostRuntime, alloc: Global, path: &str) -> io::Result<Vec<u8>> {
    read_source(alloc, File::open(rt, path)?)
}

/// The bytes of a source file, and which file it is.
fn read(rt: &HostRuntime, alloc: Global, path: &str) -> io::Result<(Vec<u8>, Option<Identity>)> {
    if path == STANDARD {
        let identity = identity_at(rt, INPUT);
        return Ok((read_source(alloc, rt.stdin())?, identity));
    }
    let file = File::open(rt, path)?;
    let identity = Identity::of(&file.metadata()?);
    Ok((read_source(alloc, file)?, identity))
}

/// The bytes of a reader, up to one more than a program may have: a longer one is refused whatever follows.
fn read_source<R: Read + Drop>(alloc: Global, reader: R) -> io::Result<Vec<u8>> {
    let mut bytes = Vec::new(alloc);
    reader.take(MAX_LENGTH as u64 + 1).read_to_end(&mut bytes)?;
    Ok(bytes)
}

/// The file of this path, which is created, or emptied if it is there and is none of those that are taken.
fn create(rt: &HostRuntime, path: &str, taken: &Taken) -> Result<Trace, Reason>
    ensures { IfOk result IsKept }
{
    match create_other(rt, path, taken) {
        Ok(Ok(file)) => Ok(Trace::Kept(Stream::new(rt, file))),
        Ok(Err(reason)) => Err(reason),
        Err(error) => Err(Reason::of(&error)),
    }
}

/// Like `create`; or why the file is one of those that are taken, which stays as it is. A file that is opened while a standard stream is
/// closed gets the stream's descriptor, and would get what is written to the stream. Its clone gets a descriptor above these.
fn create_other(rt: &HostRuntime, path: &str, taken: &Taken) -> io::Result<Result<File, Reason>> {
    let first = File::options().write(true).create(true).open(rt, path)?;
    let file = first.try_clone()?;
    drop(first);
    let Some(identity) = Identity::of(&file.metadata()?) else {
        return Ok(Ok(file));
    };
    if let Some(reason) = taken.refusal(identity) {
        return Ok(Err(reason));
    }
    file.set_len(0)?;
    Ok(Ok(file))
}

/// A file that can't be used.
#[derive(Clone, Copy)]
struct Unusable<'a> {
    /// What can't be done with it.
    verb: &'static str,
    /// Its path, as it was typed.
    path: &'a str,
    reason: Reason,
}

impl<'a> Unusable<'a> {
    fn new(verb: &'static str, path: &'a str, reason: Reason) -> Unusable<'a> {
        Unusable { verb, path, reason }
    }

    /// Writes on standard error that the file can't be used, in a line that begins with `name` if there is one, and then why, if
    /// that is to be explained.
    fn report(
        self,
        rt: &HostRuntime,
        alloc: Global,
        name: Option<&str>,
        explains: bool,
    ) -> Result<(), Memory> {
        let Unusable { verb, path, reason } = self;
        if reason == Reason::OutOfMemory {
            return Err(Memory);
        }
        let path = Shown(path);
        let line = format!(in alloc; "kendo: cannot {verb} {path}\n")?;
        tell_as(rt, alloc, name, line.as_bytes())?;
        if explains {
            let why = format!(in alloc; "{path}: {reason}\n")?;
            tell(rt, why.as_bytes());
        }
        Ok(())
    }
}
