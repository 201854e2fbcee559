//! The files of the plans that the program makes.

ghost use Rattle.std.specs.Prelude.{◌≡◌, ◌⊎◌, IfErr};

use go_text::source::MAX_LENGTH;
use go_text::{Fault, Memory};
use kendo_shell::files::is_standard;
use kendo_shell::names::Shown;
use kendo_shell::reason::Reason;
use kendo_shell::streams::tell;
use pauses::{Plan, PlanError, PlanHeader};
use std::alloc::Global;
use std::fs::File;
use std::io::{ErrorKind, Read, Seek, Write};
use std::os::unix::fs::MetadataExt;
use std::{fs, io};

/// How many names are tried for a file before the program gives up.
const TRIES: u64 = 1_000;

/// Writes the plan that `bytes` are, and of which `header` is the header, to a file in `folder`, or in the current folder. Returns the
/// name of the file, without the folder: `STEM.NUMBER.pauses`, or the first of `STEM-2.NUMBER.pauses`, `STEM-3.NUMBER.pauses` and so
/// on that is free. A name is free if there is no such file, or if the file is a plan for the program of the same path as in
/// `header`, and standard output and standard error go elsewhere. All else of that name stays as it is, and so does what a link leads to.
///
/// Errors: `Memory`; `Write` if the folder or the file refuses bytes, or if none of 1,000 names is free.
pub(crate) fn write_plan_file(
    rt: &HostRuntime,
    alloc: Global,
    folder: Option<&str>,
    stem: &str,
    number: usize,
    header: &PlanHeader,
    bytes: &[u8],
) -> Result<String, Fault>
    ensures { IfErr result (λ fault. (fault ≡ Fault.Memory) ⊎ (fault ≡ Fault.Write)) }
{
    for attempt in 1..=TRIES {
        let name = plan_name(alloc, stem, attempt, number)?;
        let path = path_in(alloc, folder, name.as_str())?;
        if write_free(rt, alloc, path.as_str(), header, bytes)? {
            return Ok(name);
        }
    }
    Err(Fault::Write)
}

/// The name of a plan's file that is tried in this attempt, counted from 1.
fn plan_name(alloc: Global, stem: &str, attempt: u64, number: usize) -> Result<String, Memory> {
    if attempt == 1 {
        Ok(format!(in alloc; "{stem}.{number}.pauses")?)
    } else {
        Ok(format!(in alloc; "{stem}-{attempt}.{number}.pauses")?)
    }
}

/// The path of a file of this name in the folder, or in the current one.
fn path_in(alloc: Global, folder: Option<&str>, name: &str) -> Result<String, Memory> {
    match folder {
        Some(folder) => Ok(format!(in alloc; "{folder}/{name}")?),
        None => Ok(String::from_str(alloc, name)?),
    }
}

/// Writes the plan to a new file at the path, or in place of a plan for the same program. Returns false if something else is there.
fn write_free(
    rt: &HostRuntime,
    alloc: Global,
    path: &str,
    header: &PlanHeader,
    bytes: &[u8],
) -> Result<bool, Fault>
    ensures { IfErr result (λ fault. (fault ≡ Fault.Memory) ⊎ (fault ≡ Fault.Write)) }
{
    match write_new(rt, path, bytes) {
        Ok(()) => Ok(true),
        Err(error) if error.kind() == ErrorKind::AlreadyExists => {
            write_over(rt, alloc, path, header, bytes)
        }
        Err(error) => Err(fault_of(&error)),
    }
}

/// Why a file refuses bytes.
fn fault_of(error: &io::Error) -> Fault
    ensures { (result ≡ Fault.Memory) ⊎ (result ≡ Fault.Write) }
{
    match error.kind() {
        ErrorKind::OutOfMemory => Fault::Memory,
        _ => Fault::Write,
    }
}

/// Writes the bytes to a new file, which is removed again if it refuses some.
///
/// Errors: `AlreadyExists` if anything of this path is there, a link too.
fn write_new(rt: &HostRuntime, path: &str, bytes: &[u8]) -> io::Result<()> {
    let mut file = File::options().write(true).create_new(true).open(rt, path)?;
    let written = file.write_all(bytes);
    if written.is_err() {
        let _ = fs::remove_file(rt, path);
    }
    written
}

/// Writes the plan in place of one for the same program. Returns false if something else is at the path.
fn write_over(
    rt: &HostRuntime,
    alloc: Global,
    path: &str,
    header: &PlanHeader,
    bytes: &[u8],
) -> Result<bool, Fault>
    ensures { IfErr result (λ fault. (fault ≡ Fault.Memory) ⊎ (fault ≡ Fault.Write)) }
{
    let Some(mut file) = own_file(rt, alloc, path, header)? else {
        return Ok(false);
    };
    match replace(&mut file, bytes) {
        Ok(()) => Ok(true),
        Err(error) => Err(fault_of(&error)),
    }
}

/// Replaces what is in a file.
fn replace(file: &mut File, bytes: &[u8]) -> io::Result<()> {
    file.set_len(0)?;
    file.rewind()?;
    file.write_all(bytes)
}

/// The file at the path, if it is a plan for the program of the header's path.
fn own_file(
    rt: &HostRuntime,
    alloc: Global,
    path: &str,
    header: &PlanHeader,
) -> Result<Option<File>, Memory> {
    let Ok(Some(mut file)) = regular_file(rt, path) else {
        return Ok(None);
    };
    let Ok(kept) = bytes_of(alloc, &mut file) else {
        return Ok(None);
    };
    if is_own(alloc, kept.as_slice(), header)? {
        Ok(Some(file))
    } else {
        Ok(None)
    }
}

/// The file at the path, if it is a regular one and no link, and no standard stream goes there, for reading and writing. What was opened is what was looked at, so a
/// link that took its place in between isn't followed.
fn regular_file(rt: &HostRuntime, path: &str) -> io::Result<Option<File>> {
    let seen = fs::symlink_metadata(rt, path)?;
    if !seen.is_file() || is_standard(rt, &seen) {
        return Ok(None);
    }
    let file = File::options().read(true).write(true).open(rt, path)?;
    let opened = file.metadata()?;
    if seen.dev() == opened.dev() && seen.ino() == opened.ino() {
        Ok(Some(file))
    } else {
        Ok(None)
    }
}

/// The bytes of a file, up to one more than a plan may have.
fn bytes_of(alloc: Global, file: &mut File) -> io::Result<Vec<u8>> {
    let mut bytes = Vec::new(alloc);
    file.take(MAX_LENGTH as u64 + 1).read_to_end(&mut bytes)?;
    Ok(bytes)
}

/// Whether the bytes are a plan for the program of the header's path.
fn is_own(alloc: Global, bytes: &[u8], header: &PlanHeader) -> Result<bool, Memory> {
    match Plan::read(alloc, bytes) {
        Ok(_plan) => {}
        Err(PlanError::Memory) => return Err(Memory),
        Err(PlanError::Broken(_)) => return Ok(false),
    }
    match PlanHeader::of(alloc, bytes)? {
        Some(kept) => Ok(kept.path.as_slice() == header.path.as_slice()),
        None => Ok(false),
    }
}

/// Whether files can be created in the folder. If not, standard error says so, and, if `explains`, why. The file with which this is
/// tried is removed again.
///
/// Errors: `Memory`.
pub(crate) fn check_folder(
    rt: &HostRuntime,
    alloc: Global,
    folder: &str,
    explains: bool,
) -> Result<bool, Memory> {
    let Some(reason) = refusal(rt, alloc, folder)? else {
        return Ok(true);
    };
    if reason == Reason::OutOfMemory {
        return Err(Memory);
    }
    let folder = Shown(folder);
    let line = format!(in alloc; "kendo: cannot create {folder}\n")?;
    tell(rt, line.as_bytes());
    if explains {
        let why = format!(in alloc; "{folder}: {reason}\n")?;
        tell(rt, why.as_bytes());
    }
    Ok(false)
}

/// Why no file can be created in the folder; `None` if one can.
fn refusal(rt: &HostRuntime, alloc: Global, folder: &str) -> Result<Option<Reason>, Memory> {
    for attempt in 1..=TRIES {
        let path = format!(in alloc; "{folder}/.kendo-{attempt}.pauses")?;
        match write_new(rt, path.as_str(), b"") {
            Ok(()) => {
                let _ = fs::remove_file(rt, path.as_str());
                return Ok(None);
            }
            Err(error) if error.kind() == ErrorKind::AlreadyExists => {}
            Err(error) => return Ok(Some(Reason::of(&error))),
        }
    }
    Ok(Some(Reason::Other))
}
