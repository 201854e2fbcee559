//! The update of the output comments of programs.

ghost use Rattle.std.specs.Prelude.{◌≡◌, ◌⊎◌, IfErr, IfOk};
ghost use Rattle.kendo.specs.Verdicts.{Judges, passes};
ghost use Rattle.kendo_shell.specs.Answers.{IsOfOne};

use crate::exploring::{Task, write};
use crate::testing::{is_passed, report, report_of};
use command_line::arguments::{Invocation, Subcommand};
use go_text::{Fault, Memory};
use kendo_shell::USAGE;
use kendo_shell::names::Shown;
use kendo_shell::streams::tell;
use kendo_shell::tracing::{Outputs, Trace};
use kendo_test::{TestOptions, Tested, Updated, update_bytes};
use std::alloc::Global;
use std::fs::File;
use std::io::{ErrorKind, Write};
use std::sync::Wait;
use std::thread::Threads;
use std::time::Instant;
use std::{fs, io};

/// How many names are tried for the new file before the program gives up.
const TRIES: u64 = 1_000;

/// Tests the program of a file, whose bytes these are, and rewrites its comments if it fails or has none. The file gets the new comments
/// if the program passes with them; it is replaced as a whole.
pub(crate) fn update_program(
    task: Task<'_, '_, '_>,
    threads: &(impl Threads + Wait + Sync),
    invocation: &Invocation<'_, '_>,
    bytes: Vec<u8>,
) -> Result<u8, Memory>
    ensures { IfOk result (IsOfOne (Judges invocation.now)) }
{
    let Subcommand::Test { limit, .. } = invocation.subcommand else {
        return Ok(USAGE);
    };
    let options = TestOptions {
        limit,
        orders: None,
        leaks: invocation.leaks,
    };
    let start = Instant::now(task.rt).ok();
    let updated = match update_bytes(threads, task.alloc, bytes.as_slice(), options) {
        Ok(updated) => updated,
        Err(Fault::Memory) => return Err(Memory),
        Err(_) => return Ok(USAGE),
    };
    if !is_written(task, &updated)? {
        return Ok(USAGE);
    }
    let took = start.and_then(|start| start.elapsed(task.rt).ok());
    let lines = report_of(task, &updated.tested, took)?;
    let mut outputs = Outputs::new(task.rt, Trace::Dropped);
    let passed = written(&updated.tested, lines.as_slice(), &mut outputs);
    report(task.rt, task.alloc, passed, outputs.refused())
}

/// Whether the program passes, once the lines that say so are written.
fn written(tested: &Tested, lines: &[u8], outputs: &mut Outputs) -> Result<bool, Fault>
    ensures passed { IfOk result (λ passed. passed ≡ passes tested.now.verdict) }
    ensures only { IfErr result (λ fault. (fault ≡ Fault.Memory) ⊎ (fault ≡ Fault.Write)) }
{
    write(lines, outputs)?;
    Ok(is_passed(&tested.verdict))
}

/// Writes the program with its new comments to its file, if it has some. Returns false if the file can't be replaced: standard error
/// says so.
fn is_written(task: Task<'_, '_, '_>, updated: &Updated) -> Result<bool, Memory> {
    let Some(text) = &updated.text else {
        return Ok(true);
    };
    let Task {
        rt,
        alloc,
        file,
        ..
    } = task;
    match replace(rt, alloc, file, text.as_slice()) {
        Ok(()) => Ok(true),
        Err(error) if error.kind() == ErrorKind::OutOfMemory => Err(Memory),
        Err(_) => {
            let file = Shown(file);
            let line = format!(in alloc; "kendo: cannot rewrite {file}\n")?;
            tell(rt, line.as_bytes());
            Ok(false)
        }
    }
}

/// Replaces the file at the path, or the one that a link there leads to, by one with these bytes and the same permissions. A file that is
/// written only in part takes no file's place.
fn replace(rt: &HostRuntime, alloc: Global, path: &str, bytes: &[u8]) -> io::Result<()> {
    let path = fs::canonicalize(rt, path)?;
    let path = path.as_str();
    let permissions = fs::metadata(rt, path)?.permissions();
    for attempt in 1..=TRIES {
        let other = format!(in alloc; "{path}.{attempt}.tmp")?;
        let other = other.as_str();
        match File::options().write(true).create_new(true).open(rt, other) {
            Ok(mut file) => {
                let written = fill(&mut file, bytes, permissions);
                let moved = written.and_then(|()| fs::rename(rt, other, path));
                if moved.is_err() {
                    let _ = fs::remove_file(rt, other);
                }
                return moved;
            }
            Err(error) if error.kind() == ErrorKind::AlreadyExists => {}
            Err(error) => return Err(error),
        }
    }
    Err(io::Error::from(ErrorKind::AlreadyExists))
}

/// Writes the bytes to a new file, down to the disk.
fn fill(file: &mut File, bytes: &[u8], permissions: fs::Permissions) -> io::Result<()> {
    file.set_permissions(permissions)?;
    file.write_all(bytes)?;
    file.sync_all()
}
