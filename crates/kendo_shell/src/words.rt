//! The words of a command line, and what is shown of those that are no command.

ghost use Rattle.std.specs.Prelude.{◌≡◌, ◌↔◌, IsErr, IfOk};
ghost use Rattle.clap.specs.Values.{kind_of};
ghost use Rattle.kendo_shell.specs.Answers.{ShowsAs, first_failed};

use crate::streams::tell;
use crate::suggestion::suggest;
use crate::{USAGE, WRITE};
use clap::error::ErrorKind;
use command_line::arguments::Invocation;
use command_line::numbers::plain_words;
use go_text::Memory;
use std::alloc::Global;
use std::env::VarError;
use std::io::IsTerminal;
use std::{env, io};

/// The words of the command line, the first of which is the program's name, with numbers of options as digits alone. `None` if one is not
/// UTF-8, which is reported on standard error.
///
/// Errors: `Memory`.
pub fn words_in(rt: &HostRuntime, alloc: Global) -> Result<Option<Vec<String>>, Memory> {
    match env::args(rt) {
        Ok(words) => {
            let words: Vec<String> = words.collect(alloc)?;
            Ok(Some(plain_words(alloc, words.as_slice())?))
        }
        Err(error) if error.kind() == io::ErrorKind::OutOfMemory => Err(Memory),
        Err(_) => {
            tell(rt, b"kendo: an argument is not UTF-8\n".as_slice());
            Ok(None)
        }
    }
}

/// The invocation, which also explains if the environment has `KENDO_EXPLAIN=1`, or if standard error is a terminal and the
/// environment does not have `KENDO_EXPLAIN=0`.
pub fn with_environment<'m, 'a>(
    rt: &HostRuntime,
    invocation: &Invocation<'m, 'a>,
) -> Invocation<'m, 'a>
    ensures { result ≡ record invocation.now { explains = result.explains } }
{
    let by_default = explains_by_variable(rt).unwrap_or_else(|| rt.stderr().is_terminal());
    Invocation {
        explains: invocation.explains || by_default,
        ..*invocation
    }
}

/// The invocation, which also explains if the environment has `KENDO_EXPLAIN=1`.
pub fn with_variable<'m, 'a>(
    rt: &HostRuntime,
    invocation: &Invocation<'m, 'a>,
) -> Invocation<'m, 'a>
    ensures { result ≡ record invocation.now { explains = result.explains } }
{
    let by_default = explains_by_variable(rt).unwrap_or(false);
    Invocation {
        explains: invocation.explains || by_default,
        ..*invocation
    }
}

/// Whether commands explain by the environment's `KENDO_EXPLAIN`: true for `1`, false for `0`; `None` for anything else.
fn explains_by_variable(rt: &HostRuntime) -> Option<bool> {
    match env::var(rt, "KENDO_EXPLAIN") {
        Ok(value) if value.as_str() == "1" => Some(true),
        Ok(value) if value.as_str() == "0" => Some(false),
        _ => None,
    }
}

/// Whether standard error shows colours: it is a terminal, `TERM` names one other than `dumb`, and `NO_COLOR` is not set or empty.
pub fn has_colors(rt: &HostRuntime) -> bool {
    rt.stderr().is_terminal() && names_terminal(rt) && !refuses_colors(rt)
}

/// Whether the environment's `TERM` names a terminal that understands escape sequences.
fn names_terminal(rt: &HostRuntime) -> bool {
    match env::var(rt, "TERM") {
        Ok(name) => !matches!(name.as_str(), "" | "dumb"),
        Err(_) => false,
    }
}

/// Whether the environment has a `NO_COLOR` that is not empty.
fn refuses_colors(rt: &HostRuntime) -> bool {
    match env::var(rt, "NO_COLOR") {
        Ok(value) => !value.is_empty(),
        Err(VarError::NotPresent) => false,
        Err(_) => true,
    }
}

/// The name of a file with which its lines on standard error begin, if the command has several files.
pub fn name_of<'f>(invocation: &Invocation<'_, '_>, file: &'f str) -> Option<&'f str> {
    if invocation.files.len() > 1 {
        Some(file)
    } else {
        None
    }
}

/// The first of two exit statuses that is not 0; 0 if both are.
pub fn first_failure(first: u8, second: u8) -> u8
    ensures { result ≡ first_failed first second }
{
    if first == 0 { second } else { first }
}

/// Shows help on standard output, or what is wrong with the command line on standard error.
///
/// Errors: `Memory`.
pub fn show(
    rt: &HostRuntime,
    alloc: Global,
    words: &[String],
    error: &clap::Error,
) -> Result<u8, Memory>
    ensures memory { IsErr result ↔ (kind_of error.now ≡ ErrorKind.OutOfMemory) }
    ensures shown { IfOk result (λ status. ShowsAs (kind_of error.now) status) }
{
    if error.kind() == ErrorKind::OutOfMemory {
        return Err(Memory);
    }
    let printed = error.print(rt);
    if error.use_stderr() {
        suggest(rt, alloc, words, error);
        return Ok(USAGE);
    }
    match printed {
        Ok(()) => Ok(0),
        Err(error) => {
            if error.kind() != io::ErrorKind::BrokenPipe || !rt.stderr().is_terminal() {
                tell(rt, b"kendo: 14 Write\n".as_slice());
            }
            Ok(WRITE)
        }
    }
}
