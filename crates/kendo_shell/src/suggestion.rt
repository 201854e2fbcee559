//! What to type instead of a command line that lacks its command.

use crate::names::Shown;
use crate::streams::tell;
use clap::error::ErrorKind;
use std::alloc::Global;

/// Prints how to run a program, if the command line has its file instead of a command.
pub(crate) fn suggest(rt: &HostRuntime, alloc: Global, words: &[String], error: &clap::Error) {
    if error.kind() != ErrorKind::InvalidSubcommand {
        return;
    }
    if let Some(word) = words.get(1) {
        suggest_run(rt, alloc, word.as_str());
    }
}

/// Prints how to run the program of the file `word`, if its name ends with `.go`.
fn suggest_run(rt: &HostRuntime, alloc: Global, word: &str) {
    if !word.ends_with(".go") {
        return;
    }
    let word = Shown(word);
    if let Ok(line) = format!(in alloc; "\nTo run the program: kendo run {word}\n") {
        tell(rt, line.as_bytes());
    }
}
