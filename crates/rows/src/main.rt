//! Runs rows, which are data, and compares the results of each program with those expected.
//!
//! A row is a program, `NAME.go` or `NAME.gen`, and files next to it that say what is expected of it: `NAME.row` how it is run and how
//! that ends, `NAME.out` what it writes, `NAME.trace`, `NAME.list`, `NAME.spans` and `NAME.tokens` its events, its listing, its nodes and
//! its tokens, `NAME.explained` what `--explain` says of it. A `NAME.texts` is a table of small programs, a `NAME.words` one of command
//! lines. docs/TESTING.md has the forms.
//!
//! The rows are in the folders of this crate's `data`. The repository's examples are rows too: those of
//! `data/examples` are copies of the folder `examples` at the top.
#![tactic(auto)]

mod calls;
mod check;
mod reading;
mod run;
mod table;

use calls::{
    check_early_writes, check_failing_traces, check_failing_writers, check_gates, check_panics,
    check_refusals,
};
use check::check;
use go_text::Fault;
use row_format::folder::{FileKind, RowFile, names, utf8};
use row_format::row_error::RowError;
use row_lines::check_words;
use std::process::ExitCode;
use std::rt::{Env, Files};
use std::sync::Wait;
use std::thread::Threads;
use std::{env, io};
use table::Table;
use worker_calls::{failed_calls, failed_refused_calls};

fn main(rt: HostRuntime) -> ExitCode {
    match start(&rt) {
        Ok(true) => ExitCode::from(0),
        Ok(false) => ExitCode::from(1),
        Err(error) => {
            let _told = println!(&rt; "rows: {error}");
            ExitCode::from(1)
        }
    }
}

/// Checks the rows of the folder that the command line names, or of the current one; with `--calls` only calls that can be refused
/// memory.
fn start<R: Files + Env + AllocGlobal + Print + Threads + Wait + Sync + Clone + Drop>(
    rt: &R,
) -> io::Result<bool> {
    match first_word(rt)? {
        Some(word) if word.as_str() == "--calls" => refused_calls(rt),
        Some(root) => all(rt, root.as_str()),
        None => all(rt, "."),
    }
}

/// The first word of the command line. It is read again if that is refused memory.
fn first_word<R: Env + AllocGlobal>(rt: &R) -> io::Result<Option<String>> {
    let mut words = match env::args(rt) {
        Ok(words) => words,
        Err(_) => env::args(rt)?,
    };
    Ok(words.nth(1))
}

/// Makes the calls that can be refused memory, each again if it is. Prints the names of those that fail, and returns whether all hold.
fn refused_calls<R: AllocGlobal + Print>(rt: &R) -> io::Result<bool> {
    let Ok(names) = failed_refused_calls(rt.alloc()) else {
        println!(rt; "the names of calls that fail: out of memory")?;
        return Ok(false);
    };
    for name in names.iter() {
        println!(rt; "{name}")?;
    }
    if names.is_empty() {
        println!(rt; "every call holds")?;
    }
    Ok(names.is_empty())
}

/// Checks all folders in this one, prints what fails, and returns whether all holds.
fn all<R: Files + AllocGlobal + Print + Threads + Wait + Sync + Clone + Drop>(
    rt: &R,
    root: &str,
) -> io::Result<bool> {
    let mut report = Report::new();
    for name in names(rt, root)?.iter() {
        let folder = format!(in rt.alloc(); "{root}/{name}")?;
        match names(rt, folder.as_str()) {
            Ok(names) => report.folder(rt, folder.as_str(), names.as_slice())?,
            Err(error) => report.tell(rt, folder.as_str(), Err(RowError::Io(error)))?,
        }
    }
    if report.seen == 0 {
        report.tell(rt, root, Err(RowError::NoRows))?;
    }
    report.calls(rt)?;
    report.end(rt)
}

/// What was found so far.
#[derive(Drop)]
struct Report {
    /// How many files, and lines of tables, were looked at.
    seen: u64,
    /// How many of them fail.
    failed: u64,
}

impl Report {
    /// Nothing was checked yet.
    fn new() -> Report {
        Report { seen: 0, failed: 0 }
    }

    /// Counts a check, and prints what is wrong.
    fn tell(&mut self, rt: &impl Print, name: &str, found: Result<(), RowError>) -> io::Result<()> {
        self.seen = self.seen.saturating_add(1);
        if let Err(row_error) = found {
            self.failed = self.failed.saturating_add(1);
            println!(rt; "{name}: {row_error}")?;
        }
        Ok(())
    }

    /// Checks that no program reaches.
    fn calls<R: AllocGlobal + Print + Threads + Wait + Sync>(&mut self, rt: &R) -> io::Result<()> {
        self.tell(rt, "failing writers", check_failing_writers(rt, rt.alloc()))?;
        self.tell(rt, "failing traces", check_failing_traces(rt, rt.alloc()))?;
        self.tell(rt, "early writes", check_early_writes(rt, rt.alloc()))?;
        self.tell(rt, "gates", check_gates(rt, rt.alloc()))?;
        self.tell(rt, "panics", check_panics(rt.alloc()))?;
        self.tell(rt, "refusals", check_refusals(rt.alloc()))?;
        self.machine_calls(rt)
    }

    /// Calls of the crates from code to runs.
    fn machine_calls<R: AllocGlobal + Print + Threads + Wait + Sync>(
        &mut self,
        rt: &R,
    ) -> io::Result<()> {
        let Ok(names) = failed_calls(rt, rt.alloc()) else {
            return self.tell(rt, "machine_calls", Err(RowError::Refused(Fault::Memory)));
        };
        for name in names.iter() {
            self.tell(rt, name, Err(RowError::Call))?;
        }
        self.tell(rt, "machine_calls", Ok(()))
    }

    /// Prints that all holds, if it does, and returns whether it does.
    fn end(&self, rt: &impl Print) -> io::Result<bool> {
        if self.failed == 0 {
            println!(rt; "every row holds")?;
        }
        Ok(self.failed == 0)
    }

    /// The files of a folder.
    fn folder<R: Files + AllocGlobal + Print + Threads + Wait + Sync>(
        &mut self,
        rt: &R,
        folder: &str,
        names: &[String],
    ) -> io::Result<()> {
        for name in names.iter() {
            let path = format!(in rt.alloc(); "{folder}/{name}")?;
            match RowFile::new(folder, name.as_str()) {
                Some(file) => {
                    self.tell(rt, path.as_str(), check(rt, &file, names))?;
                    self.lines(rt, &file, path.as_str())?;
                }
                None => self.tell(rt, path.as_str(), Err(RowError::Stranger))?,
            }
        }
        Ok(())
    }

    /// The lines of a table; other files have none of their own.
    fn lines<R: Files + AllocGlobal + Print + Threads + Wait + Sync>(
        &mut self,
        rt: &R,
        file: &RowFile<'_>,
        path: &str,
    ) -> io::Result<()> {
        if !file.kind.has_lines() {
            return Ok(());
        }
        match file.bytes(rt).and_then(utf8) {
            Ok(lines) if file.kind == FileKind::Words => self.words(rt, path, lines.as_str()),
            Ok(lines) => self.table(rt, path, lines.as_str()),
            Err(row_error) => self.tell(rt, path, Err(row_error)),
        }
    }

    /// The lines of a table of programs.
    fn table<R: AllocGlobal + Print + Threads + Wait + Sync>(
        &mut self,
        rt: &R,
        path: &str,
        lines: &str,
    ) -> io::Result<()> {
        let mut table = Table::new(rt.alloc());
        for (before, line) in lines.lines().enumerate() {
            let number = before.saturating_add(1);
            let name = format!(in rt.alloc(); "{path}:{number}")?;
            self.tell(rt, name.as_str(), table.check_line(rt, rt.alloc(), line))?;
        }
        Ok(())
    }

    /// The lines of a table of command lines.
    fn words<R: AllocGlobal + Print>(&mut self, rt: &R, path: &str, lines: &str) -> io::Result<()> {
        for (before, line) in lines.lines().enumerate() {
            let number = before.saturating_add(1);
            let name = format!(in rt.alloc(); "{path}:{number}")?;
            self.tell(rt, name.as_str(), check_words(rt.alloc(), line))?;
        }
        Ok(())
    }
}
