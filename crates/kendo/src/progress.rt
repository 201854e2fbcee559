//! What the user is told while other orders are searched.

ghost use Rattle.std.specs.Prelude.{◌≡◌, IfErr};

use crate::plan_files::write_plan_file;
use command_line::arguments::Invocation;
use go_text::{Fault, Memory};
use kendo_explore::{Extent, PlanFile, Progress};
use kendo_report::report;
use kendo_shell::names::Shown;
use kendo_shell::streams::tell;
use pauses::PlanHeader;
use std::alloc::Global;
use std::io::IsTerminal;
use std::time::{Duration, Instant};
use word::end::End;

/// How many milliseconds pass at least between two lines of progress.
const BETWEEN: u128 = 200;

/// How many milliseconds a search takes before errors that it finds stay on a terminal.
const LONG: u128 = 1_000;

/// Follows a search: ends it when its time is over, tells on a terminal how far it is, and writes plans to their files.
#[derive(Drop)]
pub(crate) struct Follower<'r> {
    rt: &'r HostRuntime,
    alloc: Global,
    /// The path of the program, as it was typed.
    file: &'r str,
    /// The folder for plans; the current one if there is none.
    folder: Option<&'r str>,
    /// When the search began, if the clock says so.
    start: Option<Instant>,
    /// How many seconds it may take.
    seconds: Option<u64>,
    is_terminal: bool,
    /// Whether errors that are found are only part of the report.
    is_quiet: bool,
    /// How many milliseconds after the beginning a line of progress was last written, if one stands there now.
    line: Option<u128>,
    /// Whether a plan could not be written.
    is_refused: bool,
}

impl<'r> Follower<'r> {
    /// The follower of a search that begins now.
    pub(crate) fn new(
        rt: &'r HostRuntime,
        alloc: Global,
        invocation: &Invocation<'_, 'r>,
        file: &'r str,
    ) -> Follower<'r> {
        Follower {
            rt,
            alloc,
            file,
            folder: invocation.out,
            start: Instant::now(rt).ok(),
            seconds: invocation.seconds,
            is_terminal: rt.stderr().is_terminal(),
            is_quiet: invocation.json,
            line: None,
            is_refused: false,
        }
    }

    /// How long the search goes on, if the clock says so.
    pub(crate) fn took(&self) -> Option<Duration> {
        self.start.as_ref()?.elapsed(self.rt).ok()
    }

    /// For how many milliseconds the search goes on.
    fn elapsed(&self) -> u128 {
        self.took().map(|took| took.as_millis()).unwrap_or(0)
    }

    /// Whether all plans were written.
    ///
    /// Errors: `Write` if one was not.
    pub(crate) fn all_written(&self) -> Result<(), Fault>
        ensures { IfErr result (λ fault. fault ≡ Fault.Write) }
    {
        if self.is_refused {
            Err(Fault::Write)
        } else {
            Ok(())
        }
    }

    /// Takes the line of progress away.
    pub(crate) fn clear(&mut self) {
        if self.line.take().is_some() {
            tell(self.rt, b"\r\x1b[K".as_slice());
        }
    }

    /// Writes a line of progress in place of the last one.
    fn show_extent(&mut self, extent: Extent, elapsed: u128) {
        let Extent {
            states,
            waiting,
            walks,
        } = extent;
        let (file, seconds) = (Shown(self.file), elapsed / 1_000);
        let line = format!(in self.alloc;
            "\r{file}: {states} states, {waiting} waiting, {walks} walks, {seconds} s\x1b[K"
        );
        if let Ok(line) = line {
            tell(self.rt, line.as_bytes());
            self.line = Some(elapsed);
        }
    }

    /// Tells that an error was found, which this plan shows.
    fn tell_error(&mut self, plan: &PlanFile, name: &str) -> Result<(), Memory> {
        let is_error = matches!(plan.end, End::Deadlock | End::Panicked(_)) && !plan.own_limit;
        if !is_error || self.is_quiet || (self.is_terminal && self.elapsed() < LONG) {
            return Ok(());
        }
        self.clear();
        let (line, _status) = report(self.alloc, &Ok(plan.end))?;
        let end = line.as_slice().strip_prefix(b"kendo: ".as_slice());
        let end = end.and_then(|end| str::from_utf8(end.trim_ascii_end()).ok());
        let (file, end, name) = (Shown(self.file), end.unwrap_or("error"), Shown(name));
        let line = format!(in self.alloc; "{file}: found a {end}: {name}\n")?;
        tell(self.rt, line.as_bytes());
        Ok(())
    }
}

impl Progress for Follower<'_> {
    fn goes_on(&mut self, extent: Extent) -> bool {
        let elapsed = self.elapsed();
        let is_over = match self.seconds {
            Some(seconds) => elapsed >= u128::from(seconds).saturating_mul(1_000),
            None => false,
        };
        let last = self.line.unwrap_or(0);
        if self.is_terminal && elapsed >= last.saturating_add(BETWEEN) {
            self.show_extent(extent, elapsed);
        }
        !is_over && !self.is_refused
    }

    fn shows(&mut self, alloc: Global, number: usize, plan: &PlanFile) -> Result<String, Memory> {
        let Some(header) = PlanHeader::of(alloc, plan.bytes.as_slice())? else {
            return Ok(String::new(alloc));
        };
        let stem = stem_of(self.file);
        let bytes = plan.bytes.as_slice();
        match write_plan_file(self.rt, alloc, self.folder, stem, number, &header, bytes) {
            Ok(name) => {
                self.tell_error(plan, name.as_str())?;
                Ok(name)
            }
            Err(Fault::Memory) => Err(Memory),
            Err(_) => {
                self.is_refused = true;
                Ok(String::new(alloc))
            }
        }
    }
}

/// The name of a source file without its folders and `.go`.
fn stem_of(path: &str) -> &str {
    if path == "-" {
        return "stdin";
    }
    let name = match path.rsplit_once("/") {
        Some((_folders, name)) => name,
        None => path,
    };
    name.strip_suffix(".go").unwrap_or(name)
}
