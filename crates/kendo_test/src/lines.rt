//! The reasons for which a program fails its test.

use diagnostic_words::excerpt::push_shown;
use diagnostic_words::words::Words;
use go_text::{Fault, Memory};
use kendo_report::report;
use std::alloc::{AllocError, Global};
use std::mem::replace;
use word::end::End;

/// The most characters of a line of output that are shown.
const MOST_SHOWN: usize = 60;

/// Why a program fails, or can't be tested. A refused request for memory is remembered, and reported by `reasons`.
#[derive(Drop)]
pub(crate) struct Failure {
    alloc: Global,
    /// The reasons before the one that `said` is.
    before: Vec<String>,
    pub said: Words,
    has_reason: bool,
}

impl Failure {
    /// No reason yet.
    pub(crate) fn new(alloc: Global) -> Failure {
        Failure {
            alloc,
            before: Vec::new(alloc),
            said: Words::new(alloc),
            has_reason: false,
        }
    }

    /// Begins another reason, which is appended to `said`.
    pub(crate) fn reason(&mut self) {
        if !self.has_reason {
            self.has_reason = true;
            return;
        }
        let said = replace(&mut self.said, Words::new(self.alloc));
        if push_reason(self.alloc, &mut self.before, said).is_err() {
            self.said.refuse();
        }
    }

    /// Appends that a run ended in another way.
    pub(crate) fn push_end(&mut self, end: End, wanted: End) {
        self.reason();
        self.said.text("got ");
        push_outcome(&mut self.said, self.alloc, Ok(end));
        self.said.text(", want ");
        push_outcome(&mut self.said, self.alloc, Ok(wanted));
    }

    /// Appends how a run ended, or why there was none.
    pub(crate) fn push_outcome(&mut self, outcome: Result<End, Fault>) {
        self.reason();
        push_outcome(&mut self.said, self.alloc, outcome);
    }

    /// The reasons, in their order.
    ///
    /// Errors: out of memory.
    pub(crate) fn reasons(self) -> Result<Vec<String>, Memory> {
        let Failure {
            alloc,
            mut before,
            said,
            has_reason: _,
        } = self;
        push_reason(alloc, &mut before, said)?;
        Ok(before)
    }
}

/// Appends a reason.
fn push_reason(alloc: Global, reasons: &mut Vec<String>, said: Words) -> Result<(), AllocError> {
    let said = said.into_bytes()?;
    reasons.push(String::from_utf8_lossy(alloc, said.as_slice())?)?;
    Ok(())
}

/// Appends how a run ended, or why there was none, as `kendo run` reports it.
fn push_outcome(said: &mut Words, alloc: Global, outcome: Result<End, Fault>) {
    if let Ok(End::Finished) = outcome {
        said.text("finished");
        return;
    }
    let Ok((line, _status)) = report(alloc, &outcome) else {
        said.refuse();
        return;
    };
    let line = line.as_slice();
    let line = line.strip_prefix(b"kendo: ".as_slice()).unwrap_or(line);
    said.bytes(line.strip_suffix(b"\n".as_slice()).unwrap_or(line));
}

/// Appends a line of output in quotes, or `nothing` if there is none. It is cut after 60 characters.
pub(crate) fn push_line(said: &mut Words, line: Option<&str>) {
    let Some(line) = line else {
        said.text("nothing");
        return;
    };
    said.text("\"");
    let end = line.char_indices().nth(MOST_SHOWN).map(|(end, _)| end);
    match end.and_then(|end| line.get(..end)) {
        Some(front) => {
            push_shown(said, front);
            said.text(" ..");
        }
        None => push_shown(said, line),
    }
    said.text("\"");
}
