//! The words of a comment.

use diagnostic_words::words::Words;
use kendo_report::report;
use std::alloc::Global;
use word::end::End;

/// A comment that says what a program does.
#[derive(Clone, Copy)]
pub(crate) struct Comment<'o> {
    /// What is printed, if it says that.
    pub output: Option<&'o str>,
    /// Whether the order of its lines doesn't count.
    pub is_unordered: bool,
    /// How the program ends, if it says that.
    pub end: Option<End>,
}

impl Comment<'_> {
    /// Appends the comment. `indent` stands before each of its lines but the first.
    pub(crate) fn push(self, said: &mut Words, alloc: Global, indent: &str) {
        if let Some(output) = self.output {
            said.text(if self.is_unordered {
                "// Unordered output:"
            } else {
                "// Output:"
            });
            push_output(said, indent, output);
        }
        let Some(end) = self.end else {
            return;
        };
        if self.output.is_some() {
            push_break(said, indent);
        }
        said.text("// Ends: ");
        push_end(said, alloc, end);
    }
}

/// Appends what is printed: one line behind the words before it, several below them.
fn push_output(said: &mut Words, indent: &str, output: &str) {
    let output = output.trim_end().trim_start_matches('\n');
    if output.is_empty() {
        return;
    }
    if !output.contains('\n') {
        said.text(" ");
        said.text(output);
        return;
    }
    for line in output.split('\n') {
        push_break(said, indent);
        said.text("//");
        if !line.is_empty() {
            said.text(" ");
            said.text(line);
        }
    }
}

/// Begins another line.
fn push_break(said: &mut Words, indent: &str) {
    said.text("\n");
    said.text(indent);
}

/// Appends how a run ends, as `kendo run` reports it.
fn push_end(said: &mut Words, alloc: Global, end: End) {
    if let End::Finished = end {
        said.text("finished");
        return;
    }
    let Ok((line, _status)) = report(alloc, &Ok(end)) else {
        said.refuse();
        return;
    };
    let line = line.as_slice();
    let line = line.strip_prefix(b"kendo: ".as_slice()).unwrap_or(line);
    said.bytes(line.strip_suffix(b"\n".as_slice()).unwrap_or(line));
}
