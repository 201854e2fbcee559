//! What one comment says of a run.

ghost use Rattle.std.specs.Prelude.{◌≡◌, ℕ, List, MatchOption, None, Some};
ghost use Rattle.std.specs.Str.{trim};
ghost use Rattle.expected_output.specs.Saying.{Begins, IsAfter, IsLastLine, Says, SaysEndLast, SaysOutput, first_line, later_lines, said_end, said_output};

/// What a comment says of a run.
#[derive(Clone, Copy)]
pub(crate) struct Said<'c> {
    /// What is printed.
    pub output: Option<SaidOutput<'c>>,
    /// The words for how it ends.
    pub end: Option<&'c str>,
}

/// What is printed.
#[derive(Clone, Copy)]
pub(crate) struct SaidOutput<'c> {
    pub text: &'c str,
    /// Whether the order of its lines doesn't count.
    pub is_unordered: bool,
}

impl<'c> Said<'c> {
    /// What a comment says: `Output:` or `Unordered output:`, and then what is printed; `Ends:`, in its first or its last line, and
    /// then how the run ends. The case of letters in these words doesn't count. (Go: `doc.Examples`.)
    pub(crate) fn by(comment: &'c str) -> Said<'c>
        ensures { Says comment.entry.now (said_output result.output) (said_end result.end) }
    {
        let comment = comment.trim();
        if let Some(rest) = after_words(comment, "ends:") {
            return Said::with_end_first(rest);
        }
        match SaidOutput::by(comment) {
            Some(output) => output.with_end(),
            None => Said {
                output: None,
                end: None,
            },
        }
    }

    /// What a comment says that begins with `Ends:`, after that.
    fn with_end_first(rest: &'c str) -> Said<'c>
        ensures output { SaysOutput (later_lines rest.entry.now) (said_output result.output) }
        ensures end { said_end result.end ≡ Some (trim (first_line rest.entry.now)) }
    {
        let (end, later) = match rest.split_once('\n') {
            Some(lines) => lines,
            None => (rest, ""),
        };
        Said {
            output: SaidOutput::by(later),
            end: Some(end.trim()),
        }
    }
}

impl<'c> SaidOutput<'c> {
    /// What is printed, if a comment begins with that.
    fn by(comment: &'c str) -> Option<SaidOutput<'c>>
        ensures { SaysOutput comment.entry.now (said_output result) }
    {
        let comment = comment.trim_start();
        if let Some(text) = after_words(comment, "unordered output:") {
            return Some(SaidOutput {
                text,
                is_unordered: true,
            });
        }
        match after_words(comment, "output:") {
            Some(text) => Some(SaidOutput {
                text,
                is_unordered: false,
            }),
            None => None,
        }
    }

    /// Without its last line, if that says how the run ends.
    fn with_end(self) -> Said<'c>
        ensures { SaysEndLast self.entry.text.now self.entry.is_unordered (said_output result.output) (said_end result.end) }
    {
        match last_line(self.text) {
            Some((text, line)) => match after_words(line, "ends:") {
                Some(end) => Said {
                    output: Some(SaidOutput { text, ..self }),
                    end: Some(end.trim()),
                },
                None => self.alone(),
            },
            None => self.alone(),
        }
    }

    /// With no word on how the run ends.
    fn alone(self) -> Said<'c>
        ensures output { said_output result.output ≡ Some (self.entry.text.now, self.entry.is_unordered) }
        ensures end { result.end ≡ None }
    {
        Said {
            output: Some(self),
            end: None,
        }
    }
}

/// The last line of a text, and what stands before it, without the newline between them; `None` if it is one line.
fn last_line<'t>(text: &'t str) -> Option<(&'t str, &'t str)>
    ensures { MatchOption result ((before : List ℕ) (line : List ℕ) → IsLastLine text.entry.now before line → ⊥) (λ lines. IsLastLine text.entry.now lines.0.now lines.1.now) }
{
    text.rsplit_once('\n')
}

/// What stands after these words, if a text begins with them. The case of letters doesn't count.
fn after_words<'t>(text: &'t str, words: &str) -> Option<&'t str>
    ensures { MatchOption result (Begins words.now text.entry.now → ⊥) (λ rest. IsAfter words.now text.entry.now rest.now) }
{
    let Some(front) = text.get(..words.len()) else {
        return None;
    };
    if front.eq_ignore_ascii_case(words) {
        text.get(words.len()..)
    } else {
        None
    }
}
