//! A line of a trace.

ghost use Rattle.std.specs.Prelude.{◌≡◌, ◌≢◌, ◌↔◌, ℕ, IsTrue, MatchOption};
ghost use Rattle.trace_comparison.specs.Comparing.{part_of};
ghost use Rattle.trace_comparison.specs.Requests.{Event, event_of};
ghost use Rattle.trace_comparison.specs.Texts.{IsEventLine, IsNumber, IsRequest, is_request_word};

/// A line of a trace, which is an event.
#[derive(Clone, Copy)]
pub struct TraceLine<'t> {
    /// The number of the goroutine.
    pub goroutine: u64,
    /// What it requested, and what came of it.
    pub request: &'t str,
    /// The whole line, without its newline.
    pub line: &'t str,
}

/// What is compared of a line.
#[derive(Clone, Copy)]
pub(crate) enum Part {
    /// The goroutine and what it requested.
    Request,
    /// The whole line.
    Line,
}

impl<'t> TraceLine<'t> {
    /// Whether this part of another line is the same.
    pub(crate) fn is_same(&self, other: &TraceLine<'_>, part: Part) -> bool
        ensures { IsTrue result ↔ (part_of part (event_of self.now) ≡ part_of part (event_of other.now)) }
    {
        let is_same = self.goroutine == other.goroutine && self.request == other.request;
        match part {
            Part::Request => is_same,
            Part::Line => is_same && self.line == other.line,
        }
    }

    /// The event of a line, `CLOCK GOROUTINE REQUEST`; `None` if it is none.
    pub(crate) fn of(line: &'t str) -> Option<TraceLine<'t>>
        ensures { MatchOption result ((e : Event) → IsEventLine e → e.line ≢ line.entry.now) (λ found. IsEventLine (event_of found) × (found.line.now ≡ line.entry.now)) }
    {
        let (clock, rest) = line.split_once(' ')?;
        let (goroutine, request) = rest.split_once(' ')?;
        let _clock = decimal(clock)?;
        let goroutine = decimal(goroutine)?;
        if is_request(request) {
            Some(TraceLine {
                goroutine,
                request,
                line,
            })
        } else {
            None
        }
    }
}

/// The number of decimal digits, below 2^64.
fn decimal(text: &str) -> Option<u64>
    ensures { MatchOption result ((n : ℕ) → IsNumber text.now n → ⊥) (IsNumber text.now) }
{
    if text.starts_with('+') {
        None
    } else {
        text.parse::<u64>().ok()
    }
}

/// Whether a text begins with the word of a request.
fn is_request(text: &str) -> bool
    ensures { IsTrue result ↔ IsRequest text.now }
{
    match text.split_once(' ') {
        Some((word, _)) => is_request_word(word),
        None => is_request_word(text),
    }
}

/// Whether this is the first word of a request.
fn is_request_word(word: &str) -> bool
    ensures { result ≡ is_request_word word.now }
{
    matches!(
        word,
        "make"
            | "go"
            | "send"
            | "receive"
            | "close"
            | "select"
            | "len"
            | "cap"
            | "print"
            | "end"
            | "exit"
            | "panic"
            | "exhausted"
    )
}
