//! The tokens of a program, whatever is wrong with some of them.

use diagnostic_syntax::place_of;
use diagnostic_typing::blanked;
use go_text::{Fault, Memory, Place, Source, Span};
use scanner::{Token, scan};
use std::alloc::Global;

/// How many wrong tokens are found at most.
const MOST_WRONG: usize = 60;

/// A program with blanks instead of its wrong tokens and of what follows them on their lines.
#[derive(Drop)]
pub(crate) struct Readable {
    source: Source,
    pub tokens: Vec<Token>,
    /// The faults of the wrong tokens, in the order of the program.
    wrong: Vec<Fault>,
}

impl Readable {
    /// The program's text.
    pub(crate) fn text(&self) -> &str {
        self.source.as_str()
    }

    /// The offset of the program's end.
    pub(crate) fn end(&self) -> u32 {
        u32::try_from(self.text().len()).unwrap_or(u32::MAX)
    }

    /// The fault of the first wrong token that begins in a span.
    pub(crate) fn wrong_token(&self, span: Span) -> Option<Fault> {
        for &fault in self.wrong.as_slice() {
            if let Some(place) = place_of(&fault) {
                if span.from <= place.span.from && place.span.from < span.to {
                    return Some(fault);
                }
            }
        }
        None
    }
}

/// A program as far as its tokens can be read; `None` if it is too long or not UTF-8.
///
/// # Errors
///
/// `Memory` if memory is refused.
pub(crate) fn read_tokens(alloc: Global, text: &str) -> Result<Option<Readable>, Memory> {
    let mut current = blanked(alloc, text, Span { from: 0, to: 0 })?;
    let mut wrong = Vec::new(alloc);
    for round in 0..=MOST_WRONG {
        let Ok(source) = Source::new(current.into_bytes()) else {
            return Ok(None);
        };
        let fault = match scan(alloc, &source) {
            Ok(tokens) => {
                return Ok(Some(Readable {
                    source,
                    tokens,
                    wrong,
                }));
            }
            Err(fault) => fault,
        };
        let Some(place) = place_of(&fault) else {
            return Err(Memory);
        };
        wrong.push(located(&source, fault))?;
        let from = place.span.from;
        let to = if round.saturating_add(1) < MOST_WRONG {
            end_of(source.as_str(), from, &fault)
        } else {
            u32::MAX
        };
        current = blanked(alloc, source.as_str(), Span { from, to })?;
    }
    Ok(None)
}

/// The offset up to which nothing is read after a wrong token at `from`: the end of its line or, if it may go on after that, of the
/// program.
fn end_of(text: &str, from: u32, fault: &Fault) -> u32 {
    let after = text.get(from as usize..).unwrap_or("");
    let line = after.split('\n').next().unwrap_or("");
    let quotes = line.bytes().filter(|&byte| byte == b'`').count();
    if matches!(fault, Fault::OpenComment(_)) || line.contains("/*") || quotes % 2 == 1 {
        return u32::MAX;
    }
    let length = u32::try_from(line.len()).unwrap_or(u32::MAX);
    from.saturating_add(length)
}

/// A fault of the tokens or of the tree of a program, with the line and the column of its first byte.
pub(crate) fn located(source: &Source, fault: Fault) -> Fault {
    let Some(Place { span, .. }) = place_of(&fault) else {
        return fault;
    };
    let place = Place {
        span,
        position: Some(source.line_column(span.from)),
    };
    match fault {
        Fault::BadCharacter(_) => Fault::BadCharacter(place),
        Fault::BadNumber(_) => Fault::BadNumber(place),
        Fault::OpenString(_) => Fault::OpenString(place),
        Fault::OpenComment(_) => Fault::OpenComment(place),
        Fault::Syntax(_) => Fault::Syntax(place),
        Fault::TooDeep(_) => Fault::TooDeep(place),
        Fault::Limit { kind, node, .. } => Fault::Limit { kind, node, place },
        other => other,
    }
}
