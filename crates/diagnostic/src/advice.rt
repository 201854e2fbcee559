//! What is wrong at one location of a program, as data and in lines.

use crate::hint::push_hint;
use crate::sentence::push_sentence;
use diagnostic_syntax::{place_of, push_syntax};
use diagnostic_words::excerpt::push_excerpt;
use diagnostic_words::words::Words;
use go_text::{Fault, Memory, Position, Rule, Span};
use std::alloc::Global;

/// What is wrong at one location of a program.
#[derive(Drop)]
pub struct Diagnostic {
    pub fault: Fault,
    /// The line and the column of the fault, if it has a location.
    pub position: Option<Position>,
    /// What is wrong, in one line.
    pub message: String,
    /// What to write instead, in one line, if that is known.
    pub hint: Option<String>,
}

/// The message and the hint for a fault; the hint is empty if there is none.
#[derive(Drop)]
pub(crate) struct Advice {
    message: Words,
    hint: Words,
}

impl Advice {
    /// The message and the hint for a fault of the program `text`.
    pub(crate) fn on(alloc: Global, text: &str, fault: &Fault) -> Result<Advice, Memory> {
        let mut message = Words::new(alloc);
        let mut hint = Words::new(alloc);
        if let Fault::Syntax(place) = *fault {
            push_syntax(alloc, &mut message, &mut hint, text, place)?;
        } else {
            push_sentence(alloc, &mut message, text, fault);
            push_hint(alloc, &mut hint, text, fault);
        }
        Ok(Advice { message, hint })
    }

    /// The message, the line of the program at the fault, marks under the location, and the hint after `hint: `, each in a line.
    pub(crate) fn into_lines(self, text: &str, fault: &Fault) -> Result<Vec<u8>, Memory> {
        let Advice { message, hint } = self;
        let mut lines = message;
        lines.text("\n");
        if let Some(place) = place_of(fault) {
            push_excerpt(&mut lines, text, shown_span(text, fault, place.span));
        }
        if !hint.is_empty() {
            lines.text("hint: ");
            lines.bytes(hint.into_bytes()?.as_slice());
            lines.text("\n");
        }
        Ok(lines.into_bytes()?)
    }

    /// The message and the hint as strings.
    pub(crate) fn into_strings(self, alloc: Global) -> Result<(String, Option<String>), Memory> {
        let Advice { message, hint } = self;
        let message = string_of(alloc, message)?;
        if hint.is_empty() {
            return Ok((message, None));
        }
        let hint = string_of(alloc, hint)?;
        Ok((message, Some(hint)))
    }
}

/// The span whose line is shown for a fault at `span`: the last `}` of a function that lacks a return, else the same.
fn shown_span(text: &str, fault: &Fault, span: Span) -> Span {
    let last = Span {
        from: span.to.saturating_sub(1),
        to: span.to,
    };
    let is_missing = matches!(
        fault,
        Fault::Typing {
            rule: Rule::Terminating,
            ..
        }
    );
    if is_missing && text.get(last.from as usize..last.to as usize) == Some("}") {
        last
    } else {
        span
    }
}

/// Words, which are UTF-8, as a string.
fn string_of(alloc: Global, words: Words) -> Result<String, Memory> {
    match String::from_utf8(words.into_bytes()?) {
        Ok(text) => Ok(text),
        Err(_) => Ok(String::new(alloc)),
    }
}
