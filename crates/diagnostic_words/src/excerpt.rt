//! The line of the program where something lies, and marks under it.

use crate::words::Words;
use go_text::Span;
use unicode_width::UnicodeWidthStr;

/// How many bytes of a line are shown before the span's beginning, and how many from it on.
const MOST_BEFORE: usize = 60;

const MOST_AFTER: usize = 60;

/// How many bytes a line has at most that is shown whole.
const MOST_WHOLE: usize = 120;

/// Puts the line of the program in which the span begins, and below it marks under the span, up to the end of that line, after
/// what is there. Tabs stand under tabs, so that the marks are under the span wherever a terminal has its tab stops. Of a line of
/// more than 120 bytes the part around the span is shown, and `..` for what is cut off.
pub fn push_excerpt(said: &mut Words, text: &str, span: Span) {
    let from = span.from as usize;
    let Some(before) = text.get(..from) else {
        return;
    };
    let Some(after) = text.get(from..) else {
        return;
    };
    let indent = before.rsplit('\n').next().unwrap_or("");
    let rest = after
        .split('\n')
        .next()
        .unwrap_or("")
        .trim_end_matches('\r');
    let length = (span.to as usize).saturating_sub(from).min(rest.len());
    let marked = rest.get(..length).unwrap_or("");
    if indent.len().saturating_add(rest.len()) <= MOST_WHOLE {
        push_line(said, indent, rest, marked);
    } else {
        push_cut(said, indent, rest, marked);
    }
}

/// Puts a line, in two parts, and marks under `marked`, with which the second part begins.
fn push_line(said: &mut Words, first: &str, rest: &str, marked: &str) {
    push_shown(said, first);
    push_shown(said, rest);
    said.text("\n");
    push_blanks(said, first);
    push_times(said, "^", shown_width(marked).max(1));
    said.text("\n");
}

/// Puts the part of a long line around the point at which `rest` begins.
fn push_cut(said: &mut Words, before: &str, rest: &str, marked: &str) {
    let first = end_of(before, MOST_BEFORE);
    let second = beginning_of(rest, MOST_AFTER);
    let is_cut_before = first.len() < before.len();
    if is_cut_before {
        said.text("..");
    }
    push_shown(said, first);
    push_shown(said, second);
    if second.len() < rest.len() {
        said.text("..");
    }
    said.text("\n");
    if is_cut_before {
        said.text("  ");
    }
    push_blanks(said, first);
    let shown = if marked.len() < second.len() {
        marked
    } else {
        second
    };
    push_times(said, "^", shown_width(shown).max(1));
    said.text("\n");
}

/// What a piece of a line begins with, as many whole characters as at most `most` bytes have.
fn beginning_of(piece: &str, most: usize) -> &str {
    let length = piece.len().min(most);
    for cut in 0..4 {
        if let Some(beginning) = piece.get(..length.saturating_sub(cut)) {
            return beginning;
        }
    }
    ""
}

/// What a piece of a line ends with, as many whole characters as at most `most` bytes have.
fn end_of(piece: &str, most: usize) -> &str {
    let from = piece.len().saturating_sub(most);
    for cut in 0..4 {
        if let Some(end) = piece.get(from.saturating_add(cut)..) {
            return end;
        }
    }
    ""
}

/// Whether nothing can be seen of a character, or it moves what is next to it.
fn is_hidden(one: char) -> bool {
    match one {
        '\t' => false,
        '\0'..='\u{1f}' | '\u{7f}'..='\u{a0}' | '\u{ad}' => true,
        '\u{200b}'..='\u{200f}' | '\u{2028}'..='\u{202e}' | '\u{2060}'..='\u{2069}' => true,
        '\u{feff}' => true,
        _ => false,
    }
}

/// Appends a piece of a line, with `<U+FEFF>` for a character that can't be seen.
pub fn push_shown(said: &mut Words, piece: &str) {
    let mut buffer = [0; 4];
    for one in piece.chars() {
        if is_hidden(one) {
            said.text("<U+");
            push_code(said, one);
            said.text(">");
        } else {
            said.text(one.encode_utf8(&mut buffer));
        }
    }
}

/// Appends the number of a character in four hexadecimal digits; those that are hidden have no more.
fn push_code(said: &mut Words, one: char) {
    let code = u32::from(one);
    said.text(digit_text((code >> 12) & 0xf));
    said.text(digit_text((code >> 8) & 0xf));
    said.text(digit_text((code >> 4) & 0xf));
    said.text(digit_text(code & 0xf));
}

/// A hexadecimal digit.
fn digit_text(digit: u32) -> &'static str {
    match digit {
        0 => "0",
        1 => "1",
        2 => "2",
        3 => "3",
        4 => "4",
        5 => "5",
        6 => "6",
        7 => "7",
        8 => "8",
        9 => "9",
        10 => "A",
        11 => "B",
        12 => "C",
        13 => "D",
        14 => "E",
        _ => "F",
    }
}

/// How many columns a piece without tabs takes as it is shown.
fn shown_width(piece: &str) -> usize {
    let mut width = piece.width();
    for one in piece.chars() {
        if is_hidden(one) {
            width = width.saturating_add(8);
        }
    }
    width
}

/// Appends white space as wide as a piece of a line, with its tabs.
fn push_blanks(said: &mut Words, before: &str) {
    for (index, piece) in before.split('\t').enumerate() {
        said.text(if index > 0 { "\t" } else { "" });
        push_times(said, " ", shown_width(piece));
    }
}

/// Appends text `times` times.
fn push_times(said: &mut Words, text: &str, times: usize) {
    for _ in 0..times {
        said.text(text);
    }
}
