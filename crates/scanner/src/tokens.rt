//! The tokens of a text.

ghost use Rattle.std.specs.Prelude.{◌≡◌, ◌+◌, ◌≤◌, ◌⊎◌, ◌++◌, length, All, IfOk, IfErr, OnOk};
ghost use Rattle.go_text.specs.Source.{bytes_of};
ghost use Rattle.scanner.specs.Tokens.{tokens, tokens_of, line_end, ender, IsInOrder, LiesWithin};

use crate::element::{Element, element_at};
use crate::kind::TokenKind;
use crate::lexical::ends_line;
use crate::token::Token;
use go_text::{Fault, Source, Span};
use std::alloc::{AllocError, Global};

/// The offset of the semicolon that a line's end would insert after a token that ends here.
fn ender(kind: TokenKind, place: u32) -> Option<u32>
    ensures { result ≡ ender kind place }
{
    if ends_line(kind) { Some(place) } else { None }
}

/// Ends a line: inserts a semicolon, if one belongs there.
fn end_line(out: &mut Vec<Token>, after: Option<u32>) -> Result<(), AllocError>
    ensures { OnOk result (out.new.items ≡ out.old.items ++ line_end after) }
{
    if let Some(place) = after {
        out.push(Token {
            kind: TokenKind::Semicolon,
            span: Span {
                from: place,
                to: place,
            },
        })?;
    }
    Ok(())
}

/// The tokens of these bytes.
fn scan_bytes(alloc: Global, text: &[u8]) -> Result<Vec<Token>, Fault>
    requires { length text.now ≤ 1048576 }
    ensures ok { IfOk result (λ v. tokens_of text.now ≡ Ok v.items) }
    ensures err { IfErr result (λ e. (e ≡ Fault.Memory) ⊎ (tokens_of text.now ≡ Err e)) }
{
    let mut out = Vec::new(alloc);
    let mut at = 0;
    let mut after: Option<u32> = None;
    while at < text.len() {
        let place = at as u32;
        let element = element_at(place, &text[at..])?;
        at += element.len();
        match element {
            Element::Blank(_) => {}
            Element::LineEnd(_) => {
                end_line(&mut out, after)?;
                after = None;
            }
            Element::Token(_, kind) => {
                let to = at as u32;
                out.push(Token {
                    kind,
                    span: Span { from: place, to },
                })?;
                after = ender(kind, to);
            }
        }
    }
    end_line(&mut out, after)?;
    Ok(out)
}

/// The tokens of the text, with a semicolon inserted where a line ends after certain tokens. (Go: Lexical elements,
/// Semicolons.)
///
/// Errors, of which the first in the text counts: `BadCharacter` with the character with which no token begins, `BadNumber`
/// with the number that goes on wrongly; with the first byte of a string or a comment, `BadCharacter` if NUL or a
/// byte-order mark is in it, `OpenString` if it has no closing quote on its line or an unknown escape,
/// `OpenComment` if the text ends in it, whichever is met first in reading it. `Memory`.
pub fn scan(alloc: Global, source: &Source) -> Result<Vec<Token>, Fault>
    ensures tokens { IfOk result (λ v. tokens_of (bytes_of source.now) ≡ Ok v.items) }
    ensures fault { IfErr result (λ e. (e ≡ Fault.Memory) ⊎ (tokens_of (bytes_of source.now) ≡ Err e)) }
    ensures placed { IfErr result (LiesWithin (length (bytes_of source.now))) }
    ensures in_order { IfOk result (λ v. IsInOrder 0 (length (bytes_of source.now)) v.items) }
    ensures within { IfOk result (λ v. All (λ t. (t.span.from ≤ t.span.to) × (t.span.to ≤ length (bytes_of source.now))) v.items) }
    ensures few { IfOk result (λ v. length v.items ≤ length (bytes_of source.now) + 1) }
{
    scan_bytes(alloc, source.as_bytes())
}
