//! A position between the tokens of a source file.

ghost use Rattle.std.specs.Prelude.{◌≡◌, ◌∷◌, [], IfOk, IfErr, MatchOption, length};
ghost use Rattle.go_text.specs.Source.{bytes_of};
ghost use Rattle.parser_base.specs.Lexemes.{lexemes, piece};
ghost use Rattle.parser_base.specs.Spelling.{makes_value, is_builtin};
ghost use Rattle.parser_base.specs.Reading.{Gives, NamesRefusal, expect, expect_name, plain_name};

use crate::fault::ParseFault;
use go_text::{Source, Span, is_word};
use scanner::{Token, TokenKind};

/// What the grammar sees of a token.
#[derive(Clone, Copy)]
pub enum Word<'a> {
    /// The digits of a number.
    Literal(&'a [u8]),
    /// The bytes of a name.
    Name(&'a [u8]),
    /// The bytes of a string, in its quotes.
    Text(&'a [u8]),
    /// Any other token.
    Mark(TokenKind),
}

/// The tokens of a source file from some position on.
#[derive(Clone, Copy)]
pub struct Cursor<'a> {
    source: &'a Source,
    tokens: &'a [Token],
}

/// The bytes of a text at a span; those that the text has, if the span reaches beyond its end.
fn piece(text: &[u8], span: Span) -> &[u8]
    ensures { result.now ≡ piece text.now span }
{
    let rest = &text[(span.from as usize).min(text.len())..];
    let count = span.to.saturating_sub(span.from) as usize;
    &rest[..count.min(rest.len())]
}

/// Whether a name is that of a built-in function whose calls are expressions.
pub fn makes_value(name: &[u8]) -> bool
    ensures { result ≡ makes_value name.now }
{
    is_word(name, b"make") || is_word(name, b"len") || is_word(name, b"cap")
}

/// Whether a name occurs only in calls of its own.
pub fn is_builtin(name: &[u8]) -> bool
    ensures { result ≡ is_builtin name.now }
{
    makes_value(name)
        || is_word(name, b"close")
        || is_word(name, b"print")
        || is_word(name, b"println")
}

impl<'a> Cursor<'a> {
    ghost use Rattle.parser_base.specs.Cursor.{ahead, lexeme_of, place_at};

    /// The cursor before all tokens.
    pub fn new(source: &'a Source, tokens: &'a [Token]) -> Cursor<'a>
        ensures { ahead result ≡ lexemes (bytes_of source.now) tokens.now }
    {
        Cursor { source, tokens }
    }

    /// How many tokens are left.
    pub fn len(self) -> usize
        ensures { result ≡ length (ahead self.entry) }
    {
        self.tokens.len()
    }

    /// The span of the first token, or the end of the source.
    pub fn place(self) -> Span
        ensures { result ≡ place_at (length (bytes_of self.entry.source.now)) self.entry.tokens.now }
    {
        match self.tokens.first() {
            Some(token) => token.span,
            None => {
                let end = self.source.as_bytes().len() as u32;
                Span { from: end, to: end }
            }
        }
    }

    /// The first word, and the cursor after it; `None` at the end.
    pub fn next(self) -> Option<(Word<'a>, Cursor<'a>)>
        ensures { MatchOption result (ahead self.entry ≡ []) (λ x. ahead self.entry ≡ lexeme_of x.0 ∷ ahead x.1) }
    {
        let (token, rest) = self.tokens.split_first()?;
        let word = match token.kind {
            TokenKind::Integer => Word::Literal(piece(self.source.as_bytes(), token.span)),
            TokenKind::Name => Word::Name(piece(self.source.as_bytes(), token.span)),
            TokenKind::String => Word::Text(piece(self.source.as_bytes(), token.span)),
            kind => Word::Mark(kind),
        };
        Some((
            word,
            Cursor {
                source: self.source,
                tokens: rest,
            },
        ))
    }

    /// The cursor after a mark that must be here.
    #[tactic(auto, unfolding(crate::specs::Reading::expect))]
    pub fn expect(self, kind: TokenKind) -> Result<Cursor<'a>, ParseFault>
        ensures gives { Gives (λ x. ahead x) result (expect kind (ahead self.entry)) }
        ensures refused { IfErr result NamesRefusal }
    {
        match self.next() {
            Some((Word::Mark(first), rest)) if first == kind => Ok(rest),
            _ => Err(ParseFault::Syntax(self.place())),
        }
    }

    /// The cursor after a name that must be here.
    #[tactic(auto, unfolding(crate::specs::Reading::expect_name))]
    pub fn expect_name(self, name: &[u8]) -> Result<Cursor<'a>, ParseFault>
        ensures gives { Gives (λ x. ahead x) result (expect_name name.now (ahead self.entry)) }
        ensures refused { IfErr result NamesRefusal }
    {
        match self.next() {
            Some((Word::Name(first), rest)) if first == name => Ok(rest),
            _ => Err(ParseFault::Syntax(self.place())),
        }
    }

    /// A name that may be declared, and the cursor after it.
    #[tactic(auto, unfolding(crate::specs::Reading::plain_name))]
    pub fn plain_name(self) -> Result<(&'a [u8], Cursor<'a>), ParseFault>
        ensures gives { Gives (λ x. (x.0.now, ahead x.1)) result (plain_name (ahead self.entry)) }
        ensures refused { IfErr result NamesRefusal }
    {
        match self.next() {
            Some((Word::Name(name), rest)) if !is_builtin(name) => Ok((name, rest)),
            _ => Err(ParseFault::Syntax(self.place())),
        }
    }
}
