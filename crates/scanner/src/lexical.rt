//! Which bytes are a token.

ghost use Rattle.std.specs.Prelude.{◌≡◌};
ghost use Rattle.scanner.specs.Elements.{is_forbidden};
ghost use Rattle.scanner.specs.Keywords.{choice_keyword, jump_keyword, loop_or_call_keyword};
ghost use Rattle.scanner.specs.Lexical.{is_digit, is_hex_digit, is_space, statement_keyword, declaration_keyword, word, mark_1, mark_2, mark_3, ends_line};

use crate::kind::TokenKind;
use go_text::is_word;

/// Whether the byte is a decimal digit.
pub(crate) fn is_digit(byte: u8) -> bool
    ensures { result ≡ is_digit byte }
{
    byte.is_ascii_digit()
}

/// Whether the byte is a hexadecimal digit.
pub(crate) fn is_hex_digit(byte: u8) -> bool
    ensures { result ≡ is_hex_digit byte }
{
    byte.is_ascii_hexdigit()
}

/// White space that ends no line.
pub(crate) fn is_space(byte: u8) -> bool
    ensures { result ≡ is_space byte }
{
    byte == b' ' || byte == b'\t' || byte == b'\r'
}

/// Whether the text begins with a character that is allowed nowhere: NUL or a byte-order mark.
pub(crate) fn is_forbidden(text: &[u8]) -> bool
    ensures { result ≡ is_forbidden text.now }
{
    match text {
        [0, ..] => true,
        [0xEF, 0xBB, 0xBF, ..] => true,
        _ => false,
    }
}

/// The keyword of a choice that the text is.
#[tactic(auto, unfolding(crate::specs::Keywords::choice_keyword))]
fn choice_keyword(text: &[u8]) -> Option<TokenKind>
    ensures { result ≡ choice_keyword text.now }
{
    if is_word(text, b"case") {
        Some(TokenKind::Case)
    } else if is_word(text, b"default") {
        Some(TokenKind::Default)
    } else if is_word(text, b"else") {
        Some(TokenKind::Else)
    } else if is_word(text, b"if") {
        Some(TokenKind::If)
    } else if is_word(text, b"select") {
        Some(TokenKind::Select)
    } else if is_word(text, b"switch") {
        Some(TokenKind::Switch)
    } else {
        None
    }
}

/// The keyword of a jump that the text is.
#[tactic(auto, unfolding(crate::specs::Keywords::jump_keyword))]
fn jump_keyword(text: &[u8]) -> Option<TokenKind>
    ensures { result ≡ jump_keyword text.now }
{
    if is_word(text, b"break") {
        Some(TokenKind::Break)
    } else if is_word(text, b"continue") {
        Some(TokenKind::Continue)
    } else if is_word(text, b"fallthrough") {
        Some(TokenKind::Fallthrough)
    } else if is_word(text, b"goto") {
        Some(TokenKind::Goto)
    } else if is_word(text, b"return") {
        Some(TokenKind::Return)
    } else {
        None
    }
}

/// The keyword of a loop, or of a call that is not waited for, that the text is.
#[tactic(auto, unfolding(crate::specs::Keywords::loop_or_call_keyword))]
fn loop_or_call_keyword(text: &[u8]) -> Option<TokenKind>
    ensures { result ≡ loop_or_call_keyword text.now }
{
    if is_word(text, b"defer") {
        Some(TokenKind::Defer)
    } else if is_word(text, b"for") {
        Some(TokenKind::For)
    } else if is_word(text, b"go") {
        Some(TokenKind::Go)
    } else if is_word(text, b"range") {
        Some(TokenKind::Range)
    } else {
        None
    }
}

/// The keyword of a statement that the text is.
#[tactic(auto, using(crate::proofs::Keywords::statement_keyword_is))]
fn statement_keyword(text: &[u8]) -> Option<TokenKind>
    ensures { result ≡ statement_keyword text.now }
{
    if let Some(kind) = choice_keyword(text) {
        return Some(kind);
    }
    if let Some(kind) = jump_keyword(text) {
        return Some(kind);
    }
    loop_or_call_keyword(text)
}

/// The keyword of a declaration or a type that the text is.
#[tactic(auto, unfolding(crate::specs::Lexical::declaration_keyword))]
fn declaration_keyword(text: &[u8]) -> Option<TokenKind>
    ensures { result ≡ declaration_keyword text.now }
{
    if is_word(text, b"chan") {
        Some(TokenKind::Chan)
    } else if is_word(text, b"const") {
        Some(TokenKind::Const)
    } else if is_word(text, b"func") {
        Some(TokenKind::Func)
    } else if is_word(text, b"import") {
        Some(TokenKind::Import)
    } else if is_word(text, b"interface") {
        Some(TokenKind::Interface)
    } else if is_word(text, b"map") {
        Some(TokenKind::Map)
    } else if is_word(text, b"package") {
        Some(TokenKind::Package)
    } else if is_word(text, b"struct") {
        Some(TokenKind::Struct)
    } else if is_word(text, b"type") {
        Some(TokenKind::TypeKeyword)
    } else if is_word(text, b"var") {
        Some(TokenKind::Var)
    } else {
        None
    }
}

/// A keyword, or a name.
#[tactic(auto, unfolding(crate::specs::Lexical::word))]
pub(crate) fn word(text: &[u8]) -> TokenKind
    ensures { result ≡ word text.now }
{
    if let Some(kind) = statement_keyword(text) {
        return kind;
    }
    match declaration_keyword(text) {
        Some(kind) => kind,
        None => TokenKind::Name,
    }
}

/// The mark that one byte is.
#[tactic(auto, unfolding(crate::specs::Lexical::mark_1))]
pub(crate) fn mark_1(byte: u8) -> Option<TokenKind>
    ensures { result ≡ mark_1 byte }
{
    match byte {
        b'+' => Some(TokenKind::Plus),
        b'-' => Some(TokenKind::Minus),
        b'*' => Some(TokenKind::Star),
        b'/' => Some(TokenKind::Slash),
        b'%' => Some(TokenKind::Percent),
        b'&' => Some(TokenKind::Ampersand),
        b'|' => Some(TokenKind::Bar),
        b'^' => Some(TokenKind::Caret),
        b'<' => Some(TokenKind::Less),
        b'>' => Some(TokenKind::Greater),
        b'=' => Some(TokenKind::Assign),
        b'!' => Some(TokenKind::Not),
        b'~' => Some(TokenKind::Tilde),
        b'(' => Some(TokenKind::LeftParenthesis),
        b')' => Some(TokenKind::RightParenthesis),
        b'[' => Some(TokenKind::LeftBracket),
        b']' => Some(TokenKind::RightBracket),
        b'{' => Some(TokenKind::LeftBrace),
        b'}' => Some(TokenKind::RightBrace),
        b',' => Some(TokenKind::Comma),
        b';' => Some(TokenKind::Semicolon),
        b'.' => Some(TokenKind::Period),
        b':' => Some(TokenKind::Colon),
        _ => None,
    }
}

/// The mark that two bytes are.
#[tactic(auto, unfolding(crate::specs::Lexical::mark_2))]
pub(crate) fn mark_2(first: u8, second: u8) -> Option<TokenKind>
    ensures { result ≡ mark_2 first second }
{
    match (first, second) {
        (b'<', b'<') => Some(TokenKind::ShiftLeft),
        (b'>', b'>') => Some(TokenKind::ShiftRight),
        (b'&', b'^') => Some(TokenKind::AndNot),
        (b'+', b'=') => Some(TokenKind::PlusAssign),
        (b'-', b'=') => Some(TokenKind::MinusAssign),
        (b'*', b'=') => Some(TokenKind::StarAssign),
        (b'/', b'=') => Some(TokenKind::SlashAssign),
        (b'%', b'=') => Some(TokenKind::PercentAssign),
        (b'&', b'=') => Some(TokenKind::AmpersandAssign),
        (b'|', b'=') => Some(TokenKind::BarAssign),
        (b'^', b'=') => Some(TokenKind::CaretAssign),
        (b'&', b'&') => Some(TokenKind::LogicalAnd),
        (b'|', b'|') => Some(TokenKind::LogicalOr),
        (b'<', b'-') => Some(TokenKind::Arrow),
        (b'+', b'+') => Some(TokenKind::Increment),
        (b'-', b'-') => Some(TokenKind::Decrement),
        (b'=', b'=') => Some(TokenKind::Equal),
        (b'!', b'=') => Some(TokenKind::NotEqual),
        (b'<', b'=') => Some(TokenKind::LessEqual),
        (b'>', b'=') => Some(TokenKind::GreaterEqual),
        (b':', b'=') => Some(TokenKind::Define),
        _ => None,
    }
}

/// The mark that three bytes are.
#[tactic(auto, unfolding(crate::specs::Lexical::mark_3))]
pub(crate) fn mark_3(first: u8, second: u8, third: u8) -> Option<TokenKind>
    ensures { result ≡ mark_3 first second third }
{
    match (first, second, third) {
        (b'<', b'<', b'=') => Some(TokenKind::ShiftLeftAssign),
        (b'>', b'>', b'=') => Some(TokenKind::ShiftRightAssign),
        (b'&', b'^', b'=') => Some(TokenKind::AndNotAssign),
        (b'.', b'.', b'.') => Some(TokenKind::Ellipsis),
        _ => None,
    }
}

/// Whether a line's end directly after this token inserts a semicolon.
pub(crate) fn ends_line(kind: TokenKind) -> bool
    ensures { result ≡ ends_line kind }
{
    match kind {
        TokenKind::Name => true,
        TokenKind::Integer => true,
        TokenKind::String => true,
        TokenKind::Break => true,
        TokenKind::Continue => true,
        TokenKind::Fallthrough => true,
        TokenKind::Return => true,
        TokenKind::Increment => true,
        TokenKind::Decrement => true,
        TokenKind::RightParenthesis => true,
        TokenKind::RightBracket => true,
        TokenKind::RightBrace => true,
        _ => false,
    }
}
