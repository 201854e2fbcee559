//! The names of the kinds of tokens.

use scanner::TokenKind;

/// What a kind of token is called.
pub fn kind_name(kind: TokenKind) -> &'static str {
    statement_keyword(kind)
        .or(declaration_word(kind))
        .or(operator(kind))
        .or(assignment(kind))
        .or(comparison(kind))
        .or(mark(kind))
        .unwrap_or("")
}

/// The name of a keyword of a statement.
fn statement_keyword(kind: TokenKind) -> Option<&'static str> {
    match kind {
        TokenKind::Break => Some("Break"),
        TokenKind::Case => Some("Case"),
        TokenKind::Continue => Some("Continue"),
        TokenKind::Default => Some("Default"),
        TokenKind::Defer => Some("Defer"),
        TokenKind::Else => Some("Else"),
        TokenKind::Fallthrough => Some("Fallthrough"),
        TokenKind::For => Some("For"),
        TokenKind::Go => Some("Go"),
        TokenKind::Goto => Some("Goto"),
        TokenKind::If => Some("If"),
        TokenKind::Range => Some("Range"),
        TokenKind::Return => Some("Return"),
        TokenKind::Select => Some("Select"),
        TokenKind::Switch => Some("Switch"),
        _ => None,
    }
}

/// The name of a keyword of a declaration or a type, or of a token written instead of it.
fn declaration_word(kind: TokenKind) -> Option<&'static str> {
    match kind {
        TokenKind::Chan => Some("Chan"),
        TokenKind::Const => Some("Const"),
        TokenKind::Func => Some("Func"),
        TokenKind::Import => Some("Import"),
        TokenKind::Interface => Some("Interface"),
        TokenKind::Map => Some("Map"),
        TokenKind::Package => Some("Package"),
        TokenKind::Struct => Some("Struct"),
        TokenKind::TypeKeyword => Some("TypeKeyword"),
        TokenKind::Var => Some("Var"),
        TokenKind::Name => Some("Name"),
        TokenKind::Integer => Some("Integer"),
        TokenKind::String => Some("String"),
        _ => None,
    }
}

/// The name of an operator that makes a value, or of a statement.
fn operator(kind: TokenKind) -> Option<&'static str> {
    match kind {
        TokenKind::Plus => Some("Plus"),
        TokenKind::Minus => Some("Minus"),
        TokenKind::Star => Some("Star"),
        TokenKind::Slash => Some("Slash"),
        TokenKind::Percent => Some("Percent"),
        TokenKind::Ampersand => Some("Ampersand"),
        TokenKind::Bar => Some("Bar"),
        TokenKind::Caret => Some("Caret"),
        TokenKind::ShiftLeft => Some("ShiftLeft"),
        TokenKind::ShiftRight => Some("ShiftRight"),
        TokenKind::AndNot => Some("AndNot"),
        TokenKind::LogicalAnd => Some("LogicalAnd"),
        TokenKind::LogicalOr => Some("LogicalOr"),
        TokenKind::Arrow => Some("Arrow"),
        TokenKind::Increment => Some("Increment"),
        TokenKind::Decrement => Some("Decrement"),
        TokenKind::Not => Some("Not"),
        TokenKind::Tilde => Some("Tilde"),
        _ => None,
    }
}

/// The name of a mark that assigns.
fn assignment(kind: TokenKind) -> Option<&'static str> {
    match kind {
        TokenKind::PlusAssign => Some("PlusAssign"),
        TokenKind::MinusAssign => Some("MinusAssign"),
        TokenKind::StarAssign => Some("StarAssign"),
        TokenKind::SlashAssign => Some("SlashAssign"),
        TokenKind::PercentAssign => Some("PercentAssign"),
        TokenKind::AmpersandAssign => Some("AmpersandAssign"),
        TokenKind::BarAssign => Some("BarAssign"),
        TokenKind::CaretAssign => Some("CaretAssign"),
        TokenKind::ShiftLeftAssign => Some("ShiftLeftAssign"),
        TokenKind::ShiftRightAssign => Some("ShiftRightAssign"),
        TokenKind::AndNotAssign => Some("AndNotAssign"),
        TokenKind::Assign => Some("Assign"),
        TokenKind::Define => Some("Define"),
        _ => None,
    }
}

/// The name of a comparison.
fn comparison(kind: TokenKind) -> Option<&'static str> {
    match kind {
        TokenKind::Equal => Some("Equal"),
        TokenKind::Less => Some("Less"),
        TokenKind::Greater => Some("Greater"),
        TokenKind::NotEqual => Some("NotEqual"),
        TokenKind::LessEqual => Some("LessEqual"),
        TokenKind::GreaterEqual => Some("GreaterEqual"),
        _ => None,
    }
}

/// The name of a mark that parts or encloses.
fn mark(kind: TokenKind) -> Option<&'static str> {
    match kind {
        TokenKind::Ellipsis => Some("Ellipsis"),
        TokenKind::LeftParenthesis => Some("LeftParenthesis"),
        TokenKind::RightParenthesis => Some("RightParenthesis"),
        TokenKind::LeftBracket => Some("LeftBracket"),
        TokenKind::RightBracket => Some("RightBracket"),
        TokenKind::LeftBrace => Some("LeftBrace"),
        TokenKind::RightBrace => Some("RightBrace"),
        TokenKind::Comma => Some("Comma"),
        TokenKind::Semicolon => Some("Semicolon"),
        TokenKind::Period => Some("Period"),
        TokenKind::Colon => Some("Colon"),
        _ => None,
    }
}
