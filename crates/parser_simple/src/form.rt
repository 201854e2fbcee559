//! What follows an lvalue, by which the forms of a statement differ.

ghost use Rattle.std.specs.Prelude.{◌≡◌, true, zero, IfErr};
ghost use Rattle.parser_base.specs.Cursor.{ahead};
ghost use Rattle.parser_base.specs.Reading.{Gives, NamesRefusal, begins};
ghost use Rattle.parser_simple.specs.Spelling.{update_kind};
ghost use Rattle.parser_simple.specs.Reading.{begins_with, begins_call, begins_name, separator_next, update_of, form_at, form_of, place_form, defines, goes_on, within, stopped, fits};

use parser_base::cursor::{Cursor, Word, is_builtin};
use parser_base::expression::begins;
use parser_base::fault::ParseFault;
use parser_base::list::Next;
use parser_base::operator::binary_of;
use scanner::TokenKind;
use syntax::BinaryOperator;

/// What follows an lvalue, or a list of lvalues that begins with it.
#[derive(Clone, Copy)]
pub enum Form {
    /// `++`
    Increment,
    /// `--`
    Decrement,
    /// The mark of an assignment with an operator, as `+=`.
    Update(BinaryOperator),
    /// `=`, and whether `range` follows it.
    Assign(bool),
    /// `:=`, and whether `range` follows it.
    Define(bool),
    /// A comma.
    List,
    /// Anything else.
    Other,
}

/// Whether this mark comes next.
#[tactic(auto, unfolding(crate::specs::Reading::begins_with))]
pub fn begins_with(kind: TokenKind, cursor: Cursor<'_>) -> bool
    ensures { result ≡ begins_with kind (ahead cursor.entry) }
{
    match cursor.next() {
        Some((Word::Mark(first), _)) => first == kind,
        _ => false,
    }
}

/// Whether a call comes next of a function that is not built in.
#[tactic(auto, unfolding(crate::specs::Reading::begins_call))]
pub fn begins_call(cursor: Cursor<'_>) -> bool
    ensures { result ≡ begins_call (ahead cursor.entry) }
{
    match cursor.next() {
        Some((Word::Name(name), rest)) => !is_builtin(name)
            && begins_with(TokenKind::LeftParenthesis, rest),
        _ => false,
    }
}

/// Whether a name that may be declared comes next.
#[tactic(auto, unfolding(crate::specs::Reading::begins_name))]
pub fn begins_name(cursor: Cursor<'_>) -> bool
    ensures { result ≡ begins_name (ahead cursor.entry) }
{
    match cursor.next() {
        Some((Word::Name(name), _)) => !is_builtin(name),
        _ => false,
    }
}

/// What follows a name or an lvalue of a list without a closing mark: the start of the next one, or the end of the list.
#[tactic(auto, unfolding(crate::specs::Reading::separator_next))]
pub fn name_next(separator: TokenKind, cursor: Cursor<'_>) -> Result<(Next, Cursor<'_>), ParseFault>
    ensures gives { Gives (λ x. (x.0, ahead x.1)) result (separator_next begins_name separator (ahead cursor.entry)) }
    ensures refused { IfErr result NamesRefusal }
{
    match cursor.next() {
        Some((Word::Mark(kind), rest)) if kind == separator => {
            if !begins_name(rest) {
                return Err(ParseFault::Syntax(rest.place()));
            }
            Ok((Next::More, rest))
        }
        _ => Ok((Next::End(false), cursor)),
    }
}

/// What follows a value of a list without a closing mark: the start of the next one, or the end of the list.
#[tactic(auto, unfolding(crate::specs::Reading::separator_next))]
pub fn value_next(cursor: Cursor<'_>) -> Result<(Next, Cursor<'_>), ParseFault>
    ensures gives { Gives (λ x. (x.0, ahead x.1)) result (separator_next begins TokenKind.Comma (ahead cursor.entry)) }
    ensures refused { IfErr result NamesRefusal }
{
    match cursor.next() {
        Some((Word::Mark(TokenKind::Comma), rest)) => {
            if !begins(rest) {
                return Err(ParseFault::Syntax(rest.place()));
            }
            Ok((Next::More, rest))
        }
        _ => Ok((Next::End(false), cursor)),
    }
}

/// The operator of the mark of an assignment with an operator.
fn update_of(kind: TokenKind) -> Option<BinaryOperator>
    ensures { result ≡ update_of kind }
{
    Some(match kind {
        TokenKind::PlusAssign => BinaryOperator::Add,
        TokenKind::MinusAssign => BinaryOperator::Subtract,
        TokenKind::StarAssign => BinaryOperator::Multiply,
        TokenKind::SlashAssign => BinaryOperator::Divide,
        TokenKind::PercentAssign => BinaryOperator::Remainder,
        TokenKind::AmpersandAssign => BinaryOperator::And,
        TokenKind::BarAssign => BinaryOperator::Or,
        TokenKind::CaretAssign => BinaryOperator::ExclusiveOr,
        TokenKind::AndNotAssign => BinaryOperator::AndNot,
        TokenKind::ShiftLeftAssign => BinaryOperator::ShiftLeft,
        TokenKind::ShiftRightAssign => BinaryOperator::ShiftRight,
        _ => return None,
    })
}

/// The mark of an assignment with this operator ("Assignment statements" of the Go specification).
pub fn update_kind(operator: BinaryOperator) -> TokenKind
    ensures { result ≡ update_kind operator }
{
    match operator {
        BinaryOperator::Add => TokenKind::PlusAssign,
        BinaryOperator::Subtract => TokenKind::MinusAssign,
        BinaryOperator::Multiply => TokenKind::StarAssign,
        BinaryOperator::Divide => TokenKind::SlashAssign,
        BinaryOperator::Remainder => TokenKind::PercentAssign,
        BinaryOperator::And => TokenKind::AmpersandAssign,
        BinaryOperator::Or => TokenKind::BarAssign,
        BinaryOperator::ExclusiveOr => TokenKind::CaretAssign,
        BinaryOperator::AndNot => TokenKind::AndNotAssign,
        BinaryOperator::ShiftLeft => TokenKind::ShiftLeftAssign,
        BinaryOperator::ShiftRight => TokenKind::ShiftRightAssign,
        _ => TokenKind::Assign,
    }
}

/// The form that a mark after an lvalue begins, before what follows the mark.
fn form_at(kind: TokenKind, rest: Cursor<'_>) -> Form
    ensures { result ≡ form_at kind (ahead rest.entry) }
{
    match kind {
        TokenKind::Increment => Form::Increment,
        TokenKind::Decrement => Form::Decrement,
        TokenKind::Comma => Form::List,
        TokenKind::Assign => Form::Assign(begins_with(TokenKind::Range, rest)),
        TokenKind::Define => Form::Define(begins_with(TokenKind::Range, rest)),
        kind => match update_of(kind) {
            Some(operator) => Form::Update(operator),
            None => Form::Other,
        },
    }
}

/// The form of what begins here with an lvalue.
#[tactic(auto, unfolding(crate::specs::Reading::form_of))]
pub fn form_of(cursor: Cursor<'_>) -> Form
    ensures { result ≡ form_of true (ahead cursor.entry) }
{
    let mut named = true;
    let mut rest = cursor;
    for _ in 0..cursor.len() {
        match (named, rest.next()) {
            (true, Some((Word::Name(_), after))) => {
                named = false;
                rest = after;
            }
            (false, Some((Word::Mark(kind), after))) => {
                if kind != TokenKind::Period {
                    return form_at(kind, after);
                }
                named = true;
                rest = after;
            }
            _ => return Form::Other,
        }
    }
    Form::Other
}

/// The form of what begins here with an lvalue, if one comes next.
pub fn place_form(cursor: Cursor<'_>) -> Form
    ensures { result ≡ place_form (ahead cursor.entry) }
{
    if begins_name(cursor) {
        form_of(cursor)
    } else {
        Form::Other
    }
}

/// Whether names with commas between them come next, and then a `:=`.
#[tactic(auto, unfolding(crate::specs::Reading::defines))]
pub fn defines(cursor: Cursor<'_>) -> bool
    ensures { result ≡ defines true (ahead cursor.entry) }
{
    let mut rest = cursor;
    for _ in 0..cursor.len() {
        let Some((Word::Name(_), following)) = rest.next() else {
            return false;
        };
        let Some((Word::Mark(kind), after)) = following.next() else {
            return false;
        };
        if kind == TokenKind::Define {
            return true;
        }
        if kind != TokenKind::Comma {
            return false;
        }
        rest = after;
    }
    false
}

/// Whether a name or, if `alone` is false, a selection goes on as a value with this mark: as the operand of a send,
/// as a call, in a condition if `header` is true, or as a composite literal if `literals` is.
fn goes_on(header: bool, literals: bool, alone: bool, kind: TokenKind) -> bool
    ensures { result ≡ goes_on header literals alone kind }
{
    match kind {
        TokenKind::Arrow => true,
        TokenKind::LeftParenthesis => alone,
        TokenKind::LeftBrace => header || (literals && alone),
        kind => header && binary_of(kind).is_some(),
    }
}

/// Refuses a `height` above `depth_left`, at `following`: as too deep if it `goes` on as a value, else as a syntax error.
pub fn within(
    height: usize,
    depth_left: u32,
    goes: bool,
    following: Cursor<'_>,
) -> Result<(), ParseFault>
    ensures gives { Gives (λ x. x) result (within height depth_left goes) }
    ensures refused { IfErr result NamesRefusal }
{
    if height <= depth_left as usize {
        return Ok(());
    }
    if goes {
        return Err(ParseFault::TooDeep(following.place()));
    }
    Err(ParseFault::Syntax(following.place()))
}

/// Like `within` if no value goes on. After a period, when a name must come next, no level is allowed.
fn stopped(
    named: bool,
    height: usize,
    depth_left: u32,
    following: Cursor<'_>,
) -> Result<(), ParseFault>
    ensures gives { Gives (λ x. x) result (stopped named height depth_left) }
    ensures refused { IfErr result NamesRefusal }
{
    within(height, if named { 0 } else { depth_left }, false, following)
}

/// Refuses a name or a selection here that is too high as a value, at what follows it, since up to there it could be an lvalue.
#[tactic(auto, unfolding(crate::specs::Reading::fits))]
pub fn fits(
    header: bool,
    literals: bool,
    depth_left: u32,
    cursor: Cursor<'_>,
) -> Result<(), ParseFault>
    ensures gives { Gives (λ x. x) result (fits header literals true 0 depth_left (ahead cursor.entry)) }
    ensures refused { IfErr result NamesRefusal }
{
    let mut named = true;
    let mut height = 0;
    let mut rest = cursor;
    for _ in 0..cursor.len() {
        match (named, rest.next()) {
            (true, Some((Word::Name(name), after))) if !is_builtin(name) => {
                named = false;
                height += 1;
                rest = after;
            }
            (false, Some((Word::Mark(kind), after))) => {
                if kind != TokenKind::Period {
                    let goes = goes_on(header, literals, height <= 1, kind);
                    return within(height, depth_left, goes, rest);
                }
                named = true;
                rest = after;
            }
            _ => return stopped(named, height, depth_left, rest),
        }
    }
    stopped(named, height, depth_left, rest)
}
