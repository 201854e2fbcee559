//! Values as words, and operators on them.

ghost use Rattle.std.specs.Prelude.{◌≡◌, ◌++◌, ◌∷◌, [], IfOk, IfErr, OnOk, IfSome, IfNone, length};
ghost use Rattle.std.specs.Int.{w64, int_wrap};
ghost use Rattle.meaning.specs.Expressions.{word_in, one_word, number_in, channel_in, equality, inequality, operator_at, between, beside, before};
ghost use Rattle.meaning.specs.Values.{Value, word_like, words_like};
ghost use Rattle.meaning.specs.Worked.{Worked, and_then, fails, ready};

use std::alloc::{AllocError, Global};
use syntax::{BinaryOperator, UnaryOperator};
use word::apply::{Op, checked_apply};
use word::panic::Panic;
use word::value::Word;

/// The one word of an int, a bool or a channel.
pub fn word_in(words: &[Word]) -> Word
    ensures { result ≡ word_in words.now }
{
    match words.first() {
        Some(word) => *word,
        None => Word::Int(0),
    }
}

/// The number that a word is.
pub fn number_in(word: Word) -> i64
    ensures { result ≡ number_in word }
{
    match word {
        Word::Int(number) => number,
        _ => 0,
    }
}

/// The channel that a word is.
pub fn channel_in(word: Word) -> Option<u32>
    ensures { result ≡ channel_in word }
{
    match word {
        Word::Chan(channel) => channel,
        _ => None,
    }
}

/// The value that is this word.
pub fn single(alloc: Global, word: Word) -> Result<Vec<Word>, AllocError>
    ensures { IfOk result (λ v. v.items ≡ word ∷ []) }
{
    let mut words = Vec::new(alloc);
    words.push(word)?;
    Ok(words)
}

/// The list with this one before the others.
pub fn with_first<T: Drop>(first: T, others: Vec<T>) -> Result<Vec<T>, AllocError>
    ensures { IfOk result (λ all. all.items ≡ first ∷ others.items) }
{
    let mut all = others;
    all.insert(0, first)?;
    Ok(all)
}

/// Appends an entry to the others.
pub fn put_last<T: Drop>(list: &mut Vec<T>, entry: T) -> Result<(), AllocError>
    ensures { OnOk result (list.new.items ≡ list.old.items ++ entry ∷ []) }
{
    list.push(entry)?;
    Ok(())
}

/// A number brought into 64 bits.
pub fn wrapped(number: i128) -> i64
    ensures { result ≡ int_wrap w64 number }
{
    (number.rem_euclid(1 << 64).unsigned_abs() as u64).cast_signed()
}

/// A word like this zero; the zero if it is of another kind.
fn word_like(zero: Word, word: Word) -> Word
    ensures { result ≡ word_like zero word }
{
    match (zero, word) {
        (Word::Int(_), Word::Int(number)) => Word::Int(number),
        (Word::Bool(_), Word::Bool(truth)) => Word::Bool(truth),
        (Word::Chan(_), Word::Chan(channel)) => Word::Chan(channel),
        _ => zero,
    }
}

/// Words like these zeros, and zeros if there are no more.
pub fn words_like(alloc: Global, zeros: &[Word], words: &[Word]) -> Result<Vec<Word>, AllocError>
    ensures words { IfOk result (λ v. v.items ≡ words_like zeros.now words.now) }
    ensures count { IfOk result (λ v. length v.items ≡ length zeros.now) }
{
    match (zeros, words) {
        ([], _) => Ok(Vec::new(alloc)),
        ([zero, zeros @ ..], []) => {
            let others = words_like(alloc, zeros, &[])?;
            with_first(*zero, others)
        }
        ([zero, zeros @ ..], [word, words @ ..]) => {
            let others = words_like(alloc, zeros, words)?;
            with_first(word_like(*zero, *word), others)
        }
    }
}

/// What an operator gave; a zero if its operands were of other kinds.
fn one_word(valued: Option<Result<Word, Panic>>) -> Result<Word, Panic>
    ensures ok { IfOk result (λ w. one_word valued ≡ ready (w ∷ [])) }
    ensures err { IfErr result (λ p. one_word valued ≡ fails p) }
{
    match valued {
        Some(Ok(word)) => Ok(word),
        Some(Err(cause)) => Err(cause),
        None => Ok(Word::Int(0)),
    }
}

/// The equality of words of this one's kind.
fn equality(word: Word) -> Op
    ensures { result ≡ equality word }
{
    match word {
        Word::Int(_) => Op::EqInt,
        Word::Bool(_) => Op::EqBool,
        Word::Chan(_) => Op::EqChan,
    }
}

/// The inequality of words of this one's kind.
fn inequality(word: Word) -> Op
    ensures { result ≡ inequality word }
{
    match word {
        Word::Int(_) => Op::NeInt,
        Word::Bool(_) => Op::NeBool,
        Word::Chan(_) => Op::NeChan,
    }
}

/// The operator between this word and another one.
fn operator_at(operator: BinaryOperator, word: Word) -> Op
    ensures { result ≡ operator_at operator word }
{
    match operator {
        BinaryOperator::Add => Op::Add,
        BinaryOperator::Subtract => Op::Sub,
        BinaryOperator::Multiply => Op::Mul,
        BinaryOperator::Divide => Op::Div,
        BinaryOperator::Remainder => Op::Rem,
        BinaryOperator::And => Op::And,
        BinaryOperator::Or => Op::Or,
        BinaryOperator::ExclusiveOr => Op::Xor,
        BinaryOperator::AndNot => Op::AndNot,
        BinaryOperator::ShiftLeft => Op::Shl,
        BinaryOperator::ShiftRight => Op::Shr,
        BinaryOperator::Equal => equality(word),
        BinaryOperator::NotEqual => inequality(word),
        BinaryOperator::Less => Op::Lt,
        BinaryOperator::LessEqual => Op::Le,
        BinaryOperator::Greater => Op::Gt,
        BinaryOperator::GreaterEqual => Op::Ge,
        BinaryOperator::LogicalAnd | BinaryOperator::LogicalOr => Op::EqBool,
    }
}

/// What an operator between two words makes of them. If `&&` or `||` needs the right one, it is their value.
///
/// Errors: the panic that it meets.
pub fn between(operator: BinaryOperator, a: Word, b: Word) -> Result<Word, Panic>
    ensures ok { IfOk result (λ w. between operator a b ≡ ready (w ∷ [])) }
    ensures err { IfErr result (λ p. between operator a b ≡ fails p) }
{
    match operator {
        BinaryOperator::LogicalAnd | BinaryOperator::LogicalOr => Ok(b),
        _ => one_word(checked_apply(operator_at(operator, a), a, b)),
    }
}

/// The word of `&&` or `||` whose left operand settles it.
pub fn settled(operator: BinaryOperator, a: Word) -> Option<Word>
    ensures some { IfSome result (λ w. (right : Worked Value) → beside operator a right ≡ ready (w ∷ [])) }
    ensures none { IfNone result ((right : Worked Value) → beside operator a right ≡ and_then right (λ b. between operator a (word_in b))) }
{
    match (operator, a) {
        (BinaryOperator::LogicalAnd, Word::Bool(false)) => Some(Word::Bool(false)),
        (BinaryOperator::LogicalOr, Word::Bool(true)) => Some(Word::Bool(true)),
        _ => None,
    }
}

/// What an operator before a word makes of it.
///
/// Errors: the panic that it meets.
pub fn before(operator: UnaryOperator, a: Word) -> Result<Word, Panic>
    ensures ok { IfOk result (λ w. before operator a ≡ ready (w ∷ [])) }
    ensures err { IfErr result (λ p. before operator a ≡ fails p) }
{
    match operator {
        UnaryOperator::Plus => Ok(a),
        UnaryOperator::Negate => one_word(checked_apply(Op::Neg, a, a)),
        UnaryOperator::Not => one_word(checked_apply(Op::Not, a, a)),
        UnaryOperator::Complement => one_word(checked_apply(Op::Com, a, a)),
    }
}
