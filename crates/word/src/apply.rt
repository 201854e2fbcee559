//! Operators on words.

ghost use Rattle.std.specs.Prelude.{◌≡◌, ◌≢◌};
ghost use Rattle.word.specs.Apply.{bool_value, chan_value, int_value, same_chan, shifted_left, shifted_right, value};

use crate::panic::Panic;
use crate::value::Word;

/// An operator of the source on words (Go: Operators). Operands of `EqInt` and `NeInt` are ints, of `EqBool` and `NeBool`
/// bools, of `EqChan` and `NeChan` channels.
#[derive(Clone, Copy, PartialEq, Eq)]
pub enum Op {
    /// `x + y`; sums, differences, products and negations wrap in two's complement.
    Add,
    /// `x - y`.
    Sub,
    /// `x * y`.
    Mul,
    /// `x / y`, truncated toward zero.
    Div,
    /// `x % y`, with the sign of `x`.
    Rem,
    /// `x & y`.
    And,
    /// `x | y`.
    Or,
    /// `x ^ y`.
    Xor,
    /// `x &^ y`.
    AndNot,
    /// `x << y`.
    Shl,
    /// `x >> y`, which keeps the sign.
    Shr,
    /// `-x`.
    Neg,
    /// `^x`.
    Com,
    /// `!x`.
    Not,
    /// `x == y` of ints.
    EqInt,
    /// `x != y` of ints.
    NeInt,
    /// `x < y`.
    Lt,
    /// `x <= y`.
    Le,
    /// `x > y`.
    Gt,
    /// `x >= y`.
    Ge,
    /// `x == y` of bools.
    EqBool,
    /// `x != y` of bools.
    NeBool,
    /// `x == y` of channels.
    EqChan,
    /// `x != y` of channels.
    NeChan,
}

/// The value of an operator on its operands, or the panic that it meets. A unary operator is given its operand twice.
pub fn apply(op: Op, x: Word, y: Word) -> Result<Word, Panic>
    requires { value op x y ≢ None }
    ensures { value op x y ≡ Some result }
{
    match checked_apply(op, x, y) {
        Some(result) => result,
        None => unreachable!(),
    }
}

/// Like `apply`, but returns `None` if the words are of other kinds than the operator's.
#[inline(always)]
pub fn checked_apply(op: Op, x: Word, y: Word) -> Option<Result<Word, Panic>>
    ensures { result ≡ value op x y }
{
    match x {
        Word::Int(x) => match y {
            Word::Int(y) => on_ints(op, x, y),
            Word::Bool(_) => None,
            Word::Chan(_) => None,
        },
        Word::Bool(x) => match y {
            Word::Bool(y) => on_bools(op, x, y),
            Word::Int(_) => None,
            Word::Chan(_) => None,
        },
        Word::Chan(x) => match y {
            Word::Chan(y) => on_chans(op, x, y),
            Word::Int(_) => None,
            Word::Bool(_) => None,
        },
    }
}

fn number(value: i64) -> Option<Result<Word, Panic>>
    ensures { result ≡ Some (Ok (Word.Int value)) }
{
    Some(Ok(Word::Int(value)))
}

fn truth(value: bool) -> Option<Result<Word, Panic>>
    ensures { result ≡ Some (Ok (Word.Bool value)) }
{
    Some(Ok(Word::Bool(value)))
}

fn panics(cause: Panic) -> Option<Result<Word, Panic>>
    ensures { result ≡ Some (Err cause) }
{
    Some(Err(cause))
}

#[inline(always)]
#[tactic(auto, using(std::proofs::lemmas::Int::wraps))]
fn on_ints(op: Op, x: i64, y: i64) -> Option<Result<Word, Panic>>
    ensures { result ≡ int_value op x y }
{
    match op {
        Op::Add => number(x.wrapping_add(y)),
        Op::Sub => number(x.wrapping_sub(y)),
        Op::Mul => number(x.wrapping_mul(y)),
        Op::Neg => number(x.wrapping_neg()),
        Op::Div => quotient(x, y),
        Op::Rem => remainder(x, y),
        Op::And => number(x & y),
        Op::Or => number(x | y),
        Op::Xor => number(x ^ y),
        Op::AndNot => number(x & !y),
        Op::Com => number(!x),
        Op::Shl => shift_left(x, y),
        Op::Shr => shift_right(x, y),
        Op::EqInt => truth(x == y),
        Op::NeInt => truth(x != y),
        Op::Lt => truth(x < y),
        Op::Le => truth(x <= y),
        Op::Gt => truth(y < x),
        Op::Ge => truth(y <= x),
        Op::Not | Op::EqBool | Op::NeBool | Op::EqChan | Op::NeChan => None,
    }
}

fn quotient(x: i64, y: i64) -> Option<Result<Word, Panic>>
    ensures { result ≡ int_value Op.Div x y }
{
    if y == 0 {
        panics(Panic::DivideByZero)
    } else {
        number(x.wrapping_div(y))
    }
}

fn remainder(x: i64, y: i64) -> Option<Result<Word, Panic>>
    ensures { result ≡ int_value Op.Rem x y }
{
    if y == 0 {
        panics(Panic::DivideByZero)
    } else {
        number(x.wrapping_rem(y))
    }
}

fn shift_left(x: i64, y: i64) -> Option<Result<Word, Panic>>
    ensures { result ≡ shifted_left x y }
{
    if y < 0 {
        panics(Panic::NegativeShift)
    } else if y < 64 {
        number(x << y)
    } else {
        number(0)
    }
}

fn shift_right(x: i64, y: i64) -> Option<Result<Word, Panic>>
    ensures { result ≡ shifted_right x y }
{
    if y < 0 {
        panics(Panic::NegativeShift)
    } else if y < 64 {
        number(x >> y)
    } else if x < 0 {
        number(-1)
    } else {
        number(0)
    }
}

fn on_bools(op: Op, x: bool, y: bool) -> Option<Result<Word, Panic>>
    ensures { result ≡ bool_value op x y }
{
    match op {
        Op::Not => truth(!x),
        Op::EqBool => truth(if x { y } else { !y }),
        Op::NeBool => truth(if x { !y } else { y }),
        Op::Add
        | Op::Sub
        | Op::Mul
        | Op::Div
        | Op::Rem
        | Op::And
        | Op::Or
        | Op::Xor
        | Op::AndNot
        | Op::Shl
        | Op::Shr
        | Op::Neg
        | Op::Com
        | Op::EqInt
        | Op::NeInt
        | Op::Lt
        | Op::Le
        | Op::Gt
        | Op::Ge
        | Op::EqChan
        | Op::NeChan => None,
    }
}

fn is_same_chan(x: Option<u32>, y: Option<u32>) -> bool
    ensures { result ≡ same_chan x y }
{
    match x {
        None => y.is_none(),
        Some(c) => match y {
            None => false,
            Some(d) => c == d,
        },
    }
}

fn on_chans(op: Op, x: Option<u32>, y: Option<u32>) -> Option<Result<Word, Panic>>
    ensures { result ≡ chan_value op x y }
{
    match op {
        Op::EqChan => truth(is_same_chan(x, y)),
        Op::NeChan => truth(!is_same_chan(x, y)),
        Op::Add
        | Op::Sub
        | Op::Mul
        | Op::Div
        | Op::Rem
        | Op::And
        | Op::Or
        | Op::Xor
        | Op::AndNot
        | Op::Shl
        | Op::Shr
        | Op::Neg
        | Op::Com
        | Op::Not
        | Op::EqInt
        | Op::NeInt
        | Op::Lt
        | Op::Le
        | Op::Gt
        | Op::Ge
        | Op::EqBool
        | Op::NeBool => None,
    }
}
