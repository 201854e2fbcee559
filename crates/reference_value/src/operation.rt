//! What calls and requests within expressions give, their operands evaluated.

ghost use Rattle.std.specs.Prelude.{◌≡◌, ◌∷◌, [], Bool, IfErr, IfOk, pos};
ghost use Rattle.syntax.specs.View.{type_of};
ghost use Rattle.type_table.specs.Views.{kind_of};
ghost use Rattle.type_table.specs.Visible.{globals_in, types_of};
ghost use Rattle.type_table.specs.Zeros.{zero_words};
ghost use Rattle.typing_rules.specs.Calls.{result_of};
ghost use Rattle.word.specs.Views.{request_of};
ghost use Rattle.meaning.specs.Expressions.{called, item_zeros, made, received, told_one, zero_result};
ghost use Rattle.meaning.specs.Values.{first_of};
ghost use Rattle.meaning.specs.Worked.{Asking, and_then, ready};
ghost use Rattle.reference_scope.specs.Parts.{values_of};
ghost use Rattle.reference_value.specs.Stops.{Comes, Stops};

use crate::callee::result_of;
use crate::fault::Stop;
use crate::given::{Given, Need, first_of, told, told_one};
use crate::kind::made_kind;
use reference_scope::words::{channel_in, single, with_first, word_in};
use std::alloc::{AllocError, Global};
use syntax::TypeNode;
use type_table::table::TypeTable;
use type_table::value_type::ValueType;
use type_table::zero::zero;
use word::request::Request;
use word::value::Word;

/// The zero value of a type.
pub fn zero_of(
    alloc: Global,
    table: &TypeTable<'_>,
    kind: ValueType<'_>,
) -> Result<Vec<Word>, AllocError>
    ensures { IfOk result (λ v. v.items ≡ zero_words (globals_in table.now).structs (kind_of (types_of table.now) kind.entry)) }
{
    let item = zero(alloc, table, kind);
    Vec::from_slice(alloc, item.words())
}

/// Zeros: this one, like an item, and one like whether it was sent.
pub fn with_sent(alloc: Global, item: Vec<Word>) -> Result<Vec<Vec<Word>>, AllocError>
    ensures { IfOk result (λ v. values_of v.items ≡ item.items ∷ ((Word.Bool Bool.false ∷ []) ∷ [])) }
{
    let sent = single(alloc, Word::Bool(false))?;
    with_first(item, with_first(sent, Vec::new(alloc))?)
}

/// Zeros like an item of this type, and whether it was sent.
pub fn item_zeros(
    alloc: Global,
    table: &TypeTable<'_>,
    kind: ValueType<'_>,
) -> Result<Vec<Vec<Word>>, AllocError>
    ensures { IfOk result (λ v. values_of v.items ≡ item_zeros (globals_in table.now) (kind_of (types_of table.now) kind.entry)) }
{
    let item = zero_of(alloc, table, kind)?;
    with_sent(alloc, item)
}

/// A zero like the result of the function with this number.
fn zero_result(alloc: Global, table: &TypeTable<'_>, number: usize) -> Result<Vec<Word>, AllocError>
    ensures { IfOk result (λ v. v.items ≡ zero_result (globals_in table.now) (result_of (globals_in table.now) number)) }
{
    match result_of(table, number) {
        Some(kind) => zero_of(alloc, table, kind),
        None => Ok(Vec::new(alloc)),
    }
}

/// An item that is received from a channel that carries values of this type, and whether it was sent.
///
/// Errors: `Needs`; `Memory`.
pub(crate) fn received<'g>(
    alloc: Global,
    table: &TypeTable<'_>,
    kind: ValueType<'_>,
    channel: &[Word],
    given: &'g [Given],
) -> Result<(Vec<Vec<Word>>, &'g [Given]), Stop>
    ensures ok { IfOk result (λ r. Comes (received (globals_in table.now) (kind_of (types_of table.now) kind.entry) channel.now) given.now (values_of r.0.items) r.1.now) }
    ensures err { IfErr result (Stops (received (globals_in table.now) (kind_of (types_of table.now) kind.entry) channel.now) given.now) }
{
    let zeros = item_zeros(alloc, table, kind)?;
    let request = Request::Receive(channel_in(word_in(channel)));
    told(alloc, zeros.as_slice(), Need::Asking(request), given)
}

/// An item that is received from a channel that carries values of this type.
///
/// Errors: `Needs`; `Memory`.
pub(crate) fn item_received<'g>(
    alloc: Global,
    table: &TypeTable<'_>,
    kind: ValueType<'_>,
    channel: &[Word],
    given: &'g [Given],
) -> Result<(Vec<Word>, &'g [Given]), Stop>
    ensures ok { IfOk result (λ r. Comes (and_then (received (globals_in table.now) (kind_of (types_of table.now) kind.entry) channel.now) (λ got. ready (first_of got))) given.now r.0.items r.1.now) }
    ensures err { IfErr result (Stops (and_then (received (globals_in table.now) (kind_of (types_of table.now) kind.entry) channel.now) (λ got. ready (first_of got))) given.now) }
{
    let (got, left) = received(alloc, table, kind, channel, given)?;
    Ok((first_of(alloc, got), left))
}

/// What a call of the function with this number gives.
///
/// Errors: `Needs`; `Memory`.
pub(crate) fn called<'g>(
    alloc: Global,
    table: &TypeTable<'_>,
    number: usize,
    arguments: Vec<Vec<Word>>,
    given: &'g [Given],
) -> Result<(Vec<Word>, &'g [Given]), Stop>
    ensures ok { IfOk result (λ r. Comes (called (globals_in table.now) number (values_of arguments.items)) given.now r.0.items r.1.now) }
    ensures err { IfErr result (Stops (called (globals_in table.now) number (values_of arguments.items)) given.now) }
{
    let like = zero_result(alloc, table, number)?;
    told_one(
        alloc,
        like.as_slice(),
        Need::Calling(number, arguments),
        given,
    )
}

/// A new channel of this type, whose buffer has this size.
///
/// Errors: `Needs`; `Memory`.
pub(crate) fn made<'g>(
    alloc: Global,
    table: &TypeTable<'_>,
    kind: &TypeNode,
    size: i64,
    given: &'g [Given],
) -> Result<(Vec<Word>, &'g [Given]), Stop>
    ensures ok { IfOk result (λ r. Comes (made (globals_in table.now) (type_of kind.now) size) given.now r.0.items r.1.now) }
    ensures err { IfErr result (Stops (made (globals_in table.now) (type_of kind.now) size) given.now) }
{
    let item = zero(alloc, table, made_kind(table, kind));
    let need = Need::Asking(Request::Make(size, item));
    told_one(alloc, &[Word::Chan(None)], need, given)
}

/// The number that this request gives.
///
/// Errors: `Needs`; `Memory`.
pub(crate) fn measured(
    alloc: Global,
    request: Request,
    given: &[Given],
) -> Result<(Vec<Word>, &[Given]), Stop>
    ensures ok { IfOk result (λ r. Comes (told_one (Word.Int (pos 0) ∷ []) (Asking (request_of request))) given.now r.0.items r.1.now) }
    ensures err { IfErr result (Stops (told_one (Word.Int (pos 0) ∷ []) (Asking (request_of request))) given.now) }
{
    told_one(alloc, &[Word::Int(0)], Need::Asking(request), given)
}
