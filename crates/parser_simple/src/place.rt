//! Names, and lvalues.

ghost use Rattle.std.specs.Prelude.{map};
ghost use Rattle.syntax.specs.Measures.{Entries};
ghost use Rattle.syntax.specs.View.{name_of, place_of};
ghost use Rattle.parser_base.specs.Cursor.{ahead};
ghost use Rattle.parser_base.specs.Reading.{Gives, TooMany, plain_name, listed};
ghost use Rattle.parser_simple.specs.Reading.{begins_name, separator_next, names, fields, place, before_mark, places};

use crate::form::{begins_with, name_next};
use parser_base::beside::beside;
use parser_base::cursor::Cursor;
use parser_base::fault::ParseFault;
use parser_base::found::Found;
use parser_base::list::{List, Next};
use parser_base::node::name_node;
use scanner::TokenKind;
use std::alloc::Global;
use syntax::limits::MAX_ENTRIES;
use syntax::{Name, PlaceNode};

/// A name that may be declared, and the position after it.
pub fn name_at(alloc: Global, cursor: Cursor<'_>) -> Result<(Name, Cursor<'_>), ParseFault>
    ensures { Gives (λ x. (name_of x.0, ahead x.1)) result (plain_name (ahead cursor.entry)) }
{
    let (name, rest) = cursor.plain_name()?;
    Ok((name_node(alloc, name)?, rest))
}

/// At most `most` names, with a separator between each two.
pub fn names(
    alloc: Global,
    separator: TokenKind,
    most: usize,
    cursor: Cursor<'_>,
) -> Result<List<'_, Name>, ParseFault>
    ensures { Gives (λ x. ((map name_of x.entries.items, x.trailing), ahead x.rest)) result (names separator most (ahead cursor.entry)) }
{
    let mut entries = Vec::new(alloc);
    let mut rest = cursor;
    for _ in 0..most {
        let (one, following) = name_at(alloc, rest)?;
        entries.push(one)?;
        let (next, after) = name_next(separator, following)?;
        match next {
            Next::More => rest = after,
            Next::End(trailing) => return Ok(List {
                entries,
                trailing,
                rest: after,
            }),
        }
    }
    Err(ParseFault::TooManyEntries(rest.place()))
}

/// The fields of an lvalue, each after a period.
#[tactic(auto, unfolding(crate::specs::Reading::fields))]
fn fields(alloc: Global, cursor: Cursor<'_>) -> Result<(Vec<Name>, Cursor<'_>), ParseFault>
    ensures { Gives (λ x. (map name_of x.0.items, ahead x.1)) result (fields (ahead cursor.entry)) }
{
    if !begins_with(TokenKind::Period, cursor) {
        return Ok((Vec::new(alloc), cursor));
    }
    let rest = cursor.expect(TokenKind::Period)?;
    let fields = names(alloc, TokenKind::Period, rest.len(), rest)?;
    Ok((fields.entries, fields.rest))
}

/// An lvalue: a name, and fields after it.
#[tactic(auto, unfolding(crate::specs::Reading::place))]
pub fn place(alloc: Global, cursor: Cursor<'_>) -> Result<Found<'_, PlaceNode>, ParseFault>
    ensures { Gives (λ x. (place_of x.node, ahead x.rest)) result (place (ahead cursor.entry)) }
{
    let (name, rest) = name_at(alloc, cursor)?;
    let (fields, rest) = fields(alloc, rest)?;
    Ok(Found {
        node: PlaceNode { name, fields },
        rest,
    })
}

/// An lvalue before this mark, and what follows the mark.
pub fn place_before(
    alloc: Global,
    mark: TokenKind,
    cursor: Cursor<'_>,
) -> Result<(PlaceNode, Cursor<'_>), ParseFault>
    ensures { Gives (λ x. (place_of x.0, ahead x.1)) result (before_mark mark (ahead cursor.entry)) }
{
    let target = place(alloc, cursor)?;
    beside(target.node, target.rest.expect(mark))
}

/// Lvalues with a comma between each two.
pub fn places(alloc: Global, cursor: Cursor<'_>) -> Result<List<'_, PlaceNode>, ParseFault>
    ensures { Gives (λ x. ((map place_of x.entries.items, x.trailing), ahead x.rest)) result (places MAX_ENTRIES (ahead cursor.entry)) }
{
    let mut entries = Vec::new(alloc);
    let mut rest = cursor;
    for _ in 0..MAX_ENTRIES {
        let one = place(alloc, rest)?;
        entries.push(one.node)?;
        let (next, after) = name_next(TokenKind::Comma, one.rest)?;
        match next {
            Next::More => rest = after,
            Next::End(trailing) => return Ok(List {
                entries,
                trailing,
                rest: after,
            }),
        }
    }
    Err(ParseFault::TooManyEntries(rest.place()))
}
