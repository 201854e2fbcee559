//! Fields of struct types, and parameters of functions.

ghost use Rattle.std.specs.Prelude.{map, IfErr};
ghost use Rattle.scanner.specs.declared.kind.TokenKind.{TokenKind};
ghost use Rattle.syntax.specs.View.{declared_of};
ghost use Rattle.parser_base.specs.Cursor.{ahead};
ghost use Rattle.parser_base.specs.Reading.{Gives, NamesRefusal, entry_next};
ghost use Rattle.parser_simple.specs.Reading.{begins_name};
ghost use Rattle.parser.specs.Reading.{declared, some_declared, all_declared};

use parser_base::beside::beside;
use parser_base::cursor::{Cursor, Word};
use parser_base::expression::closed;
use parser_base::fault::ParseFault;
use parser_base::list::{List, Next};
use parser_base::types::type_at;
use parser_simple::form::begins_name;
use parser_simple::place::names;
use scanner::TokenKind;
use std::alloc::Global;
use syntax::DeclaredNode;
use syntax::limits::MAX_ENTRIES;

/// What follows the type of fields or parameters.
#[tactic(auto, unfolding(parser_base::specs::Reading::entry_next))]
fn declared_next(
    separator: TokenKind,
    close: TokenKind,
    cursor: Cursor<'_>,
) -> Result<(Next, Cursor<'_>), ParseFault>
    ensures gives { Gives (λ x. (x.0, ahead x.1)) result (entry_next separator begins_name close (ahead cursor.entry)) }
    ensures refused { IfErr result NamesRefusal }
{
    let Some((Word::Mark(kind), rest)) = cursor.next() else {
        return Err(ParseFault::Syntax(cursor.place()));
    };
    if kind == separator {
        return match begins_name(rest) {
            true => Ok((Next::More, rest)),
            false => closed(close, true, rest),
        };
    }
    closed(close, false, cursor)
}

/// At most `most` names and their type, of at most `depth_left` levels.
#[tactic(auto, unfolding(crate::specs::Reading::declared))]
fn declared(
    alloc: Global,
    most: usize,
    depth_left: u32,
    cursor: Cursor<'_>,
) -> Result<(DeclaredNode, Cursor<'_>), ParseFault>
    ensures { Gives (λ x. (declared_of x.0, ahead x.1)) result (declared most depth_left (ahead cursor.entry)) }
{
    let all = names(alloc, TokenKind::Comma, most, cursor)?;
    let (names, found) = beside(all.entries, type_at(alloc, depth_left, all.rest))?;
    let node = DeclaredNode {
        names,
        type_node: found.node,
    };
    Ok((node, found.rest))
}

/// At least one field or parameter, to the closing mark.
fn some_declared(
    alloc: Global,
    separator: TokenKind,
    close: TokenKind,
    depth_left: u32,
    cursor: Cursor<'_>,
) -> Result<List<'_, DeclaredNode>, ParseFault>
    ensures { Gives (λ x. ((map declared_of x.entries.items, x.trailing), ahead x.rest)) result (some_declared separator close depth_left MAX_ENTRIES MAX_ENTRIES (ahead cursor.entry)) }
{
    let mut entries = Vec::new(alloc);
    let mut rest = cursor;
    let mut left = MAX_ENTRIES as usize;
    for _ in 0..MAX_ENTRIES {
        let (one, following) = declared(alloc, left, depth_left, rest)?;
        left = left.saturating_sub(one.names.len());
        entries.push(one)?;
        let (next, after) = declared_next(separator, close, following)?;
        match next {
            Next::More => rest = after,
            Next::End(trailing) => return Ok(List {
                entries,
                trailing,
                rest: after,
            }),
        }
    }
    Err(ParseFault::TooManyEntries(rest.place()))
}

/// Fields or parameters to the closing mark, after the opening one; their types have at most `depth_left` levels.
#[tactic(auto, unfolding(crate::specs::Reading::all_declared))]
pub(crate) fn all_declared(
    alloc: Global,
    separator: TokenKind,
    close: TokenKind,
    depth_left: u32,
    cursor: Cursor<'_>,
) -> Result<List<'_, DeclaredNode>, ParseFault>
    ensures { Gives (λ x. ((map declared_of x.entries.items, x.trailing), ahead x.rest)) result (all_declared separator close MAX_ENTRIES depth_left (ahead cursor.entry)) }
{
    if begins_name(cursor) {
        return some_declared(alloc, separator, close, depth_left, cursor);
    }
    let rest = cursor.expect(close)?;
    Ok(List {
        entries: Vec::new(alloc),
        trailing: false,
        rest,
    })
}
