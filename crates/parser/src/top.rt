//! Declarations.

ghost use Rattle.std.specs.Prelude.{◌+◌, option_map, map};
ghost use Rattle.syntax.specs.View.{statement_of, type_of, top_of};
ghost use Rattle.parser_base.specs.Cursor.{ahead};
ghost use Rattle.parser_base.specs.Reading.{Gives};
ghost use Rattle.parser.specs.Reading.{structure, result_type, block, function, top};

use crate::declared::all_declared;
use parser_base::cursor::Cursor;
use parser_base::fault::ParseFault;
use parser_base::list::List;
use parser_base::types::type_at;
use parser_simple::form::begins_with;
use parser_simple::place::name_at;
use parser_statement::statement::statement_list;
use scanner::TokenKind;
use std::alloc::Global;
use syntax::limits::{MAX_ENTRIES, MAX_HEIGHT};
use syntax::{FunctionNode, StatementNode, StructNode, TopNode, TypeNode};

/// The most levels of a function's statements: above them are the file, its function and the function's block.
pub const STATEMENT_DEPTH: u32 = MAX_HEIGHT - 3;

/// A declaration of a struct type.
#[tactic(auto, unfolding(crate::specs::Reading::structure))]
fn type_declaration(alloc: Global, cursor: Cursor<'_>) -> Result<(TopNode, Cursor<'_>), ParseFault>
    ensures { Gives (λ x. (top_of x.0, ahead x.1)) result (structure MAX_ENTRIES STATEMENT_DEPTH (ahead cursor.entry)) }
{
    let rest = cursor.expect(TokenKind::TypeKeyword)?;
    let (name, rest) = name_at(alloc, rest)?;
    let rest = rest.expect(TokenKind::Struct)?;
    let rest = rest.expect(TokenKind::LeftBrace)?;
    let fields = all_declared(
        alloc,
        TokenKind::Semicolon,
        TokenKind::RightBrace,
        STATEMENT_DEPTH,
        rest,
    )?;
    let node = StructNode {
        name,
        fields: fields.entries,
        trailing: fields.trailing,
    };
    Ok((TopNode::Struct(node), fields.rest))
}

/// The type of a function's result, if there is one before its block.
#[tactic(auto, unfolding(crate::specs::Reading::result_type))]
fn result_type(
    alloc: Global,
    cursor: Cursor<'_>,
) -> Result<(Option<TypeNode>, Cursor<'_>), ParseFault>
    ensures { Gives (λ x. (option_map type_of x.0, ahead x.1)) result (result_type (STATEMENT_DEPTH + 1) (ahead cursor.entry)) }
{
    if begins_with(TokenKind::LeftBrace, cursor) {
        return Ok((None, cursor));
    }
    let found = type_at(alloc, STATEMENT_DEPTH + 1, cursor)?;
    Ok((Some(found.node), found.rest))
}

/// The statements of a function's block.
#[tactic(auto, unfolding(crate::specs::Reading::block))]
fn function_body(alloc: Global, cursor: Cursor<'_>) -> Result<List<'_, StatementNode>, ParseFault>
    ensures { Gives (λ x. ((map statement_of x.entries.items, x.trailing), ahead x.rest)) result (block MAX_ENTRIES STATEMENT_DEPTH (ahead cursor.entry)) }
{
    let rest = cursor.expect(TokenKind::LeftBrace)?;
    statement_list(alloc, STATEMENT_DEPTH, rest)
}

/// A declaration of a function.
#[tactic(auto, unfolding(crate::specs::Reading::function))]
fn function_declaration(
    alloc: Global,
    cursor: Cursor<'_>,
) -> Result<(TopNode, Cursor<'_>), ParseFault>
    ensures { Gives (λ x. (top_of x.0, ahead x.1)) result (function MAX_ENTRIES STATEMENT_DEPTH (ahead cursor.entry)) }
{
    let rest = cursor.expect(TokenKind::Func)?;
    let (name, rest) = name_at(alloc, rest)?;
    let rest = rest.expect(TokenKind::LeftParenthesis)?;
    let parameters = all_declared(
        alloc,
        TokenKind::Comma,
        TokenKind::RightParenthesis,
        STATEMENT_DEPTH,
        rest,
    )?;
    let (kind, rest) = result_type(alloc, parameters.rest)?;
    let body = function_body(alloc, rest)?;
    let node = FunctionNode {
        name,
        parameters: parameters.entries,
        trailing: parameters.trailing,
        result: kind,
        body: body.entries,
    };
    Ok((TopNode::Function(node), body.rest))
}

/// A declaration of a struct type or a function.
#[tactic(auto, unfolding(crate::specs::Reading::top))]
pub(crate) fn declaration(
    alloc: Global,
    cursor: Cursor<'_>,
) -> Result<(TopNode, Cursor<'_>), ParseFault>
    ensures { Gives (λ x. (top_of x.0, ahead x.1)) result (top MAX_ENTRIES STATEMENT_DEPTH (ahead cursor.entry)) }
{
    if begins_with(TokenKind::TypeKeyword, cursor) {
        type_declaration(alloc, cursor)
    } else {
        function_declaration(alloc, cursor)
    }
}
