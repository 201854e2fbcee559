//! Files.

ghost use Rattle.std.specs.Prelude.{map, length, IfErr};
ghost use Rattle.syntax.specs.View.{file_of, top_of};
ghost use Rattle.parser_base.specs.Cursor.{ahead};
ghost use Rattle.parser_base.specs.Reading.{Gives, NamesRefusal, Syntax, listed};
ghost use Rattle.parser.specs.Reading.{top, top_next, tops, file};

use crate::top::{STATEMENT_DEPTH, declaration};
use parser_base::cursor::Cursor;
use parser_base::fault::ParseFault;
use parser_base::list::{List, Next};
use scanner::TokenKind;
use std::alloc::Global;
use syntax::limits::MAX_ENTRIES;
use syntax::{FileNode, TopNode};

/// What follows a declaration.
#[tactic(auto, unfolding(crate::specs::Reading::top_next))]
fn declaration_next(cursor: Cursor<'_>) -> Result<(Next, Cursor<'_>), ParseFault>
    ensures gives { Gives (λ x. (x.0, ahead x.1)) result (top_next (ahead cursor.entry)) }
    ensures refused { IfErr result NamesRefusal }
{
    let rest = cursor.expect(TokenKind::Semicolon)?;
    let next = match rest.next() {
        Some(_) => Next::More,
        None => Next::End(false),
    };
    Ok((next, rest))
}

/// At least one declaration, to the file's end.
fn declaration_list(alloc: Global, cursor: Cursor<'_>) -> Result<List<'_, TopNode>, ParseFault>
    ensures { Gives (λ x. ((map top_of x.entries.items, x.trailing), ahead x.rest)) result (listed (top MAX_ENTRIES STATEMENT_DEPTH) top_next Syntax (length (ahead cursor.entry)) (ahead cursor.entry)) }
{
    let mut entries = Vec::new(alloc);
    let mut rest = cursor;
    for _ in 0..cursor.len() {
        let (one, following) = declaration(alloc, rest)?;
        entries.push(one)?;
        let (next, after) = declaration_next(following)?;
        match next {
            Next::More => rest = after,
            Next::End(trailing) => return Ok(List {
                entries,
                trailing,
                rest: after,
            }),
        }
    }
    Err(ParseFault::Syntax(rest.place()))
}

/// The declarations of a file after the semicolon of its first line.
#[tactic(auto, unfolding(crate::specs::Reading::tops))]
fn declarations(alloc: Global, cursor: Cursor<'_>) -> Result<List<'_, TopNode>, ParseFault>
    ensures { Gives (λ x. ((map top_of x.entries.items, x.trailing), ahead x.rest)) result (tops MAX_ENTRIES STATEMENT_DEPTH (ahead cursor.entry)) }
{
    if cursor.next().is_some() {
        return declaration_list(alloc, cursor);
    }
    Ok(List {
        entries: Vec::new(alloc),
        trailing: false,
        rest: cursor,
    })
}

/// A whole file.
#[tactic(auto, unfolding(crate::specs::Reading::file))]
pub(crate) fn file(alloc: Global, cursor: Cursor<'_>) -> Result<FileNode, ParseFault>
    ensures { Gives file_of result (file MAX_ENTRIES STATEMENT_DEPTH (ahead cursor.entry)) }
{
    let rest = cursor.expect(TokenKind::Package)?;
    let rest = rest.expect_name(b"main")?;
    let rest = rest.expect(TokenKind::Semicolon)?;
    let all = declarations(alloc, rest)?;
    Ok(FileNode { tops: all.entries })
}
