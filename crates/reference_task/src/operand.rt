//! Operands of statements.

ghost use Rattle.std.specs.Prelude.{◌≡◌, ◌++◌, [], List, IfErr, IfOk, OnOk, flat_map, map};
ghost use Rattle.word.specs.Text.{text_of};
ghost use Rattle.syntax.specs.View.{expression_of, part_of};
ghost use Rattle.type_table.specs.Visible.{globals_in, types_of};
ghost use Rattle.meaning.specs.Source.{channel, item_in, one, part_text, printed, spaced, texts, truth_in};
ghost use Rattle.reference_scope.specs.Scopes.{blocks_of};
ghost use Rattle.reference_scope.specs.Parts.{values_of};
ghost use Rattle.reference_value.specs.Stops.{Comes, Stops};
ghost use Rattle.reference_task.specs.Operands.{bytes_of};

use reference_scope::place::item_of;
use reference_scope::scope::Scope;
use reference_scope::words::{channel_in, with_first, word_in};
use reference_value::fault::Stop;
use reference_value::given::Given;
use reference_value::kind::element_kind;
use reference_value::value::value;
use std::alloc::{AllocError, Global};
use syntax::{ExpressionNode, PartNode};
use type_table::table::TypeTable;
use word::text::append;
use word::value::{Item, Word};

/// Whether a word is true.
pub fn truth_in(word: Word) -> bool
    ensures { result ≡ truth_in word }
{
    match word {
        Word::Bool(truth) => truth,
        _ => false,
    }
}

/// The word of an expression.
///
/// Errors: the panic that is met first; what has to be done next; `Memory`.
pub fn one<'g, 't>(
    alloc: Global,
    table: &TypeTable<'t>,
    scope: &Scope<'t>,
    expression: &'t ExpressionNode,
    given: &'g [Given],
) -> Result<(Word, &'g [Given]), Stop>
    ensures ok { IfOk result (λ r. Comes (one (globals_in table.now) (blocks_of (types_of table.now) scope.now) [] (expression_of expression.now)) given.now r.0 r.1.now) }
    ensures err { IfErr result (Stops (one (globals_in table.now) (blocks_of (types_of table.now) scope.now) [] (expression_of expression.now)) given.now) }
{
    let (words, given) = value(alloc, table, scope, expression, given)?;
    Ok((word_in(words.as_slice()), given))
}

/// The channel of an expression.
///
/// Errors: the panic that is met first; what has to be done next; `Memory`.
pub fn channel<'g, 't>(
    alloc: Global,
    table: &TypeTable<'t>,
    scope: &Scope<'t>,
    expression: &'t ExpressionNode,
    given: &'g [Given],
) -> Result<(Option<u32>, &'g [Given]), Stop>
    ensures ok { IfOk result (λ r. Comes (channel (globals_in table.now) (blocks_of (types_of table.now) scope.now) [] (expression_of expression.now)) given.now r.0 r.1.now) }
    ensures err { IfErr result (Stops (channel (globals_in table.now) (blocks_of (types_of table.now) scope.now) [] (expression_of expression.now)) given.now) }
{
    let (word, given) = one(alloc, table, scope, expression, given)?;
    Ok((channel_in(word), given))
}

/// The text of a word.
fn word_text(alloc: Global, word: Word) -> Result<Vec<u8>, AllocError>
    ensures { IfOk result (λ text. text.items ≡ text_of word) }
{
    let mut text = Vec::new(alloc);
    append(&mut text, word)?;
    Ok(text)
}

/// The text of a part of what is printed.
fn part_text<'g, 't>(
    alloc: Global,
    table: &TypeTable<'t>,
    scope: &Scope<'t>,
    part: &'t PartNode,
    given: &'g [Given],
) -> Result<(Vec<u8>, &'g [Given]), Stop>
    ensures ok { IfOk result (λ r. Comes (part_text (globals_in table.now) (blocks_of (types_of table.now) scope.now) [] (part_of part.now)) given.now r.0.items r.1.now) }
    ensures err { IfErr result (Stops (part_text (globals_in table.now) (blocks_of (types_of table.now) scope.now) [] (part_of part.now)) given.now) }
{
    match part {
        PartNode::Text(bytes) => Ok((Vec::from_slice(alloc, bytes.as_slice())?, given)),
        PartNode::Value(expression) => {
            let (word, given) = one(alloc, table, scope, expression, given)?;
            Ok((word_text(alloc, word)?, given))
        }
    }
}

/// The texts of the parts of what is printed.
///
/// Errors: the panic that is met first; what has to be done next; `Memory`.
pub fn texts<'a, 'g, 't>(
    alloc: Global,
    table: &'a TypeTable<'t>,
    scope: &'a Scope<'t>,
    parts: &'t [PartNode],
    given: &'g [Given],
) -> Result<(Vec<Vec<u8>>, &'g [Given]), Stop>
    ensures ok { IfOk result (λ r. Comes (texts (globals_in table.now) (blocks_of (types_of table.now) scope.now) [] (map part_of parts.now)) given.now (bytes_of r.0.items) r.1.now) }
    ensures err { IfErr result (Stops (texts (globals_in table.now) (blocks_of (types_of table.now) scope.now) [] (map part_of parts.now)) given.now) }
{
    let Some((first, rest)) = parts.split_first() else {
        return Ok((Vec::new(alloc), given));
    };
    let (text, given) = part_text(alloc, table, scope, first, given)?;
    let (others, given) = texts(alloc, table, scope, rest, given)?;
    Ok((with_first(text, others)?, given))
}

/// Writes texts after the first one.
fn spaced(out: &mut Vec<u8>, line: bool, texts: &[Vec<u8>]) -> Result<(), AllocError>
    ensures { OnOk result (out.new.items ≡ out.old.items ++ spaced line (bytes_of texts.now)) }
{
    match texts {
        [] => {
            if line {
                out.push(b'\n')?;
            }
        }
        [first, rest @ ..] => {
            if line {
                out.push(b' ')?;
            }
            out.extend_from_slice(first.as_slice())?;
            spaced(out, line, rest)?;
        }
    }
    Ok(())
}

/// What is printed of these texts: a line has a space between two, and a newline after the last.
pub fn printed(alloc: Global, line: bool, texts: &[Vec<u8>]) -> Result<Vec<u8>, AllocError>
    ensures { IfOk result (λ all. all.items ≡ printed line (bytes_of texts.now)) }
{
    let mut out = Vec::new(alloc);
    match texts {
        [] => {
            if line {
                out.push(b'\n')?;
            }
        }
        [first, rest @ ..] => {
            out.extend_from_slice(first.as_slice())?;
            spaced(&mut out, line, rest)?;
        }
    }
    Ok(out)
}

/// What is sent on a channel.
///
/// Errors: the panic that is met first; what has to be done next; `Memory`.
pub fn item_in<'g, 't>(
    alloc: Global,
    table: &TypeTable<'t>,
    scope: &Scope<'t>,
    to: &'t ExpressionNode,
    item: &'t ExpressionNode,
    given: &'g [Given],
) -> Result<(Item, &'g [Given]), Stop>
    ensures ok { IfOk result (λ r. Comes (item_in (globals_in table.now) (blocks_of (types_of table.now) scope.now) [] (expression_of to.now) (expression_of item.now)) given.now r.0 r.1.now) }
    ensures err { IfErr result (Stops (item_in (globals_in table.now) (blocks_of (types_of table.now) scope.now) [] (expression_of to.now) (expression_of item.now)) given.now) }
{
    let (words, given) = value(alloc, table, scope, item, given)?;
    let kind = element_kind(table, scope, to);
    Ok((item_of(alloc, table, kind, words.as_slice())?, given))
}

/// Appends the words of these values, one value after the other.
pub fn append_words(out: &mut Vec<Word>, all: &[Vec<Word>]) -> Result<(), AllocError>
    ensures { OnOk result (out.new.items ≡ out.old.items ++ flat_map (λ words. words) (values_of all.now)) }
{
    let Some((first, rest)) = all.split_first() else {
        return Ok(());
    };
    out.extend_from_slice(first.as_slice())?;
    append_words(out, rest)?;
    Ok(())
}
