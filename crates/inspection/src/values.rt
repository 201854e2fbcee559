//! Values, and the variables that hold them.

use crate::rows::Row;
use crate::scene::Scene;
use channel_names::form_of;
use diagnostic_words::words::Words;
use go_text::Memory;
use reference_scope::scope::{Block, Scope, Variable};
use syntax::TypeNode;
use timeline::ItemForm;
use type_table::value_type::ValueType;
use word::value::Word;

/// Appends a word.
pub(crate) fn push_word(said: &mut Words, word: Word) {
    match word {
        Word::Int(number) => said.number(i128::from(number)),
        Word::Bool(true) => said.text("true"),
        Word::Bool(false) => said.text("false"),
        Word::Chan(None) => said.text("nil"),
        Word::Chan(Some(number)) => push_channel(said, number),
    }
}

/// Appends a channel by its number.
pub(crate) fn push_channel(said: &mut Words, number: u32) {
    said.text("channel ");
    said.number(i128::from(number));
}

/// Appends the words of a struct, in braces.
fn push_struct(said: &mut Words, words: &[Word]) {
    said.text("{");
    for (index, word) in words.iter().enumerate() {
        if index > 0 {
            said.text(" ");
        }
        push_word(said, *word);
    }
    said.text("}");
}

/// Appends an item: its word, or all of its words in braces.
pub(crate) fn push_item(said: &mut Words, words: &[Word]) {
    match words {
        [word] => push_word(said, *word),
        _ => push_struct(said, words),
    }
}

/// How Go writes the items of a channel, if a variable of one of these goroutines holds it.
///
/// Errors: out of memory.
pub(crate) fn form_in(
    scene: Scene<'_, '_>,
    rows: &[Row<'_, '_>],
    channel: Option<u32>,
) -> Result<Option<ItemForm>, Memory> {
    let held = rows
        .iter()
        .find_map(|row| element_in(row, Word::Chan(channel)));
    match (channel, held) {
        (Some(_), Some(element)) => {
            form_of(scene.alloc, scene.tree.file().tops.as_slice(), element)
        }
        _ => Ok(None),
    }
}

/// The type of the items of a channel that a variable of a goroutine holds.
fn element_in<'t>(row: &Row<'_, 't>, channel: Word) -> Option<&'t TypeNode> {
    for frame in row.placed.frames.iter() {
        for block in frame.position.scope.blocks.iter() {
            for variable in block.variables.iter() {
                if let ValueType::Channel(_, element) = variable.kind {
                    if variable.words.first() == Some(&channel) {
                        return Some(element);
                    }
                }
            }
        }
    }
    None
}

/// Appends the value of a variable.
fn push_value(said: &mut Words, variable: &Variable<'_>) {
    match (variable.kind, variable.words.as_slice()) {
        (ValueType::Struct(_), words) => push_struct(said, words),
        (_, words) => push_item(said, words),
    }
}

/// Appends a line with the variables that a function sees, those of the outermost block first, if there are any.
pub fn push_variables(said: &mut Words, indent: &str, scope: &Scope<'_>) {
    let mut is_first = true;
    for (depth, block) in scope.blocks.iter().enumerate() {
        let inner = after(scope.blocks.as_slice(), depth);
        for (place, variable) in block.variables.iter().enumerate() {
            let newer = after(block.variables.as_slice(), place);
            if is_seen(variable, newer, inner) {
                said.text(if is_first { indent } else { ", " });
                said.bytes(variable.name);
                said.text(" = ");
                push_value(said, variable);
                is_first = false;
            }
        }
    }
    if !is_first {
        said.text("\n");
    }
}

/// The elements after the one at an index.
fn after<T>(list: &[T], index: usize) -> &[T] {
    list.get(index.saturating_add(1)..).unwrap_or(&[])
}

/// Whether a variable can be named: it is not `_`, and neither `newer`, of its block, nor `inner` blocks shadow it.
fn is_seen(variable: &Variable<'_>, newer: &[Variable<'_>], inner: &[Block<'_>]) -> bool {
    variable.name != b"_".as_slice()
        && !has_name(newer, variable.name)
        && !inner.iter().any(|block| has_name(block.variables.as_slice(), variable.name))
}

/// Whether one of these variables has this name.
fn has_name(variables: &[Variable<'_>], name: &[u8]) -> bool {
    variables.iter().any(|variable| variable.name == name)
}
