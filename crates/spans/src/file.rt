//! The spans of the nodes of a file.

ghost use Rattle.std.specs.Prelude.{◌≡◌, ◌++◌, IfOk, map, option_map, sum_by, vec_len};
ghost use Rattle.syntax.specs.Measures.{if_any, size};
ghost use Rattle.syntax.specs.View.{type_of, declared_of, struct_of, function_of, top_of, file_of};
ghost use Rattle.syntax.specs.Tree.{StructTop, FunctionTop};
ghost use Rattle.spans.specs.Words.{EndsInReach, type_count, group_count, groups_count, top_count, top_step, file_count};
ghost use Rattle.spans.specs.Places.{optional_spans, type_spans, group_spans, groups_spans, top_spans, tops_spans, file_spans};

use crate::expression::trailing_count;
use crate::over::add_node;
use crate::statement::block_spans;
use crate::types::type_spans;
use go_text::{Memory, Span};
use scanner::Token;
use std::alloc::Global;
use syntax::{DeclaredNode, FileNode, FunctionNode, StructNode, TopNode, TypeNode};

/// Adds the spans of names that are declared together with one type.
fn group_spans(
    group: &DeclaredNode,
    tokens: &[Token],
    at: usize,
    spans: &mut Vec<Span>,
) -> Result<usize, Memory>
    requires { EndsInReach at (group_count (declared_of group.now)) }
    ensures count { IfOk result (λ count. count ≡ group_count (declared_of group.now)) }
    ensures spans { IfOk result (λ _. spans.new.items ≡ spans.old.items ++ group_spans tokens.now at (declared_of group.now)) }
{
    let names = (group.names.len() * 2).saturating_sub(1);
    let count = names + type_spans(&group.type_node, tokens, at + names, spans)?;
    add_node(tokens, at, count, spans)
}

/// Adds the spans of fields or parameters, and counts the mark that may follow the last.
fn groups_spans(
    groups: &[DeclaredNode],
    trailing: bool,
    tokens: &[Token],
    at: usize,
    spans: &mut Vec<Span>,
) -> Result<usize, Memory>
    requires { EndsInReach at (groups_count (map declared_of groups.now) trailing) }
    ensures count { IfOk result (λ count. count ≡ groups_count (map declared_of groups.now) trailing) }
    ensures spans { IfOk result (λ _. spans.new.items ≡ spans.old.items ++ groups_spans tokens.now at (map declared_of groups.now)) }
{
    let mut count = 0;
    for group in groups {
        count += group_spans(group, tokens, at + count, spans)? + 1;
    }
    Ok(count.saturating_sub(1) + trailing_count(trailing))
}

/// Adds the spans of a type that may be left out.
fn optional_type_spans(
    kind: &Option<TypeNode>,
    tokens: &[Token],
    at: usize,
    spans: &mut Vec<Span>,
) -> Result<usize, Memory>
    requires { EndsInReach at (if_any type_count (option_map type_of kind.now)) }
    ensures count { IfOk result (λ count. count ≡ if_any type_count (option_map type_of kind.now)) }
    ensures spans { IfOk result (λ _. spans.new.items ≡ spans.old.items ++ optional_spans type_spans tokens.now at (option_map type_of kind.now)) }
{
    match kind {
        None => Ok(0),
        Some(kind) => type_spans(kind, tokens, at, spans),
    }
}

/// Adds the spans of a declaration of a struct type.
fn struct_spans(
    node: &StructNode,
    tokens: &[Token],
    at: usize,
    spans: &mut Vec<Span>,
) -> Result<usize, Memory>
    requires { EndsInReach at (top_count (StructTop (struct_of node.now))) }
    ensures count { IfOk result (λ count. count ≡ top_count (StructTop (struct_of node.now))) }
    ensures spans { IfOk result (λ _. spans.new.items ≡ spans.old.items ++ top_spans tokens.now at (StructTop (struct_of node.now))) }
{
    let count = 5 + groups_spans(node.fields.as_slice(), node.trailing, tokens, at + 4, spans)?;
    add_node(tokens, at, count, spans)
}

/// Adds the spans of a declaration of a function.
fn function_spans(
    node: &FunctionNode,
    tokens: &[Token],
    at: usize,
    spans: &mut Vec<Span>,
) -> Result<usize, Memory>
    requires { EndsInReach at (top_count (FunctionTop (function_of node.now))) }
    ensures count { IfOk result (λ count. count ≡ top_count (FunctionTop (function_of node.now))) }
    ensures spans { IfOk result (λ _. spans.new.items ≡ spans.old.items ++ top_spans tokens.now at (FunctionTop (function_of node.now))) }
{
    let parameters = groups_spans(
        node.parameters.as_slice(),
        node.trailing,
        tokens,
        at + 3,
        spans,
    )?;
    let head = parameters + 4;
    let kind = optional_type_spans(&node.result, tokens, at + head, spans)?;
    let body = block_spans(node.body.as_slice(), tokens, at + head + kind, spans)?;
    let count = head + kind + body;
    add_node(tokens, at, count, spans)
}

/// Adds the spans of a declaration.
fn top_spans(
    top: &TopNode,
    tokens: &[Token],
    at: usize,
    spans: &mut Vec<Span>,
) -> Result<usize, Memory>
    requires { EndsInReach at (top_count (top_of top.now)) }
    ensures count { IfOk result (λ count. count ≡ top_count (top_of top.now)) }
    ensures spans { IfOk result (λ _. spans.new.items ≡ spans.old.items ++ top_spans tokens.now at (top_of top.now)) }
{
    match top {
        TopNode::Struct(node) => struct_spans(node, tokens, at, spans),
        TopNode::Function(node) => function_spans(node, tokens, at, spans),
    }
}

/// Adds the spans of declarations. The count includes a semicolon after each.
fn tops_spans(
    tops: &[TopNode],
    tokens: &[Token],
    at: usize,
    spans: &mut Vec<Span>,
) -> Result<usize, Memory>
    requires { EndsInReach at (sum_by top_step (map top_of tops.now)) }
    ensures count { IfOk result (λ count. count ≡ sum_by top_step (map top_of tops.now)) }
    ensures spans { IfOk result (λ _. spans.new.items ≡ spans.old.items ++ tops_spans tokens.now at (map top_of tops.now)) }
{
    let mut count = 0;
    for top in tops {
        count += top_spans(top, tokens, at + count, spans)? + 1;
    }
    Ok(count)
}

/// The spans of the nodes of a file, in the order of their numbers, if these tokens spell it. It fails only if it is out
/// of memory.
pub fn file_spans(alloc: Global, file: &FileNode, tokens: &[Token]) -> Result<Vec<Span>, Memory>
    requires { EndsInReach 0 (file_count (file_of file.now)) }
    ensures spans { IfOk result (λ spans. spans.items ≡ file_spans tokens.now (file_of file.now)) }
    // Each node has one.
    ensures numbered { IfOk result (λ spans. vec_len spans ≡ size (file_of file.now)) }
{
    let mut spans = Vec::new(alloc);
    let count = 3 + tops_spans(file.tops.as_slice(), tokens, 3, &mut spans)?;
    add_node(tokens, 0, count, &mut spans)?;
    Ok(spans)
}
