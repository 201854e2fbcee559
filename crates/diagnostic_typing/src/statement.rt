//! Statements that are wrong whatever is visible to them.

use crate::text::Text;
use diagnostic_scope::ends::default_node;
use diagnostic_words::words::Words;
use go_text::Rule;
use std::alloc::Global;
use syntax::{ClauseNode, NodeId};

/// Appends the line and column of the `select`'s default of this number, counted from 1.
fn push_default(
    alloc: Global,
    said: &mut Words,
    text: &Text<'_>,
    first: NodeId,
    clauses: &[ClauseNode],
    number: usize,
) {
    if let Some(node) = default_node(alloc, first, clauses, number) {
        text.push_position(said, node);
    }
}

/// Reports that a `select`, whose nodes have numbers from `first` on, has several defaults.
fn push_defaults(
    alloc: Global,
    said: &mut Words,
    text: &Text<'_>,
    first: NodeId,
    clauses: &[ClauseNode],
) {
    said.text("multiple defaults in select (first at ");
    push_default(alloc, said, text, first, clauses, 1);
    said.text(", second at ");
    push_default(alloc, said, text, first, clauses, 2);
    said.text(")");
}

/// Reports how a `select`, whose nodes have numbers from `first` on, violates a rule as a whole.
pub(crate) fn push_select(
    alloc: Global,
    said: &mut Words,
    text: &Text<'_>,
    first: NodeId,
    clauses: &[ClauseNode],
    rule: Rule,
) {
    if let Rule::OneDefault = rule {
        push_defaults(alloc, said, text, first, clauses);
    }
}
