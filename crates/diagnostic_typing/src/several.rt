//! What else is wrong with a program: the first violation of each declaration, or of each function.

ghost use Rattle.std.specs.Prelude.{◌+◌, ◌^◌, ◌<◌, map, sum_by};
ghost use Rattle.syntax.specs.Measures.{function_size, statements_size, top_size};
ghost use Rattle.syntax.specs.View.{body_of, function_of, top_of};

use crate::reading::{ReadText, read};
use crate::typing::node_of;
use checker_base::refusal::Refusal;
use checker_declaration::header::{Head, function_head};
use checker_declaration::table::table_of;
use checker_statement::statement::{Inside, statements};
use checker_statement::terminate::last_terminates;
use diagnostic_scope::ends::top_end;
use go_text::{Fault, LimitKind, Memory, Place, Rule, Span};
use std::alloc::Global;
use syntax::{FunctionNode, NodeId, StatementNode, StructNode, TopNode};
use type_table::scope::{Visible, declare};
use type_table::table::TypeTable;
use typing_rules::violation::Violation;

/// How many violations are kept.
const MOST_KEPT: usize = 9;

/// How often declarations are looked at for a further violation.
const MOST_ROUNDS: usize = 60;

/// How many words the variables of a function may take.
const MOST_WORDS: usize = 4096;

/// A fault, and the program that has it as its first one. Its locations are those of the whole program.
#[derive(Drop)]
pub struct Other {
    pub fault: Fault,
    pub text: String,
}

/// What is wrong with a program, but for its first fault.
#[derive(Drop)]
pub struct OtherList {
    /// The first nine.
    pub kept: Vec<Other>,
    /// How many more were counted.
    pub more: usize,
    /// Whether there may be more than were counted.
    pub is_cut: bool,
}

impl OtherList {
    /// No violations.
    pub fn new(alloc: Global) -> OtherList {
        OtherList {
            kept: Vec::new(alloc),
            more: 0,
            is_cut: false,
        }
    }

    /// Keeps a violation, if nine are not kept before it, and counts it otherwise.
    ///
    /// # Errors
    ///
    /// `Memory` if memory is refused.
    pub fn keep(&mut self, other: Other) -> Result<(), Memory> {
        if self.kept.len() >= MOST_KEPT {
            self.more = self.more.saturating_add(1);
            return Ok(());
        }
        self.kept.push(other)?;
        Ok(())
    }

    /// Keeps a violation of the program `text`, which is read as `read`.
    fn put(
        &mut self,
        alloc: Global,
        text: &str,
        read: &ReadText,
        violation: Violation,
    ) -> Result<(), Memory> {
        let fault = read.fault(violation);
        let text = format!(in alloc; "{text}")?;
        self.keep(Other { fault, text })
    }

    /// Keeps the first violation of the body of each function, but for that of the first one.
    fn put_bodies(
        &mut self,
        alloc: Global,
        text: &str,
        read: &ReadText,
        table: &TypeTable<'_>,
        first: Violation,
    ) -> Result<(), Memory> {
        let mut violations = Vec::new(alloc);
        push_violations(
            alloc,
            table,
            read.tree.file().tops.as_slice(),
            0,
            &mut violations,
        )?;
        for &violation in violations.as_slice() {
            if node_of(violation) != node_of(first) {
                self.put(alloc, text, read, violation)?;
            }
        }
        Ok(())
    }
}

impl ReadText {
    /// The span of a node.
    fn span(&self, node: NodeId) -> Span {
        if node < self.tree.count() {
            self.tree.span(node)
        } else {
            Span { from: 0, to: 0 }
        }
    }

    /// The location of a node, with its line and its column.
    fn place(&self, node: NodeId) -> Place {
        let span = self.span(node);
        Place {
            span,
            position: Some(self.source.line_column(span.from)),
        }
    }

    /// The fault that a program with this violation is refused with.
    fn fault(&self, violation: Violation) -> Fault {
        let place = self.place(node_of(violation));
        match violation {
            Violation::Broken(rule, node) => Fault::Typing { rule, node, place },
            Violation::Exceeded(kind, node) => Fault::Limit {
                kind,
                node: Some(node),
                place,
            },
        }
    }
}

/// The first violation of the statements of a function after its head, if there is one.
fn violation_after<'a>(
    alloc: Global,
    table: &TypeTable<'a>,
    head: &Head<'a>,
    body: &'a [StatementNode],
) -> Result<Option<Violation>, Memory>
    requires small { head.now.end + statements_size (body_of body.now) < 2 ^ 32 }
{
    let mut visible = Visible::new(alloc);
    for parameter in head.parameters.as_slice() {
        declare(table, &mut visible, parameter.kind, parameter.name)?;
    }
    let inside = Inside {
        result: head.result,
        breaks: false,
        continues: false,
    };
    let end = match statements(alloc, table, inside, &mut visible, head.end, body) {
        Ok(end) => end,
        Err(Refusal::Memory) => return Err(Memory),
        Err(Refusal::Violated(violation)) => return Ok(Some(violation)),
    };
    let own = end.saturating_add(1);
    if visible.words > MOST_WORDS {
        return Ok(Some(Violation::Exceeded(LimitKind::FunctionWords, own)));
    }
    if head.result.is_some() && !last_terminates(body) {
        return Ok(Some(Violation::Broken(Rule::Terminating, own)));
    }
    Ok(None)
}

/// The first violation of the body of a function, if there is one. Its nodes are counted from those of the function on.
fn violation_of<'a>(
    alloc: Global,
    table: &TypeTable<'a>,
    function: &'a FunctionNode,
) -> Result<Option<Violation>, Memory>
    requires small { function_size (function_of function.now) < 2 ^ 32 }
{
    match function_head(alloc, table.types(), 0, function) {
        Ok(head) => violation_after(alloc, table, &head, function.body.as_slice()),
        Err(Refusal::Memory) => Err(Memory),
        Err(Refusal::Violated(_)) => Ok(None),
    }
}

/// A violation whose nodes are counted from `first` on.
fn moved(violation: Violation, first: NodeId) -> Violation {
    match violation {
        Violation::Broken(rule, node) => Violation::Broken(rule, first.saturating_add(node)),
        Violation::Exceeded(kind, node) => Violation::Exceeded(kind, first.saturating_add(node)),
    }
}

/// Puts the first violation of the body of a declaration, if it is a function, whose nodes have numbers from `first` on, at the
/// end of `violations`.
fn push_violation_of<'a>(
    alloc: Global,
    table: &TypeTable<'a>,
    top: &'a TopNode,
    first: NodeId,
    violations: &mut Vec<Violation>,
) -> Result<(), Memory>
    requires small { top_size (top_of top.now) < 2 ^ 32 }
{
    let TopNode::Function(function) = top else {
        return Ok(());
    };
    if let Some(violation) = violation_of(alloc, table, function)? {
        violations.push(moved(violation, first))?;
    }
    Ok(())
}

/// Puts the first violation of the body of each function of these declarations, whose nodes have numbers from `first` on, at the
/// end of `violations`.
fn push_violations<'a>(
    alloc: Global,
    table: &TypeTable<'a>,
    tops: &'a [TopNode],
    first: NodeId,
    violations: &mut Vec<Violation>,
) -> Result<(), Memory>
    requires small { sum_by top_size (map top_of tops.now) < 2 ^ 32 }
{
    let Some((top, rest)) = tops.split_first() else {
        return Ok(());
    };
    push_violation_of(alloc, table, top, first, violations)?;
    push_violations(alloc, table, rest, top_end(alloc, first, top), violations)
}

/// A declaration, and its own node.
#[derive(Clone, Copy)]
struct Declaration<'a> {
    top: &'a TopNode,
    node: NodeId,
}

/// The declaration that a node is in.
fn declaration_at(alloc: Global, tops: &[TopNode], node: NodeId) -> Option<Declaration<'_>> {
    let mut first = 0;
    for top in tops {
        let end = top_end(alloc, first, top);
        if node < end {
            return Some(Declaration {
                top,
                node: end.saturating_sub(1),
            });
        }
        first = end;
    }
    None
}

/// `text` with spaces instead of the bytes of a span, but for the ends of lines.
///
/// # Errors
///
/// `Memory` if memory is refused.
pub fn blanked(alloc: Global, text: &str, span: Span) -> Result<String, Memory> {
    let mut bytes = Vec::new(alloc);
    for (index, byte) in text.bytes().enumerate() {
        let is_in = span.from as usize <= index && index < span.to as usize;
        bytes.push(if is_in && byte != b'\n' { b' ' } else { byte })?;
    }
    match String::from_utf8(bytes) {
        Ok(text) => Ok(text),
        Err(_) => Ok(String::new(alloc)),
    }
}

/// A text with a struct type of this name and one field after it.
fn with_type(alloc: Global, text: String, one: &StructNode) -> Result<String, Memory> {
    let mut bytes = text.into_bytes();
    bytes.extend_from_slice(b"\ntype ")?;
    bytes.extend_from_slice(one.name.bytes.as_slice())?;
    bytes.extend_from_slice(b" struct{x int}\n")?;
    match String::from_utf8(bytes) {
        Ok(text) => Ok(text),
        Err(_) => Ok(String::new(alloc)),
    }
}

/// A text without the declaration that has this violation. A struct type of another form replaces one that may have its name, so
/// that nothing is undefined for that.
fn without(
    alloc: Global,
    text: &str,
    read: &ReadText,
    violation: Violation,
) -> Result<Option<String>, Memory> {
    let tops = read.tree.file().tops.as_slice();
    let Some(found) = declaration_at(alloc, tops, node_of(violation)) else {
        return Ok(None);
    };
    let rest = blanked(alloc, text, read.span(found.node))?;
    match (found.top, violation) {
        (TopNode::Struct(_), Violation::Broken(Rule::Declared, node)) if node == found.node => {
            Ok(Some(rest))
        }
        (_, Violation::Exceeded(LimitKind::Declarations, _)) => Ok(None),
        (TopNode::Struct(one), _) => Ok(Some(with_type(alloc, rest, one)?)),
        (TopNode::Function(_), _) => Ok(Some(rest)),
    }
}

/// The first violation of the declarations of a text, if there is one.
fn declared_violation(alloc: Global, read: &ReadText) -> Result<Option<Violation>, Memory> {
    match table_of(alloc, read.tree.file().tops.as_slice()) {
        Ok(_) => Ok(None),
        Err(Refusal::Memory) => Err(Memory),
        Err(Refusal::Violated(violation)) => Ok(Some(violation)),
    }
}

/// The violations of the declarations of a text, each but for the first one found in the text without those that have the ones
/// before.
fn declared_others(alloc: Global, text: &str, others: &mut OtherList) -> Result<(), Memory> {
    let mut current = format!(in alloc; "{text}")?;
    for round in 0..MOST_ROUNDS {
        let Some(read) = read(alloc, current.as_str())? else {
            return Ok(());
        };
        let Some(violation) = declared_violation(alloc, &read)? else {
            return Ok(());
        };
        if round > 0 {
            others.put(alloc, current.as_str(), &read, violation)?;
        }
        let Some(rest) = without(alloc, current.as_str(), &read, violation)? else {
            return Ok(());
        };
        current = rest;
    }
    others.is_cut = true;
    Ok(())
}

/// What else is wrong with a program than `first`, its first violation: of its declarations if `first` is in one of them, else of
/// the bodies of its functions. Each is looked at by itself, so that none follows from another one.
///
/// Errors: a request for memory was refused.
pub fn others(alloc: Global, text: &str, first: Violation) -> Result<OtherList, Memory> {
    let mut others = OtherList::new(alloc);
    let Some(read) = read(alloc, text)? else {
        return Ok(others);
    };
    match table_of(alloc, read.tree.file().tops.as_slice()) {
        Ok(table) => others.put_bodies(alloc, text, &read, &table, first)?,
        Err(Refusal::Memory) => return Err(Memory),
        Err(Refusal::Violated(_)) => declared_others(alloc, text, &mut others)?,
    }
    Ok(others)
}
