//! The sentence on what is wrong with a tree.

ghost use Rattle.std.specs.Prelude.{◌^◌, ◌<◌};
ghost use Rattle.syntax.specs.Measures.{size};
ghost use Rattle.syntax.specs.View.{file_of};

use crate::declaring::push_in_unit;
use crate::fresh::push_no_new;
use crate::limit::push_size;
use crate::naming::{push_invisible, push_redeclared, push_unassigned};
use crate::near::{push_near_declared, push_near_in};
use crate::reading::read;
use crate::text::Text;
use checker_base::refusal::Refusal;
use checker_declaration::table::table_of;
use diagnostic_scope::given::{Role, parts_of};
use diagnostic_scope::scene::{Scene, scene_at};
use diagnostic_scope::unit::{Found, Walk, units_at};
use diagnostic_value::assigning::{push_constant, push_nil, push_unfit};
use diagnostic_value::channel::{push_direction, push_no_channel, push_unmade};
use diagnostic_value::counting::{push_called, push_numbers, push_returned};
use diagnostic_value::operator::{push_operands, push_operator};
use diagnostic_value::place::Setting;
use diagnostic_words::words::Words;
use go_text::{LimitKind, Memory, Rule};
use std::alloc::Global;
use syntax::{FileNode, NodeId, TopNode};
use type_table::table::TypeTable;
use typing_rules::violation::Violation;

/// Reports a condition that is no bool.
fn push_condition(said: &mut Words, at: &Setting<'_, '_>) {
    let Some(value) = at.parts.values.first() else {
        return;
    };
    said.text(if let Role::Condition(true) = value.role {
        "non-boolean condition in for statement: "
    } else {
        "non-boolean condition in if statement: "
    });
    at.push_operand(said, value.expression);
}

/// Reports a constant that can't be used as it is.
fn push_wrong_constant(said: &mut Words, at: &Setting<'_, '_>) {
    push_constant(said, at);
    if said.is_empty() {
        push_operator(said, at);
    }
}

/// Reports how a rule is violated, if that is known.
fn push_rule(said: &mut Words, rule: Rule, at: &Setting<'_, '_>) {
    match rule {
        Rule::Declared => push_redeclared(said, at),
        Rule::Visible => push_invisible(said, at),
        Rule::Operands => push_operands(said, at),
        Rule::Constant => push_wrong_constant(said, at),
        Rule::Assignable => push_unfit(said, at),
        Rule::Numbers => push_numbers(said, at),
        Rule::NewName => push_no_new(said, at),
        Rule::Assigned => push_unassigned(said, at),
        Rule::Direction => push_direction(said, at),
        Rule::Channel => push_no_channel(said, at),
        Rule::Nil => push_nil(said, at),
        Rule::Condition => push_condition(said, at),
        Rule::Returned => push_returned(said, at),
        Rule::Called => push_called(said, at),
        Rule::Made => push_unmade(said, at),
        _ => {}
    }
}

/// What is to be printed of a violation.
#[derive(Clone, Copy, PartialEq, Eq)]
enum Aim {
    /// The sentence that says what is wrong.
    Sentence,
    /// The name that could be meant by one that is not visible.
    NearName,
}

/// A violation, and what is to be printed of it.
#[derive(Clone, Copy)]
struct Query {
    violation: Violation,
    aim: Aim,
}

impl Query {
    /// The node of the violation.
    fn node(&self) -> NodeId {
        node_of(self.violation)
    }
}

/// Appends how a rule is violated, or a limit exceeded, if that is known.
fn push_at(said: &mut Words, violation: Violation, at: &Setting<'_, '_>) {
    match violation {
        Violation::Broken(rule, _) => push_rule(said, rule, at),
        Violation::Exceeded(LimitKind::ConstantSize, _) => push_size(said, at),
        Violation::Exceeded(_, _) => {}
    }
}

/// The node of a violation.
pub(crate) fn node_of(violation: Violation) -> NodeId {
    match violation {
        Violation::Broken(_, node) | Violation::Exceeded(_, node) => node,
    }
}

/// A file whose declarations are right, and what they declare.
#[derive(Clone, Copy)]
struct Declared<'s, 'a> {
    table: &'s TypeTable<'a>,
    tops: &'a [TopNode],
}

/// Appends what is to be printed of a violation in the scene of a function, in this unit.
fn push_in_scene(
    alloc: Global,
    said: &mut Words,
    file: Declared<'_, '_>,
    scene: &Scene<'_>,
    found: &Found<'_>,
    query: Query,
) {
    let parts = parts_of(alloc, file.table, scene, found);
    if scene.is_cut || parts.is_cut {
        return said.refuse();
    }
    let at = Setting {
        table: file.table,
        scene,
        parts: &parts,
        node: query.node(),
    };
    match (query.aim, query.violation) {
        (Aim::Sentence, violation) => push_at(said, violation, &at),
        (Aim::NearName, Violation::Broken(rule, _)) => push_near_in(said, &at, file.tops, rule),
        (Aim::NearName, Violation::Exceeded(_, _)) => {}
    }
}

/// Puts what is to be printed of a violation in a file whose declarations are right, in the innermost of these units, after what
/// is there.
fn push_in_functions(
    alloc: Global,
    said: &mut Words,
    table: &TypeTable<'_>,
    file: &FileNode,
    walk: &Walk<'_>,
    query: Query,
)
    requires small { size (file_of file.now) < 2 ^ 32 }
{
    let Some(found) = walk.found.first() else {
        return;
    };
    let tops = file.tops.as_slice();
    if let Some(scene) = scene_at(alloc, table, tops, 0, query.node()) {
        push_in_scene(alloc, said, Declared { table, tops }, &scene, found, query);
    }
}

/// Like `push_in_functions`, but of a file whose declarations may be wrong: then nothing is printed.
fn push_in_file(alloc: Global, said: &mut Words, file: &FileNode, walk: &Walk<'_>, query: Query)
    requires small { size (file_of file.now) < 2 ^ 32 }
{
    match table_of(alloc, file.tops.as_slice()) {
        Ok(table) => push_in_functions(alloc, said, &table, file, walk, query),
        Err(Refusal::Memory) => said.refuse(),
        Err(Refusal::Violated(_)) => {}
    }
}

/// Appends what is to be printed of a violation that does not depend on what is visible.
fn push_in_units(alloc: Global, said: &mut Words, text: &Text<'_>, walk: &Walk<'_>, query: Query) {
    match (query.aim, query.violation) {
        (Aim::Sentence, violation) => push_in_unit(alloc, said, text, walk, violation),
        (Aim::NearName, Violation::Broken(Rule::Visible, node)) => {
            if let Some(found) = walk.found.first() {
                push_near_declared(said, text.tops(), found, node);
            }
        }
        _ => {}
    }
}

/// Appends what is to be printed of a violation in a tree.
fn push_in_tree(alloc: Global, said: &mut Words, text: &Text<'_>, query: Query) {
    let walk = units_at(alloc, text.tree.file(), query.node());
    if walk.is_cut {
        return said.refuse();
    }
    push_in_units(alloc, said, text, &walk, query);
    if said.is_empty() {
        push_in_file(alloc, said, text.tree.file(), &walk, query);
    }
}

/// Writes what is to be printed of a violation in a text to `said`, which is empty.
fn push_query(alloc: Global, said: &mut Words, text: &str, query: Query) {
    match read(alloc, text) {
        Ok(Some(read)) => {
            push_in_tree(alloc, said, &Text::new(&read.source, &read.tree), query);
        }
        Ok(None) => {}
        Err(Memory) => said.refuse(),
    }
}

/// Writes what is wrong with the tree of a text to `said`, which is empty: nothing if only the rule or the limit is known.
pub fn push_violation(alloc: Global, said: &mut Words, text: &str, violation: Violation) {
    let aim = Aim::Sentence;
    push_query(alloc, said, text, Query { violation, aim });
}

/// Writes the name that could be meant by one that is not visible to `said`, which is empty: nothing if there is none.
pub fn push_near(alloc: Global, said: &mut Words, text: &str, violation: Violation) {
    let aim = Aim::NearName;
    push_query(alloc, said, text, Query { violation, aim });
}
