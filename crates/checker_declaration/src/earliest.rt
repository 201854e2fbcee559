//! Which of several violations of struct types is reported.

ghost use Rattle.std.specs.Prelude.{◌≡◌, ◌+◌, ◌^◌, ◌<◌, map, sum_by, IfSome, IfOk};
ghost use Rattle.syntax.specs.Measures.{top_size};
ghost use Rattle.syntax.specs.View.{top_of};
ghost use Rattle.typing_rules.specs.Kinds.{type_names, structs};
ghost use Rattle.typing_rules.specs.Declarations.{TypesHave};
ghost use Rattle.typing_rules.specs.Nodes.{node_of};
ghost use Rattle.checker_declaration.specs.Parts.{structs_in};

use crate::held::first_held;
use crate::parts::{Parts, all_parts};
use crate::sizes::struct_node;
use crate::wide::first_too_wide;
use go_text::{LimitKind, Rule};
use std::alloc::{AllocError, Global};
use syntax::{NodeId, TopNode};
use type_table::name_list::NameList;
use typing_rules::violation::Violation;

/// The node of a violation.
fn node_of(violation: Violation) -> NodeId
    ensures { result ≡ node_of violation }
{
    match violation {
        Violation::Broken(_, node) | Violation::Exceeded(_, node) => node,
    }
}

/// The own node of the first struct type that is found within itself. The struct types have these fields.
fn held_node(
    alloc: Global,
    tops: &[TopNode],
    all: &[Parts<'_>],
) -> Result<Option<NodeId>, AllocError>
    requires small { sum_by top_size (map top_of tops.now) < 2 ^ 32 }
    requires fields { structs_in (type_names (map top_of tops.now)) all.now ≡ structs (map top_of tops.now) }
    ensures { IfOk result (λ found. IfSome found (λ node. TypesHave (map top_of tops.now) (Violation.Broken Rule.Struct node))) }
{
    match first_held(alloc, all)? {
        None => Ok(None),
        Some(number) => Ok(struct_node(tops, number)),
    }
}

/// The own node of the first struct type that is known to be too wide. The struct types have these fields.
fn wide_node(
    alloc: Global,
    tops: &[TopNode],
    all: &[Parts<'_>],
) -> Result<Option<NodeId>, AllocError>
    requires small { sum_by top_size (map top_of tops.now) < 2 ^ 32 }
    requires fields { structs_in (type_names (map top_of tops.now)) all.now ≡ structs (map top_of tops.now) }
    ensures { IfOk result (λ found. IfSome found (λ node. TypesHave (map top_of tops.now) (Violation.Exceeded LimitKind.StructWidth node))) }
{
    match first_too_wide(alloc, all)? {
        None => Ok(None),
        Some(number) => Ok(struct_node(tops, number)),
    }
}

/// This violation of the struct types, or that one contains itself, if its declaration comes first. The struct types have these fields.
fn held_before(
    alloc: Global,
    tops: &[TopNode],
    all: &[Parts<'_>],
    violation: Violation,
) -> Result<Violation, AllocError>
    requires small { sum_by top_size (map top_of tops.now) < 2 ^ 32 }
    requires fields { structs_in (type_names (map top_of tops.now)) all.now ≡ structs (map top_of tops.now) }
    requires violation { TypesHave (map top_of tops.now) violation }
    ensures { IfOk result (TypesHave (map top_of tops.now)) }
{
    match held_node(alloc, tops, all)? {
        Some(node) if node < node_of(violation) => Ok(Violation::Broken(Rule::Struct, node)),
        _ => Ok(violation),
    }
}

/// This violation of the struct types, or that one is too wide, if its declaration comes first. The struct types have these fields.
fn wide_before(
    alloc: Global,
    tops: &[TopNode],
    all: &[Parts<'_>],
    violation: Violation,
) -> Result<Violation, AllocError>
    requires small { sum_by top_size (map top_of tops.now) < 2 ^ 32 }
    requires fields { structs_in (type_names (map top_of tops.now)) all.now ≡ structs (map top_of tops.now) }
    requires violation { TypesHave (map top_of tops.now) violation }
    ensures { IfOk result (TypesHave (map top_of tops.now)) }
{
    match wide_node(alloc, tops, all)? {
        Some(node) if node < node_of(violation) => Ok(Violation::Exceeded(
            LimitKind::StructWidth,
            node,
        )),
        _ => Ok(violation),
    }
}

/// The violation to report of the struct types, which have this one: that one contains itself or is too wide, if its declaration comes
/// first.
///
/// Errors: out of memory.
pub(crate) fn earliest(
    alloc: Global,
    types: &NameList<'_>,
    tops: &[TopNode],
    violation: Violation,
) -> Result<Violation, AllocError>
    requires small { sum_by top_size (map top_of tops.now) < 2 ^ 32 }
    requires names { types.now ≡ type_names (map top_of tops.now) }
    requires violation { TypesHave (map top_of tops.now) violation }
    ensures { IfOk result (TypesHave (map top_of tops.now)) }
{
    let all = all_parts(alloc, types, tops)?;
    let first = held_before(alloc, tops, all.as_slice(), violation)?;
    wide_before(alloc, tops, all.as_slice(), first)
}
