//! The check of fields and parameters.

ghost use Rattle.std.specs.Prelude.{◌≡◌, [], ℕ, ◌+◌, ◌++◌, ◌^◌, ◌<◌, ◌&&◌, ◌||◌, not, Some, Option, List, map, sum_by, OnOk, IfOk, IfErr};
ghost use Rattle.syntax.specs.Measures.{declared_size};
ghost use Rattle.syntax.specs.View.{name_of, declared_of};
ghost use Rattle.type_table.specs.Scopes.{nothing_declared, type_in};
ghost use Rattle.type_table.specs.Views.{kind_of, field_in};
ghost use Rattle.typing_rules.specs.declared.violation.Violation.{Violation as OneViolation};
ghost use Rattle.checker_base.specs.Views.{Refuses};
ghost use Rattle.typing_rules.specs.Kinds.{all_fields, fields_declared};
ghost use Rattle.typing_rules.specs.Declarations.{broken_by, NamesHave, GroupHas, GroupsHave};

use crate::name::{is_among, is_unfit};
use checker_base::refusal::Refusal;
use go_text::Rule;
use std::alloc::{AllocError, Global};
use syntax::size::type_size;
use syntax::{DeclaredNode, Name, NodeId};
use type_table::entry::FieldEntry;
use type_table::name_list::NameList;
use type_table::scope::{is_blank, is_reserved};
use type_table::value_type::{ValueType, global_type_in};
use typing_rules::role::Role;
use typing_rules::violation::Violation;

/// The rule that a name violates after others of the same struct or function ("Declarations and scope" of the Go specification).
fn broken_by(role: Role, before: &NameList<'_>, name: &[u8]) -> Option<Rule>
    ensures { result ≡ broken_by role before.now name.now }
{
    match role {
        Role::Field => {
            if is_unfit(name) {
                Some(Rule::Declared)
            } else if is_among(before, name) {
                Some(Rule::Struct)
            } else {
                None
            }
        }
        Role::Parameter => {
            if is_reserved(name) || (!is_blank(name) && is_among(before, name)) {
                Some(Rule::Declared)
            } else {
                None
            }
        }
    }
}

/// Checks names that are declared together, after others of the same struct or function. Their declaration has this node.
fn names<'a>(
    role: Role,
    before: &mut NameList<'a>,
    node: NodeId,
    all: &'a [Name],
) -> Result<(), Refusal>
    ensures after { IfOk result (λ _. before.new ≡ before.old ++ map name_of all.now) }
    ensures none { IfOk result (λ _. (end : ℕ) → end ≡ node + 1 → (violation : OneViolation) → ¬ (NamesHave role before.old (map name_of all.now) end violation)) }
    ensures one { IfErr result (Refuses (λ violation. (end : ℕ) → end ≡ node + 1 → NamesHave role before.old (map name_of all.now) end violation)) }
{
    let Some((name, rest)) = all.split_first() else {
        return Ok(());
    };
    if let Some(rule) = broken_by(role, before, name.bytes.as_slice()) {
        return Err(Refusal::Violated(Violation::Broken(rule, node)));
    }
    before.push(name)?;
    crate::group::names(role, before, node, rest)
}

/// Appends what the names declare.
fn declare<'a>(
    entries: &mut Vec<FieldEntry<'a>>,
    kind: ValueType<'a>,
    names: &'a [Name],
) -> Result<(), AllocError>
    ensures { OnOk result ((types : List (List ℕ)) → map (field_in types) entries.new.items ≡ map (field_in types) entries.old.items ++ all_fields (Some (kind_of types kind.entry)) (map name_of names.now)) }
{
    for name in names {
        entries.push(FieldEntry { name, kind })?;
    }
    Ok(())
}

/// Checks names and their type, whose nodes have numbers from `first` on, and returns the number after them.
fn group<'a>(
    role: Role,
    types: &NameList<'_>,
    before: &mut NameList<'a>,
    entries: &mut Vec<FieldEntry<'a>>,
    first: NodeId,
    one: &'a DeclaredNode,
) -> Result<NodeId, Refusal>
    requires small { first + declared_size (declared_of one.now) < 2 ^ 32 }
    ensures end { IfOk result (λ end. end ≡ first + declared_size (declared_of one.now)) }
    ensures names { IfOk result (λ _. before.new ≡ before.old ++ (declared_of one.now).names) }
    ensures fields { IfOk result (λ _. map (field_in types.now) entries.new.items ≡ map (field_in types.now) entries.old.items ++ all_fields (type_in types.now nothing_declared (declared_of one.now).type_expression) (declared_of one.now).names) }
    ensures none { IfOk result (λ _. (violation : OneViolation) → ¬ (GroupHas role types.now before.old first (declared_of one.now) violation)) }
    ensures one { IfErr result (Refuses (GroupHas role types.now before.old first (declared_of one.now))) }
{
    let node = first + type_size(&one.type_node);
    names(role, before, node, one.names.as_slice())?;
    match global_type_in(types, &one.type_node) {
        None => Err(Refusal::Violated(Violation::Broken(Rule::Visible, first))),
        Some(kind) => {
            declare(entries, kind, one.names.as_slice())?;
            Ok(node + 1)
        }
    }
}

/// Checks fields or parameters after others, whose nodes have numbers from `first` on, and returns the number after them.
/// The entries get them.
fn groups<'a>(
    role: Role,
    types: &NameList<'_>,
    before: &mut NameList<'a>,
    entries: &mut Vec<FieldEntry<'a>>,
    first: NodeId,
    all: &'a [DeclaredNode],
) -> Result<NodeId, Refusal>
    requires small { first + sum_by declared_size (map declared_of all.now) < 2 ^ 32 }
    ensures end { IfOk result (λ end. end ≡ first + sum_by declared_size (map declared_of all.now)) }
    ensures fields { IfOk result (λ _. map (field_in types.now) entries.new.items ≡ map (field_in types.now) entries.old.items ++ fields_declared types.now (map declared_of all.now)) }
    ensures none { IfOk result (λ _. (violation : OneViolation) → ¬ (GroupsHave role types.now before.old first (map declared_of all.now) violation)) }
    ensures one { IfErr result (Refuses (GroupsHave role types.now before.old first (map declared_of all.now))) }
{
    let Some((one, rest)) = all.split_first() else {
        return Ok(first);
    };
    let middle = group(role, types, before, entries, first, one)?;
    crate::group::groups(role, types, before, entries, middle, rest)
}

/// What a struct or a function declares: its fields or parameters, and the number after their nodes.
#[derive(Drop)]
pub(crate) struct Listed<'a> {
    pub entries: Vec<FieldEntry<'a>>,
    pub end: NodeId,
}

/// Checks all fields of a struct, or all parameters of a function, whose nodes have numbers from `first` on. The struct types
/// of the file have these names.
///
/// Errors: the first violation, that of names before that of their type; `Memory`.
pub(crate) fn all_groups<'a>(
    alloc: Global,
    role: Role,
    types: &NameList<'_>,
    first: NodeId,
    all: &'a [DeclaredNode],
) -> Result<Listed<'a>, Refusal>
    requires small { first + sum_by declared_size (map declared_of all.now) < 2 ^ 32 }
    ensures end { IfOk result (λ listed. listed.end ≡ first + sum_by declared_size (map declared_of all.now)) }
    ensures fields { IfOk result (λ listed. map (field_in types.now) listed.entries.items ≡ fields_declared types.now (map declared_of all.now)) }
    ensures none { IfOk result (λ _. (violation : OneViolation) → ¬ (GroupsHave role types.now [] first (map declared_of all.now) violation)) }
    ensures one { IfErr result (Refuses (GroupsHave role types.now [] first (map declared_of all.now))) }
{
    let mut names = NameList::new(alloc);
    let mut entries = Vec::new(alloc);
    let end = groups(role, types, &mut names, &mut entries, first, all)?;
    Ok(Listed { entries, end })
}
