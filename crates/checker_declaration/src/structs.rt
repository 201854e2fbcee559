//! The check of each struct type on its own.

ghost use Rattle.std.specs.Prelude.{◌≡◌, ℕ, ◌+◌, ◌++◌, ◌^◌, ◌<◌, ◌≤◌, ◌||◌, length, map, sum_by, IfOk, IfErr};
ghost use Rattle.syntax.specs.Measures.{declared_size, top_size};
ghost use Rattle.syntax.specs.View.{name_of, struct_of, top_of};
ghost use Rattle.type_table.specs.Views.{names_of, fields_of_entry, structs_of};
ghost use Rattle.typing_rules.specs.declared.violation.Violation.{Violation as OneViolation};
ghost use Rattle.checker_base.specs.Views.{Refuses};
ghost use Rattle.typing_rules.specs.Kinds.{type_name, type_names, fields_declared, struct_in, structs_with};
ghost use Rattle.typing_rules.specs.Declarations.{FieldsHave, StructHas, TopStructHas, counting_struct, StructsHave};

use crate::group::all_groups;
use crate::name::{is_type_taken, own_node};
use checker_base::refusal::Refusal;
use go_text::{LimitKind, Rule};
use std::alloc::Global;
use syntax::{NodeId, StructNode, TopNode};
use type_table::entry::StructEntry;
use type_table::name_list::NameList;
use typing_rules::role::Role;
use typing_rules::violation::Violation;

/// How many struct types a file may have.
const MOST_STRUCTS: usize = 4096;

/// Checks the fields of a struct type ("Struct types" of the Go specification), whose nodes have numbers from `first` on to
/// `node`.
fn fields<'a>(
    alloc: Global,
    types: &NameList<'_>,
    first: NodeId,
    node: NodeId,
    one: &'a StructNode,
) -> Result<StructEntry<'a>, Refusal>
    requires small { first + sum_by declared_size (struct_of one.now).fields < 2 ^ 32 }
    ensures name { IfOk result (λ entry. name_of entry.name.now ≡ (struct_of one.now).name) }
    ensures fields { IfOk result (λ entry. fields_of_entry types.now entry ≡ fields_declared types.now (struct_of one.now).fields) }
    ensures none { IfOk result (λ _. (end : ℕ) → end ≡ node + 1 → (violation : OneViolation) → ¬ (FieldsHave types.now first end (struct_of one.now).fields violation)) }
    ensures one { IfErr result (Refuses (λ violation. (end : ℕ) → end ≡ node + 1 → FieldsHave types.now first end (struct_of one.now).fields violation)) }
{
    let listed = all_groups(alloc, Role::Field, types, first, one.fields.as_slice())?;
    if one.fields.is_empty() {
        return Err(Refusal::Violated(Violation::Broken(Rule::Struct, node)));
    }
    Ok(StructEntry {
        name: &one.name,
        fields: listed.entries,
    })
}

/// Checks struct type number `number`, whose nodes have numbers from `first` on to `node`.
fn struct_entry<'a>(
    alloc: Global,
    types: &NameList<'_>,
    number: usize,
    first: NodeId,
    node: NodeId,
    one: &'a StructNode,
) -> Result<StructEntry<'a>, Refusal>
    requires small { first + sum_by declared_size (struct_of one.now).fields < 2 ^ 32 }
    ensures name { IfOk result (λ entry. name_of entry.name.now ≡ (struct_of one.now).name) }
    ensures fields { IfOk result (λ entry. fields_of_entry types.now entry ≡ fields_declared types.now (struct_of one.now).fields) }
    ensures none { IfOk result (λ _. (end : ℕ) → end ≡ node + 1 → (violation : OneViolation) → ¬ (StructHas types.now number first end (struct_of one.now) violation)) }
    ensures one { IfErr result (Refuses (λ violation. (end : ℕ) → end ≡ node + 1 → StructHas types.now number first end (struct_of one.now) violation)) }
{
    if is_type_taken(types, number, one.name.bytes.as_slice()) {
        return Err(Refusal::Violated(Violation::Broken(Rule::Declared, node)));
    }
    if number >= MOST_STRUCTS {
        return Err(Refusal::Violated(Violation::Exceeded(LimitKind::Declarations, node)));
    }
    fields(alloc, types, first, node, one)
}

/// Checks a struct type, if this is one, whose nodes have numbers from `first` on, and returns the number after the
/// declaration. The structs get it.
fn top_struct<'a>(
    alloc: Global,
    types: &NameList<'_>,
    structs: &mut Vec<StructEntry<'a>>,
    first: NodeId,
    top: &'a TopNode,
) -> Result<NodeId, Refusal>
    requires small { first + top_size (top_of top.now) < 2 ^ 32 }
    ensures end { IfOk result (λ end. end ≡ first + top_size (top_of top.now)) }
    ensures count { IfOk result (λ _. length structs.new.items ≡ counting_struct (length structs.old.items) (top_of top.now)) }
    ensures names { IfOk result (λ _. names_of structs.new.items ≡ names_of structs.old.items ++ type_name (top_of top.now)) }
    ensures fields { IfOk result (λ _. structs_of types.now structs.new.items ≡ structs_of types.now structs.old.items ++ struct_in types.now (top_of top.now)) }
    ensures none { IfOk result (λ _. (violation : OneViolation) → ¬ (TopStructHas types.now (length structs.old.items) first (top_of top.now) violation)) }
    ensures one { IfErr result (Refuses (TopStructHas types.now (length structs.old.items) first (top_of top.now))) }
{
    let node = own_node(first, top);
    match top {
        TopNode::Struct(one) => {
            let entry = struct_entry(alloc, types, structs.len(), first, node, one)?;
            structs.push(entry)?;
            Ok(node + 1)
        }
        TopNode::Function(_) => Ok(node + 1),
    }
}

/// Checks each struct type of a file on its own. The types have these names.
///
/// Errors: the first violation, in the order of the types; of a type that of its name before those of its fields; `Memory`.
pub(crate) fn structs<'a>(
    alloc: Global,
    types: &NameList<'_>,
    tops: &'a [TopNode],
) -> Result<Vec<StructEntry<'a>>, Refusal>
    requires small { sum_by top_size (map top_of tops.now) < 2 ^ 32 }
    ensures names { IfOk result (λ all. names_of all.items ≡ type_names (map top_of tops.now)) }
    ensures fields { IfOk result (λ all. structs_of types.now all.items ≡ structs_with types.now (map top_of tops.now)) }
    ensures none { IfOk result (λ _. (violation : OneViolation) → ¬ (StructsHave types.now 0 0 (map top_of tops.now) violation)) }
    ensures one { IfErr result (Refuses (StructsHave types.now 0 0 (map top_of tops.now))) }
{
    let mut all = Vec::new(alloc);
    let mut end = 0;
    for top in tops {
        end = top_struct(alloc, types, &mut all, end, top)?;
    }
    Ok(all)
}
