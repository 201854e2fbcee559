//! The check of what the values of struct types are made of.

ghost use Rattle.std.specs.Prelude.{◌≡◌, ℕ, suc, ◌+◌, ◌^◌, ◌<◌, ◌≤◌, Some, slice_get, All, length, map, sum_by, IfSome, IfNone, IfOk, IfErr};
ghost use Rattle.syntax.specs.Measures.{top_size};
ghost use Rattle.syntax.specs.View.{top_of};
ghost use Rattle.type_table.specs.Views.{names_of, structs_of};
ghost use Rattle.type_table.specs.Marks.{IsWide};
ghost use Rattle.typing_rules.specs.declared.violation.Violation.{Violation as OneViolation};
ghost use Rattle.checker_base.specs.Views.{Refuses};
ghost use Rattle.typing_rules.specs.Kinds.{structs_with};
ghost use Rattle.typing_rules.specs.Declarations.{struct_node, ContentsHave};

use crate::name::own_node;
use checker_base::refusal::Refusal;
use go_text::{LimitKind, Rule};
use std::alloc::Global;
use syntax::{NodeId, TopNode};
use type_table::entry::StructEntry;
use type_table::width::{Endless, widths};
use typing_rules::violation::Violation;

/// How many words a value may take.
const MOST_WORDS: usize = 16;

/// The own node of the struct type with this number.
pub(crate) fn struct_node(tops: &[TopNode], number: usize) -> Option<NodeId>
    requires small { sum_by top_size (map top_of tops.now) < 2 ^ 32 }
    ensures { result ≡ struct_node 0 (map top_of tops.now) number }
{
    let mut first = 0;
    let mut left = number;
    for top in tops {
        let node = own_node(first, top);
        if let TopNode::Struct(_) = top {
            if left == 0 {
                return Some(node);
            }
            left -= 1;
        }
        first = node + 1;
    }
    None
}

/// The first of these widths that is too great.
fn first_wide(widths: &[usize]) -> Option<usize>
    ensures wide { IfSome result (λ number. (w : ℕ) × (slice_get widths.now number ≡ Some w) × (16 < w)) }
    ensures narrow { IfNone result (All (λ w. w ≤ 16) widths.now) }
{
    for (number, words) in widths.iter().enumerate() {
        if *words > MOST_WORDS {
            return Some(number);
        }
    }
    None
}

/// The widths of all struct types, in words.
///
/// Errors: a struct type that contains itself, or that is wider than 16 words; `Memory`.
pub(crate) fn narrow_widths(
    alloc: Global,
    structs: &[StructEntry<'_>],
    tops: &[TopNode],
) -> Result<Vec<usize>, Refusal>
    requires small { sum_by top_size (map top_of tops.now) < 2 ^ 32 }
    requires fields { structs_of (names_of structs.now) structs.now ≡ structs_with (names_of structs.now) (map top_of tops.now) }
    ensures count { IfOk result (λ all. length all.items ≡ length structs.now) }
    ensures wide { IfOk result (λ all. (s w : ℕ) → slice_get all.items s ≡ Some w → IsWide (structs_of (names_of structs.now) structs.now) (suc (length structs.now)) s w) }
    ensures narrow { IfOk result (λ all. All (λ w. w ≤ 16) all.items) }
    ensures none { IfOk result (λ _. (violation : OneViolation) → ¬ (ContentsHave (structs_of (names_of structs.now) structs.now) (map top_of tops.now) violation)) }
    ensures one { IfErr result (Refuses (ContentsHave (structs_of (names_of structs.now) structs.now) (map top_of tops.now))) }
{
    match widths(alloc, structs) {
        Err(Endless::Memory) => Err(Refusal::Memory),
        Err(Endless::Holds(number)) => match struct_node(tops, number) {
            Some(node) => Err(Refusal::Violated(Violation::Broken(Rule::Struct, node))),
            None => unreachable!(),
        },
        Ok(all) => match first_wide(all.as_slice()) {
            None => Ok(all),
            Some(number) => match struct_node(tops, number) {
                Some(node) => Err(Refusal::Violated(Violation::Exceeded(
                    LimitKind::StructWidth,
                    node,
                ))),
                None => unreachable!(),
            },
        },
    }
}
