//! What a file declares.

ghost use Rattle.std.specs.Prelude.{◌≡◌, ℕ, suc, ◌^◌, ◌<◌, ◌≤◌, ◌⊎◌, Some, All, slice_get, length, map, sum_by, IfOk, IfErr};
ghost use Rattle.syntax.specs.Measures.{top_size};
ghost use Rattle.syntax.specs.View.{top_of};
ghost use Rattle.type_table.specs.Views.{names_of, structs_of};
ghost use Rattle.type_table.specs.Marks.{IsWide};
ghost use Rattle.type_table.specs.Visible.{globals_in};
ghost use Rattle.typing_rules.specs.declared.violation.Violation.{Violation as OneViolation};
ghost use Rattle.checker_base.specs.Views.{Refuses};
ghost use Rattle.typing_rules.specs.Kinds.{type_names, structs as spec_structs, globals_of};
ghost use Rattle.typing_rules.specs.Declarations.{TypesHave, DeclarationsHave};

use crate::earliest::earliest;
use crate::header::headers;
use crate::name::{function_names, type_names};
use crate::sizes::narrow_widths;
use crate::structs::structs;
use checker_base::refusal::Refusal;
use std::alloc::Global;
use syntax::TopNode;
use type_table::entry::StructEntry;
use type_table::name_list::NameList;
use type_table::table::TypeTable;

/// The struct types of a file, and the widths of their values in words.
#[derive(Drop)]
pub(crate) struct SizedTypes<'a> {
    pub structs: Vec<StructEntry<'a>>,
    pub widths: Vec<usize>,
}

/// Checks the struct types of a file, which have these names.
fn checked_types<'a>(
    alloc: Global,
    types: &NameList<'_>,
    tops: &'a [TopNode],
) -> Result<SizedTypes<'a>, Refusal>
    requires small { sum_by top_size (map top_of tops.now) < 2 ^ 32 }
    requires names { types.now ≡ type_names (map top_of tops.now) }
    ensures names { IfOk result (λ all. names_of all.structs.items ≡ type_names (map top_of tops.now)) }
    ensures fields { IfOk result (λ all. structs_of (names_of all.structs.items) all.structs.items ≡ spec_structs (map top_of tops.now)) }
    ensures count { IfOk result (λ all. length all.widths.items ≡ length all.structs.items) }
    ensures wide { IfOk result (λ all. (s w : ℕ) → slice_get all.widths.items s ≡ Some w → IsWide (structs_of (names_of all.structs.items) all.structs.items) (suc (length all.structs.items)) s w) }
    ensures narrow { IfOk result (λ all. All (λ w. w ≤ 16) all.widths.items) }
    ensures none { IfOk result (λ _. (violation : OneViolation) → ¬ (TypesHave (map top_of tops.now) violation)) }
    ensures one { IfErr result (Refuses (TypesHave (map top_of tops.now))) }
{
    let structs = structs(alloc, types, tops)?;
    let widths = narrow_widths(alloc, structs.as_slice(), tops)?;
    Ok(SizedTypes { structs, widths })
}

/// Checks the struct types of a file, which have these names.
///
/// Errors: the first violation in the order of the types; of a type those of its name and its fields, and then that it contains itself;
/// `Memory`.
fn sized_types<'a>(
    alloc: Global,
    types: &NameList<'_>,
    tops: &'a [TopNode],
) -> Result<SizedTypes<'a>, Refusal>
    requires small { sum_by top_size (map top_of tops.now) < 2 ^ 32 }
    requires names { types.now ≡ type_names (map top_of tops.now) }
    ensures names { IfOk result (λ all. names_of all.structs.items ≡ type_names (map top_of tops.now)) }
    ensures fields { IfOk result (λ all. structs_of (names_of all.structs.items) all.structs.items ≡ spec_structs (map top_of tops.now)) }
    ensures count { IfOk result (λ all. length all.widths.items ≡ length all.structs.items) }
    ensures wide { IfOk result (λ all. (s w : ℕ) → slice_get all.widths.items s ≡ Some w → IsWide (structs_of (names_of all.structs.items) all.structs.items) (suc (length all.structs.items)) s w) }
    ensures narrow { IfOk result (λ all. All (λ w. w ≤ 16) all.widths.items) }
    ensures none { IfOk result (λ _. (violation : OneViolation) → ¬ (TypesHave (map top_of tops.now) violation)) }
    ensures one { IfErr result (Refuses (TypesHave (map top_of tops.now))) }
{
    match checked_types(alloc, types, tops) {
        Ok(all) => Ok(all),
        Err(Refusal::Memory) => Err(Refusal::Memory),
        Err(Refusal::Violated(violation)) => {
            let violation = earliest(alloc, types, tops, violation)?;
            Err(Refusal::Violated(violation))
        }
    }
}

/// Checks the declarations of a file, without the bodies of functions, and returns what is declared.
///
/// Errors: the first violation: those of struct types, in order, and then those of functions, in order; `Memory`.
pub fn table_of<'a>(alloc: Global, tops: &'a [TopNode]) -> Result<TypeTable<'a>, Refusal>
    requires small { sum_by top_size (map top_of tops.now) < 2 ^ 32 }
    ensures globals { IfOk result (λ table. globals_in table ≡ globals_of (map top_of tops.now)) }
    ensures none { IfOk result (λ _. (violation : OneViolation) → ¬ (DeclarationsHave (map top_of tops.now) violation)) }
    ensures one { IfErr result (Refuses (DeclarationsHave (map top_of tops.now))) }
{
    let types = type_names(alloc, tops)?;
    let SizedTypes { structs, widths } = sized_types(alloc, &types, tops)?;
    let callees = function_names(alloc, tops)?;
    let functions = headers(alloc, &types, &callees, tops)?;
    Ok(TypeTable::new(structs, types, widths, functions, callees))
}
