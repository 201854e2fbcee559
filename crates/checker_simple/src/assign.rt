//! Assignments ("Assignment statements" of the Go specification).

ghost use Rattle.std.specs.Prelude.{◌≡◌, ℕ, ◌+◌, ◌^◌, ◌<◌, List, map, IfOk, IfErr};
ghost use Rattle.syntax.specs.Tree.{Place, Assign};
ghost use Rattle.syntax.specs.Measures.{simple_size};
ghost use Rattle.type_table.specs.Visible.{types_of, globals_in, scope_of};
ghost use Rattle.typing_rules.specs.declared.violation.Violation.{Violation as OneViolation};
ghost use Rattle.typing_rules.specs.Operations.{Given as OneGiven};
ghost use Rattle.checker_base.specs.Views.{Refuses};
ghost use Rattle.checker_simple.specs.Givens.{given_of, places_at, places_in, source_of};
ghost use Rattle.typing_rules.specs.Simples.{AssignedHave, SimpleHas};

use crate::given::{Given, Source, given_by, numbers_agree};
use crate::place::{Targets, places, places_take, references};
use checker_base::refusal::Refusal;
use std::alloc::Global;
use syntax::{NodeId, PlaceNode};
use type_table::scope::Visible;
use type_table::table::TypeTable;
use typing_rules::violation::Violation;

/// Checks what lvalues are given by a statement whose own node is `given.end`.
fn assign_given<'a>(
    table: &TypeTable<'a>,
    visible: &Visible<'a>,
    all: &[&PlaceNode],
    given: &Given<'a>,
) -> Result<(), Violation>
    ensures none { IfOk result (λ _. (end : ℕ) → end ≡ given.now.end + 1 → (these : List Place) → these ≡ places_at all.now → (values : List OneGiven) → values ≡ map (given_of (types_of table.now)) given.now.values.items → (violation : OneViolation) → ¬ (AssignedHave (globals_in table.now) (scope_of table.now visible.now) these values end violation)) }
    ensures one { IfErr result (λ violation. (end : ℕ) → end ≡ given.now.end + 1 → (these : List Place) → these ≡ places_at all.now → (values : List OneGiven) → values ≡ map (given_of (types_of table.now)) given.now.values.items → AssignedHave (globals_in table.now) (scope_of table.now visible.now) these values end violation) }
{
    numbers_agree(given.values.len(), all.len(), given.end)?;
    places_take(table, visible, all, given.values.as_slice())
}

/// Checks an assignment, whose nodes have numbers from `first` on, and returns the number after them.
pub(crate) fn assign<'a>(
    alloc: Global,
    table: &TypeTable<'a>,
    visible: &Visible<'a>,
    first: NodeId,
    targets: Targets<'a>,
    source: Source<'a>,
) -> Result<NodeId, Refusal>
    requires small { first + simple_size (Assign (places_in targets) (source_of source)) < 2 ^ 32 }
    ensures end { IfOk result (λ end. end ≡ first + simple_size (Assign (places_in targets.entry) (source_of source.entry))) }
    ensures none { IfOk result (λ _. (violation : OneViolation) → ¬ (SimpleHas (globals_in table.now) (scope_of table.now visible.now) first (Assign (places_in targets.entry) (source_of source.entry)) violation)) }
    ensures one { IfErr result (Refuses (SimpleHas (globals_in table.now) (scope_of table.now visible.now) first (Assign (places_in targets.entry) (source_of source.entry)))) }
{
    let all = references(alloc, targets)?;
    let middle = places(table, visible, first, all.as_slice())?;
    let given = given_by(alloc, table, visible, all.len(), middle, source)?;
    assign_given(table, visible, all.as_slice(), &given)?;
    Ok(given.end + 1)
}
