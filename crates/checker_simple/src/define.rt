//! Short variable declarations.

ghost use Rattle.std.specs.Prelude.{◌≡◌, ℕ, ◌+◌, ◌^◌, ◌<◌, List, map, IfOk, IfErr};
ghost use Rattle.syntax.specs.Tree.{Define};
ghost use Rattle.syntax.specs.Measures.{simple_size};
ghost use Rattle.type_table.specs.Visible.{types_of, globals_in, scope_of, Keeps};
ghost use Rattle.typing_rules.specs.declared.violation.Violation.{Violation as OneViolation};
ghost use Rattle.typing_rules.specs.Operations.{Given as OneGiven};
ghost use Rattle.checker_base.specs.Views.{Refuses};
ghost use Rattle.checker_simple.specs.Givens.{given_of, source_of};
ghost use Rattle.checker_simple.specs.Names.{names_at, names_in};
ghost use Rattle.typing_rules.specs.Simples.{NamesHave, with_defined, SimpleHas, after_simple};

use crate::given::{Given, Source, given_by, numbers_agree};
use crate::names::{Names, may_define, references, take_names};
use checker_base::refusal::Refusal;
use std::alloc::Global;
use syntax::{Name, NodeId};
use type_table::scope::Visible;
use type_table::table::TypeTable;

/// Checks the names of a `:=` and what they are given, and declares those that are new. The own node of the `:=` is the one after what is
/// given.
fn define_given<'a>(
    table: &TypeTable<'a>,
    visible: &mut Visible<'a>,
    names: &[&'a Name],
    given: &Given<'a>,
) -> Result<(), Refusal>
    ensures after { IfOk result (λ _. scope_of table.now visible.new ≡ with_defined (globals_in table.now) (scope_of table.now visible.old) (names_at names.now) (map (given_of (types_of table.now)) given.now.values.items)) }
    ensures kept { IfOk result (λ _. Keeps visible.old visible.new) }
    ensures none { IfOk result (λ _. (end : ℕ) → end ≡ given.now.end + 1 → (all : List (List ℕ)) → all ≡ names_at names.now → (values : List OneGiven) → values ≡ map (given_of (types_of table.now)) given.now.values.items → (violation : OneViolation) → ¬ (NamesHave (scope_of table.now visible.old) all values end violation)) }
    ensures one { (end : ℕ) → end ≡ given.now.end + 1 → (all : List (List ℕ)) → all ≡ names_at names.now → (values : List OneGiven) → values ≡ map (given_of (types_of table.now)) given.now.values.items → IfErr result (Refuses (NamesHave (scope_of table.now visible.old) all values end)) }
{
    numbers_agree(given.values.len(), names.len(), given.end)?;
    may_define(table, visible, names, given.end)?;
    take_names(table, visible, names, given.values.as_slice())
}

/// Checks a `:=`, whose nodes have numbers from `first` on, and returns the number after them. What it declares is then
/// visible.
pub(crate) fn define<'a>(
    alloc: Global,
    table: &TypeTable<'a>,
    visible: &mut Visible<'a>,
    first: NodeId,
    names: Names<'a>,
    source: Source<'a>,
) -> Result<NodeId, Refusal>
    requires small { first + simple_size (Define (names_in names) (source_of source)) < 2 ^ 32 }
    ensures end { IfOk result (λ end. end ≡ first + simple_size (Define (names_in names.entry) (source_of source.entry))) }
    ensures after { IfOk result (λ _. scope_of table.now visible.new ≡ after_simple (globals_in table.now) (scope_of table.now visible.old) (Define (names_in names.entry) (source_of source.entry))) }
    ensures kept { IfOk result (λ _. Keeps visible.old visible.new) }
    ensures none { IfOk result (λ _. (violation : OneViolation) → ¬ (SimpleHas (globals_in table.now) (scope_of table.now visible.old) first (Define (names_in names.entry) (source_of source.entry)) violation)) }
    ensures one { IfErr result (Refuses (SimpleHas (globals_in table.now) (scope_of table.now visible.old) first (Define (names_in names.entry) (source_of source.entry)))) }
{
    let all = references(alloc, names)?;
    let given = given_by(alloc, table, visible, all.len(), first, source)?;
    define_given(table, visible, all.as_slice(), &given)?;
    Ok(given.end + 1)
}
