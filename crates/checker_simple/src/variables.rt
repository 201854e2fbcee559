//! Declarations of variables ("Variable declarations" of the Go specification).

ghost use Rattle.std.specs.Prelude.{◌≡◌, ℕ, ◌+◌, ◌^◌, ◌<◌, List, Some, length, map, sum_by, option_map, IfOk, IfErr};
ghost use Rattle.syntax.specs.Measures.{if_any, type_size, expression_size};
ghost use Rattle.syntax.specs.View.{name_of, type_of, right_of};
ghost use Rattle.typing_rules.specs.declared.violation.Violation.{Violation as OneViolation};
ghost use Rattle.type_table.specs.Scopes.{type_in, declared_unless_blank};
ghost use Rattle.typing_rules.specs.Operations.{Given as OneGiven, given};
ghost use Rattle.typing_rules.specs.Simples.{AllFail, TypedHave, UntypedHave, IfRightHas, with_variables, with_defined, TypedVariablesHave, UntypedVariablesHave};
ghost use Rattle.type_table.specs.Views.{kind_of};
ghost use Rattle.type_table.specs.Visible.{types_of, globals_in, scope_of, Keeps};
ghost use Rattle.checker_base.specs.Views.{Refuses};
ghost use Rattle.checker_simple.specs.Givens.{given_of};
ghost use Rattle.checker_simple.specs.Names.{names_at};

use crate::given::{Given, Source, fits, given_by, numbers_agree};
use crate::names::{Names, may_declare, references, take_names};
use checker_base::operand::Operand;
use checker_base::refusal::Refusal;
use go_text::Rule;
use std::alloc::{AllocError, Global};
use syntax::size::type_size;
use syntax::{ExpressionNode, Name, NodeId, TypeNode};
use type_table::scope::{Visible, declare, is_blank};
use type_table::table::TypeTable;
use type_table::value_type::{ValueType, type_in};
use typing_rules::violation::Violation;

/// Checks that values go to variables of a type.
fn all_fit<'a>(
    table: &TypeTable<'a>,
    kind: ValueType<'a>,
    values: &[Operand<'a>],
) -> Result<(), Violation>
    ensures none { IfOk result (λ _. (violation : OneViolation) → ¬ (AllFail (Some (kind_of (types_of table.now) kind.entry)) (length values.now) (map (given_of (types_of table.now)) values.now) violation)) }
    ensures one { IfErr result (AllFail (Some (kind_of (types_of table.now) kind.entry)) (length values.now) (map (given_of (types_of table.now)) values.now)) }
{
    let Some((operand, rest)) = values.split_first() else {
        return Ok(());
    };
    fits(table, Some(kind), *operand)?;
    all_fit(table, kind, rest)
}

/// Checks what `names` variables of a type are given, by a statement whose own node comes next.
fn typed_given<'a>(
    table: &TypeTable<'a>,
    kind: ValueType<'a>,
    names: usize,
    given: &Given<'a>,
) -> Result<(), Violation>
    ensures none { IfOk result (λ _. (end : ℕ) → end ≡ given.now.end + 1 → (values : List OneGiven) → values ≡ map (given_of (types_of table.now)) given.now.values.items → (violation : OneViolation) → ¬ (TypedHave (Some (kind_of (types_of table.now) kind.entry)) names values end violation)) }
    ensures one { IfErr result (λ violation. (end : ℕ) → end ≡ given.now.end + 1 → (values : List OneGiven) → values ≡ map (given_of (types_of table.now)) given.now.values.items → TypedHave (Some (kind_of (types_of table.now) kind.entry)) names values end violation) }
{
    numbers_agree(given.values.len(), names, given.end)?;
    all_fit(table, kind, given.values.as_slice())
}

/// Checks what `names` variables of a type are given, if anything, with nodes from `first` on, and returns the number after them.
fn typed_right<'a>(
    alloc: Global,
    table: &TypeTable<'a>,
    visible: &Visible<'a>,
    names: usize,
    kind: ValueType<'a>,
    first: NodeId,
    right: &'a Option<Vec<ExpressionNode>>,
) -> Result<NodeId, Refusal>
    requires small { first + if_any (sum_by expression_size) (option_map right_of right.now) < 2 ^ 32 }
    ensures end { IfOk result (λ end. end ≡ first + if_any (sum_by expression_size) (option_map right_of right.now)) }
    ensures none { IfOk result (λ _. (violation : OneViolation) → ¬ (IfRightHas (globals_in table.now) (scope_of table.now visible.now) names (Some (kind_of (types_of table.now) kind.entry)) first (option_map right_of right.now) violation)) }
    ensures one { IfErr result (Refuses (IfRightHas (globals_in table.now) (scope_of table.now visible.now) names (Some (kind_of (types_of table.now) kind.entry)) first (option_map right_of right.now))) }
{
    match right {
        None => Ok(first),
        Some(right) => {
            let given = given_by(
                alloc,
                table,
                visible,
                names,
                first,
                Source::Right(right.as_slice()),
            )?;
            typed_given(table, kind, names, &given)?;
            Ok(given.end)
        }
    }
}

/// Declares a variable, unless its name is `_`.
fn declare_named<'a>(
    table: &TypeTable<'a>,
    visible: &mut Visible<'a>,
    kind: ValueType<'a>,
    name: &'a Name,
) -> Result<(), AllocError>
    ensures after { IfOk result (λ _. scope_of table.now visible.new ≡ declared_unless_blank (globals_in table.now).structs (scope_of table.now visible.old) (Some (kind_of (types_of table.now) kind.entry)) (name_of name.now)) }
    ensures kept { IfOk result (λ _. Keeps visible.old visible.new) }
{
    if is_blank(name.bytes.as_slice()) {
        return Ok(());
    }
    declare(table, visible, kind, name)
}

/// Declares variables of a type.
fn declare_all<'a>(
    table: &TypeTable<'a>,
    visible: &mut Visible<'a>,
    kind: ValueType<'a>,
    names: &'a [Name],
) -> Result<(), AllocError>
    ensures after { IfOk result (λ _. scope_of table.now visible.new ≡ with_variables (globals_in table.now) (scope_of table.now visible.old) (Some (kind_of (types_of table.now) kind.entry)) (map name_of names.now)) }
    ensures kept { IfOk result (λ _. Keeps visible.old visible.new) }
{
    let Some((name, rest)) = names.split_first() else {
        return Ok(());
    };
    declare_named(table, visible, kind, name)?;
    declare_all(table, visible, kind, rest)
}

/// Checks the names of a `var` without a type and what they are given, and declares them. The own node of the `var` is the one after what
/// is given.
fn declare_given<'a>(
    table: &TypeTable<'a>,
    visible: &mut Visible<'a>,
    names: &[&'a Name],
    given: &Given<'a>,
) -> Result<(), Refusal>
    ensures after { IfOk result (λ _. scope_of table.now visible.new ≡ with_defined (globals_in table.now) (scope_of table.now visible.old) (names_at names.now) (map (given_of (types_of table.now)) given.now.values.items)) }
    ensures kept { IfOk result (λ _. Keeps visible.old visible.new) }
    ensures none { IfOk result (λ _. (end : ℕ) → end ≡ given.now.end + 1 → (all : List (List ℕ)) → all ≡ names_at names.now → (values : List OneGiven) → values ≡ map (given_of (types_of table.now)) given.now.values.items → (violation : OneViolation) → ¬ (UntypedHave (scope_of table.now visible.old) all values end violation)) }
    ensures one { (end : ℕ) → end ≡ given.now.end + 1 → (all : List (List ℕ)) → all ≡ names_at names.now → (values : List OneGiven) → values ≡ map (given_of (types_of table.now)) given.now.values.items → IfErr result (Refuses (UntypedHave (scope_of table.now visible.old) all values end)) }
{
    numbers_agree(given.values.len(), names.len(), given.end)?;
    may_declare(table, visible, names, given.end)?;
    take_names(table, visible, names, given.values.as_slice())
}

/// Checks a `var` with a type, whose nodes have numbers from `first` on, and returns the number after them. Its variables
/// are then visible.
pub fn typed_variables<'a>(
    alloc: Global,
    table: &TypeTable<'a>,
    visible: &mut Visible<'a>,
    first: NodeId,
    names: &'a [Name],
    kind: &'a TypeNode,
    right: &'a Option<Vec<ExpressionNode>>,
) -> Result<NodeId, Refusal>
    requires small { first + type_size (type_of kind.now) + if_any (sum_by expression_size) (option_map right_of right.now) + 1 < 2 ^ 32 }
    ensures end { IfOk result (λ end. end ≡ first + type_size (type_of kind.now) + if_any (sum_by expression_size) (option_map right_of right.now) + 1) }
    ensures after { IfOk result (λ _. scope_of table.now visible.new ≡ with_variables (globals_in table.now) (scope_of table.now visible.old) (type_in (globals_in table.now).types (scope_of table.now visible.old) (type_of kind.now)) (map name_of names.now)) }
    ensures kept { IfOk result (λ _. Keeps visible.old visible.new) }
    ensures none { IfOk result (λ _. (violation : OneViolation) → ¬ (TypedVariablesHave (globals_in table.now) (scope_of table.now visible.old) first (map name_of names.now) (type_of kind.now) (option_map right_of right.now) violation)) }
    ensures one { IfErr result (Refuses (TypedVariablesHave (globals_in table.now) (scope_of table.now visible.old) first (map name_of names.now) (type_of kind.now) (option_map right_of right.now))) }
{
    let all = references(alloc, Names::All(names))?;
    let Some(known) = type_in(table, visible, kind) else {
        return Err(Refusal::Violated(Violation::Broken(Rule::Visible, first)));
    };
    let middle = first + type_size(kind);
    let node = typed_right(alloc, table, visible, names.len(), known, middle, right)?;
    may_declare(table, visible, all.as_slice(), node)?;
    declare_all(table, visible, known, names)?;
    Ok(node + 1)
}

/// Checks a `var` without a type, whose nodes have numbers from `first` on, and returns the number after them. Its
/// variables are then visible.
pub fn untyped_variables<'a>(
    alloc: Global,
    table: &TypeTable<'a>,
    visible: &mut Visible<'a>,
    first: NodeId,
    names: &'a [Name],
    right: &'a Vec<ExpressionNode>,
) -> Result<NodeId, Refusal>
    requires small { first + sum_by expression_size (right_of right.now) + 1 < 2 ^ 32 }
    ensures end { IfOk result (λ end. end ≡ first + sum_by expression_size (right_of right.now) + 1) }
    ensures after { IfOk result (λ _. scope_of table.now visible.new ≡ with_defined (globals_in table.now) (scope_of table.now visible.old) (map name_of names.now) (given (globals_in table.now) (scope_of table.now visible.old) (length (map name_of names.now)) 0 (right_of right.now))) }
    ensures kept { IfOk result (λ _. Keeps visible.old visible.new) }
    ensures none { IfOk result (λ _. (violation : OneViolation) → ¬ (UntypedVariablesHave (globals_in table.now) (scope_of table.now visible.old) first (map name_of names.now) (right_of right.now) violation)) }
    ensures one { IfErr result (Refuses (UntypedVariablesHave (globals_in table.now) (scope_of table.now visible.old) first (map name_of names.now) (right_of right.now))) }
{
    let all = references(alloc, Names::All(names))?;
    let given = given_by(
        alloc,
        table,
        visible,
        all.len(),
        first,
        Source::Right(right.as_slice()),
    )?;
    declare_given(table, visible, all.as_slice(), &given)?;
    Ok(given.end + 1)
}
