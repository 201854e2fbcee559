//! The names that a `:=` or a `var` declares ("Short variable declarations", "Variable declarations").

ghost use Rattle.std.specs.Prelude.{◌≡◌, ℕ, ◌+◌, ◌||◌, Some, None, option_map, length, map, false, true, Option, IfOk, IfErr};
ghost use Rattle.std.specs.Option.{is_none, is_some};
ghost use Rattle.std.specs.List.{list_any};
ghost use Rattle.syntax.specs.View.{name_of};
ghost use Rattle.typing_rules.specs.declared.violation.Violation.{Violation as OneViolation};
ghost use Rattle.type_table.specs.Scopes.{Variable as OneVariable, is_reserved, own_variable, declared};
ghost use Rattle.typing_rules.specs.Worths.{kind_of as variable_kind};
ghost use Rattle.typing_rules.specs.Operations.{GoesHas};
ghost use Rattle.typing_rules.specs.Simples.{is_declarable, has_name, has_twice, DefinedHave, VariablesHave, NamesFail, after_name, with_defined};
ghost use Rattle.typing_rules.specs.Expressions.{default_type};
ghost use Rattle.type_table.specs.Visible.{types_of, globals_in, variable_of, scope_of, Keeps};
ghost use Rattle.checker_base.specs.Views.{Refuses, worth_of};
ghost use Rattle.checker_simple.specs.Givens.{given_of};
ghost use Rattle.checker_simple.specs.Names.{names_at, names_in};

use crate::given::{fits, fits_any};
use checker_base::operand::Operand;
use checker_base::refusal::Refusal;
use go_text::Rule;
use std::alloc::{AllocError, Global};
use syntax::{Name, NodeId};
use type_table::scope::{Entry, Visible, declare, is_blank, is_reserved, own_variable};
use type_table::table::TypeTable;
use typing_rules::violation::Violation;

/// The names that a statement declares.
#[derive(Clone, Copy)]
pub(crate) enum Names<'a> {
    All(&'a [Name]),
    OneOrTwo(&'a Name, &'a Option<Name>),
}

/// The names in order, by reference.
pub(crate) fn references<'a>(alloc: Global, names: Names<'a>) -> Result<Vec<&'a Name>, AllocError>
    ensures { IfOk result (λ all. names_at all.items ≡ names_in names.entry) }
{
    let mut all = Vec::new(alloc);
    match names {
        Names::All(names) => {
            for name in names {
                all.push(name)?;
            }
        }
        Names::OneOrTwo(one, other) => {
            all.push(one)?;
            if let Some(other) = other {
                all.push(other)?;
            }
        }
    }
    Ok(all)
}

/// Whether one of these names is this one.
fn has_name(names: &[&Name], name: &[u8]) -> bool
    ensures { result ≡ has_name (names_at names.now) name.now }
{
    let Some((one, rest)) = names.split_first() else {
        return false;
    };
    name == one.bytes.as_slice() || has_name(rest, name)
}

/// Whether two of these names are equal and not `_`.
fn has_twice(names: &[&Name]) -> bool
    ensures { result ≡ has_twice (names_at names.now) }
{
    let Some((one, rest)) = names.split_first() else {
        return false;
    };
    let name = one.bytes.as_slice();
    (!is_blank(name) && has_name(rest, name)) || has_twice(rest)
}

/// Whether one of these names is never declared.
fn any_reserved(names: &[&Name]) -> bool
    ensures { result ≡ list_any is_reserved (names_at names.now) }
{
    let Some((one, rest)) = names.split_first() else {
        return false;
    };
    is_reserved(one.bytes.as_slice()) || any_reserved(rest)
}

/// Whether a name is new in its block, and not `_`.
pub(crate) fn is_declarable(table: &TypeTable<'_>, visible: &Visible<'_>, name: &[u8]) -> bool
    ensures { result ≡ is_declarable (scope_of table.now visible.now) name.now }
{
    !is_blank(name) && own_variable(table, visible, name).is_none()
}

/// Whether one of these names is new in its block, and not `_`.
fn any_declarable<'a>(table: &TypeTable<'a>, visible: &Visible<'a>, names: &[&Name]) -> bool
    ensures { result ≡ list_any (is_declarable (scope_of table.now visible.now)) (names_at names.now) }
{
    let Some((one, rest)) = names.split_first() else {
        return false;
    };
    is_declarable(table, visible, one.bytes.as_slice()) || any_declarable(table, visible, rest)
}

/// Whether one of these names is declared in the innermost block.
fn any_own<'a>(table: &TypeTable<'a>, visible: &Visible<'a>, names: &[&Name]) -> bool
    ensures { result ≡ list_any (λ name. is_some (own_variable (scope_of table.now visible.now) name)) (names_at names.now) }
{
    let Some((one, rest)) = names.split_first() else {
        return false;
    };
    own_variable(table, visible, one.bytes.as_slice()).is_some() || any_own(table, visible, rest)
}

/// Checks the names of a `:=`, whose own node is `node`.
pub(crate) fn may_define(
    table: &TypeTable<'_>,
    visible: &Visible<'_>,
    names: &[&Name],
    node: NodeId,
) -> Result<(), Violation>
    ensures once { IfOk result (λ _. has_twice (names_at names.now) ≡ false) }
    ensures none { IfOk result (λ _. (end : ℕ) → end ≡ node + 1 → (violation : OneViolation) → ¬ (DefinedHave (scope_of table.now visible.now) (names_at names.now) end violation)) }
    ensures one { IfErr result (λ violation. (end : ℕ) → end ≡ node + 1 → DefinedHave (scope_of table.now visible.now) (names_at names.now) end violation) }
{
    if any_reserved(names) {
        return Err(Violation::Broken(Rule::Declared, node));
    }
    if has_twice(names) || !any_declarable(table, visible, names) {
        return Err(Violation::Broken(Rule::NewName, node));
    }
    Ok(())
}

/// Checks the names of a `var`, whose own node is `node`.
pub(crate) fn may_declare(
    table: &TypeTable<'_>,
    visible: &Visible<'_>,
    names: &[&Name],
    node: NodeId,
) -> Result<(), Violation>
    ensures once { IfOk result (λ _. has_twice (names_at names.now) ≡ false) }
    ensures none { IfOk result (λ _. (end : ℕ) → end ≡ node + 1 → (violation : OneViolation) → ¬ (VariablesHave (scope_of table.now visible.now) (names_at names.now) end violation)) }
    ensures one { IfErr result (λ violation. (end : ℕ) → end ≡ node + 1 → VariablesHave (scope_of table.now visible.now) (names_at names.now) end violation) }
{
    if any_reserved(names) || has_twice(names) || any_own(table, visible, names) {
        return Err(Violation::Broken(Rule::Declared, node));
    }
    Ok(())
}

/// The variable of this name that was declared in the innermost block.
fn own_named<'a>(table: &TypeTable<'a>, visible: &Visible<'a>, name: &Name) -> Option<Entry<'a>>
    ensures { own_variable (scope_of table.now visible.now) (name_of name.now) ≡ option_map (variable_of (types_of table.now)) result }
{
    own_variable(table, visible, name.bytes.as_slice())
}

/// Checks that a value goes to a variable that there is, or to one that takes its type.
fn own_takes<'a>(
    table: &TypeTable<'a>,
    own: Option<Entry<'a>>,
    operand: Operand<'a>,
) -> Result<(), Violation>
    ensures none { IfOk result (λ _. (o : Option OneVariable) → o ≡ option_map (variable_of (types_of table.now)) own.entry → (violation : OneViolation) → ¬ (GoesHas (is_none o) (given_of (types_of table.now) operand.entry) (variable_kind o) violation)) }
    ensures one { IfErr result (λ violation. (o : Option OneVariable) → o ≡ option_map (variable_of (types_of table.now)) own.entry → GoesHas (is_none o) (given_of (types_of table.now) operand.entry) (variable_kind o) violation) }
{
    match own {
        Some(entry) => fits(table, Some(entry.kind), operand),
        None => {
            fits_any(operand)?;
            Ok(())
        }
    }
}

/// Checks that a value goes to a name of a declaration.
fn name_takes<'a>(
    table: &TypeTable<'a>,
    visible: &Visible<'a>,
    name: &Name,
    operand: Operand<'a>,
) -> Result<(), Violation>
    ensures none { IfOk result (λ _. (violation : OneViolation) → ¬ (GoesHas (is_none (own_variable (scope_of table.now visible.now) (name_of name.now))) (given_of (types_of table.now) operand.entry) (variable_kind (own_variable (scope_of table.now visible.now) (name_of name.now))) violation)) }
    ensures one { IfErr result (GoesHas (is_none (own_variable (scope_of table.now visible.now) (name_of name.now))) (given_of (types_of table.now) operand.entry) (variable_kind (own_variable (scope_of table.now visible.now) (name_of name.now)))) }
{
    let own = own_named(table, visible, name);
    own_takes(table, own, operand)
}

/// Checks that a value goes to a name that is new in its block, and declares it.
#[tactic(auto, using(crate::proofs::Declaring::free_names))]
fn define<'a>(
    table: &TypeTable<'a>,
    visible: &mut Visible<'a>,
    name: &'a Name,
    operand: Operand<'a>,
) -> Result<(), Refusal>
    requires new { is_declarable (scope_of table.now visible.old) (name_of name.now) ≡ true }
    ensures after { IfOk result (λ _. scope_of table.now visible.new ≡ declared (globals_in table.now).structs (scope_of table.now visible.old) (default_type (Some (worth_of (types_of table.now) operand.entry.worth))) (name_of name.now)) }
    ensures kept { IfOk result (λ _. Keeps visible.old visible.new) }
    ensures none { IfOk result (λ _. (violation : OneViolation) → ¬ (GoesHas true (given_of (types_of table.now) operand.entry) (variable_kind (own_variable (scope_of table.now visible.old) (name_of name.now))) violation)) }
    ensures one { IfErr result (Refuses (GoesHas true (given_of (types_of table.now) operand.entry) (variable_kind (own_variable (scope_of table.now visible.old) (name_of name.now))))) }
{
    let kind = fits_any(operand)?;
    declare(table, visible, kind, name)?;
    Ok(())
}

/// Checks that a value is assignable to a name of a declaration, and declares the name if it is new in its block and not `_`.
fn take_name<'a>(
    table: &TypeTable<'a>,
    visible: &mut Visible<'a>,
    name: &'a Name,
    operand: Operand<'a>,
) -> Result<(), Refusal>
    ensures after { IfOk result (λ _. scope_of table.now visible.new ≡ after_name (globals_in table.now) (scope_of table.now visible.old) (name_of name.now) (default_type (Some (worth_of (types_of table.now) operand.entry.worth)))) }
    ensures kept { IfOk result (λ _. Keeps visible.old visible.new) }
    ensures none { IfOk result (λ _. (violation : OneViolation) → ¬ (GoesHas (is_none (own_variable (scope_of table.now visible.old) (name_of name.now))) (given_of (types_of table.now) operand.entry) (variable_kind (own_variable (scope_of table.now visible.old) (name_of name.now))) violation)) }
    ensures one { IfErr result (Refuses (GoesHas (is_none (own_variable (scope_of table.now visible.old) (name_of name.now))) (given_of (types_of table.now) operand.entry) (variable_kind (own_variable (scope_of table.now visible.old) (name_of name.now))))) }
{
    if is_declarable(table, visible, name.bytes.as_slice()) {
        define(table, visible, name, operand)
    } else {
        name_takes(table, visible, name, operand)?;
        Ok(())
    }
}

/// Checks that values go to the names of a declaration, and declares those that are new in their block, and not `_`.
pub(crate) fn take_names<'a>(
    table: &TypeTable<'a>,
    visible: &mut Visible<'a>,
    names: &[&'a Name],
    values: &[Operand<'a>],
) -> Result<(), Refusal>
    requires numbers { length names.now ≡ length values.now }
    requires once { has_twice (names_at names.now) ≡ false }
    ensures after { IfOk result (λ _. scope_of table.now visible.new ≡ with_defined (globals_in table.now) (scope_of table.now visible.old) (names_at names.now) (map (given_of (types_of table.now)) values.now)) }
    ensures kept { IfOk result (λ _. Keeps visible.old visible.new) }
    ensures none { IfOk result (λ _. (violation : OneViolation) → ¬ (NamesFail (scope_of table.now visible.old) (names_at names.now) (map (given_of (types_of table.now)) values.now) violation)) }
    ensures one { IfErr result (Refuses (NamesFail (scope_of table.now visible.old) (names_at names.now) (map (given_of (types_of table.now)) values.now))) }
{
    let Some((name, rest)) = names.split_first() else {
        return Ok(());
    };
    let Some((operand, others)) = values.split_first() else {
        return Ok(());
    };
    take_name(table, visible, name, *operand)?;
    take_names(table, visible, rest, others)
}
