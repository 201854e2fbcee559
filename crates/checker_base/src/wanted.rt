//! The types that the values of a composite literal or a call must have.

ghost use Rattle.std.specs.Prelude.{◌≡◌, ℕ, ◌+◌, List, map, length, slice_get, option_copied, option_map, Option, Some, None, IfSome};
ghost use Rattle.type_table.specs.Views.{kind_of};
ghost use Rattle.type_table.specs.Visible.{types_of};
ghost use Rattle.typing_rules.specs.Violations.{Nodes};
ghost use Rattle.typing_rules.specs.Worths.{Worth as OneWorth};
ghost use Rattle.typing_rules.specs.Expressions.{ValueHas};
ghost use Rattle.checker_base.specs.Views.{worth_of, kinds_in, kind_at, Tells};

use crate::operand::Operand;
use crate::value::value;
use type_table::entry::FieldEntry;
use type_table::table::TypeTable;
use type_table::value_type::ValueType;
use typing_rules::violation::Violation;

/// The types that values must have, in order.
#[derive(Clone, Copy)]
pub(crate) enum Wanted<'w> {
    /// The types of a struct's fields.
    Fields(&'w [FieldEntry<'w>]),
    /// The types of a function's parameters.
    Parameters(&'w [ValueType<'w>]),
}

/// The field with this number, if there is one.
fn field_at<'f>(fields: &'f [FieldEntry<'f>], number: usize) -> Option<&'f FieldEntry<'f>>
    ensures { option_copied result ≡ slice_get fields.now number }
{
    fields.get(number)
}

/// The type of the parameter with this number, if there is one.
fn parameter_at<'k>(kinds: &[ValueType<'k>], number: usize) -> Option<ValueType<'k>>
    ensures { result ≡ slice_get kinds.now number }
{
    kinds.get(number).copied()
}

impl<'w> Wanted<'w> {
    /// How many types there are.
    pub(crate) fn count(self) -> usize
        ensures { (types : List (List ℕ)) → result ≡ length (kinds_in types self.entry) }
    {
        match self {
            Wanted::Fields(fields) => fields.len(),
            Wanted::Parameters(kinds) => kinds.len(),
        }
    }

    /// The type with this number, if there is one.
    pub(crate) fn kind_at(self, number: usize) -> Option<ValueType<'w>>
        ensures { (types : List (List ℕ)) → option_map (kind_of types) result ≡ kind_at (kinds_in types self.entry) number }
    {
        match self {
            Wanted::Fields(fields) => match field_at(fields, number) {
                Some(field) => Some(field.kind),
                None => None,
            },
            Wanted::Parameters(kinds) => parameter_at(kinds, number),
        }
    }
}

/// What is wrong with a value that is used as this type, if a type is given.
fn misfit_in(
    table: &TypeTable<'_>,
    operand: Operand<'_>,
    kind: Option<ValueType<'_>>,
) -> Option<Violation>
    ensures { (w : Option OneWorth) → w ≡ Some (worth_of (types_of table.now) operand.entry.worth) → (nodes : Nodes) → nodes.first ≡ operand.entry.first → nodes.end ≡ operand.entry.node + 1 → Tells (ValueHas w (option_map (kind_of (types_of table.now)) kind.entry) nodes) result }
{
    match kind {
        Some(kind) => match value(table, operand, kind) {
            Ok(()) => None,
            Err(violation) => Some(violation),
        },
        None => None,
    }
}

/// What is known to be wrong already, else what is wrong with a value that is used as this type.
pub(crate) fn first_misfit(
    table: &TypeTable<'_>,
    known: Option<Violation>,
    operand: Operand<'_>,
    kind: Option<ValueType<'_>>,
) -> Option<Violation>
    ensures known { IfSome known (λ violation. result ≡ Some violation) }
    ensures new { known ≡ None → (w : Option OneWorth) → w ≡ Some (worth_of (types_of table.now) operand.entry.worth) → (nodes : Nodes) → nodes.first ≡ operand.entry.first → nodes.end ≡ operand.entry.node + 1 → Tells (ValueHas w (option_map (kind_of (types_of table.now)) kind.entry) nodes) result }
{
    match known {
        Some(violation) => Some(violation),
        None => misfit_in(table, operand, kind),
    }
}
