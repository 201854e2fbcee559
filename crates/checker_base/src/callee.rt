//! What is called ("Calls" of the Go specification).

ghost use Rattle.std.specs.Prelude.{◌≡◌, map};
ghost use Rattle.type_table.specs.Views.{yield_of};
ghost use Rattle.type_table.specs.Visible.{types_of, globals_in, scope_of};
ghost use Rattle.typing_rules.specs.Calls.{callee, is_other, parameters_of, result_of};
ghost use Rattle.checker_base.specs.Views.{callee_of, known_kind};

use syntax::NodeId;
use type_table::layout::{function_number, number_of};
use type_table::scope::{Visible, is_reserved, variable_named};
use type_table::table::TypeTable;
use type_table::value_type::ValueType;

/// A call that was checked: its own node, and the number of the function.
#[derive(Clone, Copy)]
pub struct CheckedCall {
    pub node: NodeId,
    pub function: usize,
}

/// What the name in a call stands for.
#[derive(Clone, Copy)]
pub(crate) enum Callee {
    /// Nothing of this name is declared.
    NotDeclared,
    /// A variable, a type or a value.
    NoFunction,
    /// The function with this number.
    Function(usize),
}

/// Whether a name stands for a variable, a type or a value.
fn is_other(table: &TypeTable<'_>, visible: &Visible<'_>, name: &[u8]) -> bool
    ensures { result ≡ is_other (globals_in table.now) (scope_of table.now visible.now) name.now }
{
    variable_named(table, visible, name).is_some()
        || number_of(table, name).is_some()
        || (is_reserved(name) && name != b"init".as_slice())
}

/// What the name in a call stands for.
pub(crate) fn callee_named(table: &TypeTable<'_>, visible: &Visible<'_>, name: &[u8]) -> Callee
    ensures { callee_of result ≡ callee (globals_in table.now) (scope_of table.now visible.now) name.now }
{
    if is_other(table, visible, name) {
        return Callee::NoFunction;
    }
    match function_number(table, name) {
        Some(number) => Callee::Function(number),
        None => Callee::NotDeclared,
    }
}

/// The types of the parameters of the function with this number.
pub(crate) fn parameters_of<'t, 'a>(table: &'t TypeTable<'a>, number: usize) -> &'t [ValueType<'a>]
    ensures { map (known_kind (types_of table.now)) result.now ≡ parameters_of (globals_in table.now) number }
{
    if number < table.functions.len() {
        table.functions[number].parameters.as_slice()
    } else {
        &[]
    }
}

/// The type of the result of the function with this number, if it has one.
pub fn result_of<'a>(table: &TypeTable<'a>, number: usize) -> Option<ValueType<'a>>
    ensures { yield_of (types_of table.now) result ≡ result_of (globals_in table.now) number }
{
    match table.functions.get(number) {
        Some(function) => function.result,
        None => None,
    }
}
