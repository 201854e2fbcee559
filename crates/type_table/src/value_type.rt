//! Types of values, which refer to the tree.

ghost use Rattle.std.specs.Prelude.{◌≡◌, ℕ, ◌≤◌, IfSome, option_map};
ghost use Rattle.syntax.specs.Measures.{type_size};
ghost use Rattle.syntax.specs.View.{type_of};
ghost use Rattle.type_table.specs.Types.{same_direction, identical, assignable};
ghost use Rattle.type_table.specs.Scopes.{nothing_declared, type_named, type_in};
ghost use Rattle.type_table.specs.Views.{kind_of, kind_size, written_type};
ghost use Rattle.type_table.specs.Visible.{types_of, scope_of};

use crate::name_list::NameList;
use crate::scope::{Visible, variable_named};
use crate::table::TypeTable;
use syntax::{Direction, TypeNode};

/// The type of a value ("Types" of the Go specification).
#[derive(Clone, Copy)]
pub enum ValueType<'a> {
    Int,
    Bool,
    /// The struct that the type declaration with this number made.
    Struct(usize),
    /// A channel: its direction, and the type of its elements as it is written.
    Channel(Direction, &'a TypeNode),
}

impl Default for ValueType<'_> {
    /// The type `int`.
    fn default() -> Self
        ensures { result ≡ ValueType.Int }
    {
        ValueType::Int
    }
}

/// The type of this name, if it is one's and no variable hides it.
fn type_named<'a>(types: &NameList<'_>, name: &[u8]) -> Option<ValueType<'a>>
    ensures { option_map (kind_of types.now) result ≡ type_named types.now nothing_declared name.now }
{
    if name == b"int".as_slice() {
        Some(ValueType::Int)
    } else if name == b"bool".as_slice() {
        Some(ValueType::Bool)
    } else {
        match types.number_of(name) {
            Some(number) => Some(ValueType::Struct(number)),
            None => None,
        }
    }
}

/// The type that is written outside the scope of all variables, as in the declarations of a file: `None` if a name in it
/// is no type's.
#[tactic(auto, using(crate::proofs::Written::channel_written))]
pub fn global_type_in<'a>(types: &NameList<'_>, kind: &'a TypeNode) -> Option<ValueType<'a>>
    ensures { option_map (kind_of types.now) result ≡ type_in types.now nothing_declared (type_of kind.now) }
{
    match kind {
        TypeNode::Named(name) => type_named(types, name.bytes.as_slice()),
        TypeNode::Parenthesized(inner) => global_type_in(types, inner),
        TypeNode::Channel(direction, element) => match global_type_in(types, element) {
            Some(_) => Some(ValueType::Channel(*direction, element)),
            None => None,
        },
    }
}

/// The type that is written among visible variables: `None` if a name in it is no type's.
#[tactic(auto, using(crate::proofs::Written::channel_written))]
pub fn type_in<'a>(
    table: &TypeTable<'a>,
    visible: &Visible<'a>,
    kind: &'a TypeNode,
) -> Option<ValueType<'a>>
    ensures { option_map (kind_of (types_of table.now)) result ≡ type_in (types_of table.now) (scope_of table.now visible.now) (type_of kind.now) }
{
    match kind {
        TypeNode::Named(name) => {
            let bytes = name.bytes.as_slice();
            match variable_named(table, visible, bytes) {
                Some(_) => None,
                None => type_named(table.types(), bytes),
            }
        }
        TypeNode::Parenthesized(inner) => type_in(table, visible, inner),
        TypeNode::Channel(direction, element) => match type_in(table, visible, element) {
            Some(_) => Some(ValueType::Channel(*direction, element)),
            None => None,
        },
    }
}

/// The type of a channel's elements.
pub fn element_in<'a>(table: &TypeTable<'_>, element: &'a TypeNode) -> ValueType<'a>
    ensures kind { kind_of (types_of table.now) result ≡ written_type (types_of table.now) (type_of element.now) }
    ensures size { kind_size result ≤ type_size (type_of element.now) }
{
    match element {
        TypeNode::Named(name) => match type_named(table.types(), name.bytes.as_slice()) {
            Some(kind) => kind,
            None => ValueType::Int,
        },
        TypeNode::Parenthesized(inner) => element_in(table, inner),
        TypeNode::Channel(direction, inner) => ValueType::Channel(*direction, inner),
    }
}

/// Whether two directions are equal.
fn same_direction(one: Direction, other: Direction) -> bool
    ensures { result ≡ same_direction one other }
{
    match (one, other) {
        (Direction::Both, Direction::Both)
        | (Direction::Send, Direction::Send)
        | (Direction::Receive, Direction::Receive) => true,
        _ => false,
    }
}

/// Whether two types are identical ("Type identity").
pub fn identical(table: &TypeTable<'_>, one: ValueType<'_>, other: ValueType<'_>) -> bool
    ensures { result ≡ identical (kind_of (types_of table.now) one.entry) (kind_of (types_of table.now) other.entry) }
{
    match (one, other) {
        (ValueType::Int, ValueType::Int) | (ValueType::Bool, ValueType::Bool) => true,
        (ValueType::Struct(m), ValueType::Struct(n)) => m == n,
        (ValueType::Channel(d, s), ValueType::Channel(e, t)) => {
            same_direction(d, e) && identical(table, element_in(table, s), element_in(table, t))
        }
        _ => false,
    }
}

/// Whether a value of the first type is assignable to the second one ("Assignability").
pub fn assignable(table: &TypeTable<'_>, one: ValueType<'_>, other: ValueType<'_>) -> bool
    ensures { result ≡ assignable (kind_of (types_of table.now) one.entry) (kind_of (types_of table.now) other.entry) }
{
    match (one, other) {
        (ValueType::Channel(Direction::Both, s), ValueType::Channel(_, t)) => {
            identical(table, element_in(table, s), element_in(table, t))
        }
        _ => identical(table, one, other),
    }
}
