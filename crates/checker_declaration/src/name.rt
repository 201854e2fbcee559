//! The names of a file's declarations.

ghost use Rattle.std.specs.Prelude.{◌≡◌, ◌+◌, ◌++◌, ◌^◌, ◌<◌, ◌||◌, map, OnOk, IfOk};
ghost use Rattle.syntax.specs.Measures.{top_size};
ghost use Rattle.syntax.specs.View.{top_of};
ghost use Rattle.typing_rules.specs.Kinds.{type_name, type_names, function_name, function_names};
ghost use Rattle.typing_rules.specs.Declarations.{is_unfit, is_among, is_repeated, is_type_taken, is_function_taken};

use std::alloc::{AllocError, Global};
use syntax::size::top_size;
use syntax::{NodeId, TopNode};
use type_table::name_list::NameList;
use type_table::scope::{is_blank, is_reserved};

/// Whether this is a name that nothing of a file, and no field, has ("Blank identifier" of the Go specification).
pub(crate) fn is_unfit(name: &[u8]) -> bool
    ensures { result ≡ is_unfit name.now }
{
    is_reserved(name) || is_blank(name)
}

/// Whether a name is one of these.
pub(crate) fn is_among(names: &NameList<'_>, name: &[u8]) -> bool
    ensures { result ≡ is_among names.now name.now }
{
    names.number_of(name).is_some()
}

/// Whether the first of the names that equals `name` is not number `number`.
fn is_repeated(names: &NameList<'_>, number: usize, name: &[u8]) -> bool
    ensures { result ≡ is_repeated names.now number name.now }
{
    match names.number_of(name) {
        Some(first) => first != number,
        None => true,
    }
}

/// Whether struct type number `number` can't have the name. The types have these names.
pub(crate) fn is_type_taken(types: &NameList<'_>, number: usize, name: &[u8]) -> bool
    ensures { result ≡ is_type_taken types.now number name.now }
{
    is_unfit(name) || is_repeated(types, number, name)
}

/// Whether function number `number` can't have the name. The types and functions have these names.
pub(crate) fn is_function_taken(
    types: &NameList<'_>,
    functions: &NameList<'_>,
    number: usize,
    name: &[u8],
) -> bool
    ensures { result ≡ is_function_taken types.now functions.now number name.now }
{
    is_unfit(name) || is_among(types, name) || is_repeated(functions, number, name)
}

/// The own node of a declaration, whose nodes have numbers from `first` on.
pub fn own_node(first: NodeId, top: &TopNode) -> NodeId
    requires small { first + top_size (top_of top.now) < 2 ^ 32 }
    ensures { result + 1 ≡ first + top_size (top_of top.now) }
{
    first + top_size(top) - 1
}

/// Puts the name of a struct type at the end.
fn push_type<'a>(names: &mut NameList<'a>, top: &'a TopNode) -> Result<(), AllocError>
    ensures { OnOk result (names.new ≡ names.old ++ type_name (top_of top.now)) }
{
    match top {
        TopNode::Struct(one) => names.push(&one.name),
        TopNode::Function(_) => Ok(()),
    }
}

/// The names of a file's struct types.
pub(crate) fn type_names<'a>(alloc: Global, tops: &'a [TopNode]) -> Result<NameList<'a>, AllocError>
    ensures { IfOk result (λ names. names ≡ type_names (map top_of tops.now)) }
{
    let mut names = NameList::new(alloc);
    for top in tops {
        push_type(&mut names, top)?;
    }
    Ok(names)
}

/// Puts the name of a function at the end.
fn push_function<'a>(names: &mut NameList<'a>, top: &'a TopNode) -> Result<(), AllocError>
    ensures { OnOk result (names.new ≡ names.old ++ function_name (top_of top.now)) }
{
    match top {
        TopNode::Struct(_) => Ok(()),
        TopNode::Function(function) => names.push(&function.name),
    }
}

/// The names of a file's functions.
pub(crate) fn function_names<'a>(
    alloc: Global,
    tops: &'a [TopNode],
) -> Result<NameList<'a>, AllocError>
    ensures { IfOk result (λ names. names ≡ function_names (map top_of tops.now)) }
{
    let mut names = NameList::new(alloc);
    for top in tops {
        push_function(&mut names, top)?;
    }
    Ok(names)
}
