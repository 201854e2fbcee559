//! The fields of all struct types, even if something is wrong with them.

ghost use Rattle.std.specs.Prelude.{◌≡◌, ◌++◌, map, option_copied, slice_get, OnOk, IfOk};
ghost use Rattle.syntax.specs.View.{declared_of, struct_of, top_of};
ghost use Rattle.type_table.specs.Scopes.{nothing_declared, type_in};
ghost use Rattle.typing_rules.specs.Kinds.{all_fields, fields_declared, struct_in, structs_with};
ghost use Rattle.checker_declaration.specs.Parts.{part_in, fields_in, structs_in};

use std::alloc::{AllocError, Global};
use syntax::{DeclaredNode, Name, TopNode};
use type_table::name_list::NameList;
use type_table::value_type::{ValueType, global_type_in};

/// A field of a struct type, with its type, if that is known.
#[derive(Clone, Copy)]
pub struct Part<'a> {
    pub name: &'a Name,
    pub kind: Option<ValueType<'a>>,
}

/// The fields of a struct type, in order.
#[derive(Drop)]
pub struct Parts<'a> {
    pub fields: Vec<Part<'a>>,
}

/// Puts fields that are declared together at the end.
fn push_group<'a>(
    types: &NameList<'_>,
    fields: &mut Vec<Part<'a>>,
    group: &'a DeclaredNode,
) -> Result<(), AllocError>
    ensures { OnOk result (fields_in types.now fields.new.items ≡ fields_in types.now fields.old.items ++ all_fields (type_in types.now nothing_declared (declared_of group.now).type_expression) (declared_of group.now).names) }
{
    let kind = global_type_in(types, &group.type_node);
    for name in group.names.as_slice() {
        fields.push(Part { name, kind })?;
    }
    Ok(())
}

/// The fields of a struct type. The struct types have these names.
fn part_list<'a>(
    alloc: Global,
    types: &NameList<'_>,
    groups: &'a [DeclaredNode],
) -> Result<Vec<Part<'a>>, AllocError>
    ensures { IfOk result (λ fields. fields_in types.now fields.items ≡ fields_declared types.now (map declared_of groups.now)) }
{
    let mut fields = Vec::new(alloc);
    for group in groups {
        push_group(types, &mut fields, group)?;
    }
    Ok(fields)
}

/// Puts a struct type, if this is one, at the end.
fn push_struct<'a>(
    alloc: Global,
    types: &NameList<'_>,
    all: &mut Vec<Parts<'a>>,
    top: &'a TopNode,
) -> Result<(), AllocError>
    ensures { OnOk result (structs_in types.now all.new.items ≡ structs_in types.now all.old.items ++ struct_in types.now (top_of top.now)) }
{
    match top {
        TopNode::Struct(one) => {
            let fields = part_list(alloc, types, one.fields.as_slice())?;
            all.push(Parts { fields })?;
            Ok(())
        }
        TopNode::Function(_) => Ok(()),
    }
}

/// The fields of all struct types of a file. These have these names.
pub(crate) fn all_parts<'a>(
    alloc: Global,
    types: &NameList<'_>,
    tops: &'a [TopNode],
) -> Result<Vec<Parts<'a>>, AllocError>
    ensures { IfOk result (λ all. structs_in types.now all.items ≡ structs_with types.now (map top_of tops.now)) }
{
    let mut all = Vec::new(alloc);
    for top in tops {
        push_struct(alloc, types, &mut all, top)?;
    }
    Ok(all)
}

/// The struct type with this number.
pub(crate) fn parts_at<'p, 'a>(all: &'p [Parts<'a>], number: usize) -> Option<&'p Parts<'a>>
    ensures { option_copied result ≡ slice_get all.now number }
{
    all.get(number)
}
