//! Operands: names, fields, zeros, and constants that are used as values.

ghost use Rattle.std.specs.Prelude.{◌≡◌, ◌++◌, ◌∷◌, [], ◌<◌, ◌≤◌, ◌^◌, IfErr, IfOk, IsSomeAnd, OnOk, map, option_map};
ghost use Rattle.type_table.specs.Scopes.{variable_named};
ghost use Rattle.type_table.specs.Views.{field_in, kind_of};
ghost use Rattle.type_table.specs.Visible.{globals_in, types_of};
ghost use Rattle.checker_base.specs.Views.{worth_of};
ghost use Rattle.codegen_base.specs.Elements.{kinds_of};
ghost use Rattle.codegen_base.specs.Pushes.{elements_shape, kinds_in, literal_types, named, words_of, zero_instr};
ghost use Rattle.codegen_expression.specs.Emission.{kind_in, settling};
ghost use Rattle.codegen_expression.specs.Contexts.{elements_of, globals_of, scope_in, types_in, worth_in};

use crate::context::Context;
use crate::operator::wrapped;
use crate::shape::{put_kinds, shape_of};
use bytecode::{Instr, WordKind};
use checker_base::worth::Worth;
use std::alloc::AllocError;
use type_table::entry::FieldEntry;
use type_table::scope::{Visible, is_truth, variable_named};
use type_table::table::TypeTable;
use type_table::value_type::{ValueType, element_in};

/// A number of the code.
///
/// Errors: it is 2^32 or larger, which counts as out of memory.
pub fn number(wide: usize) -> Result<u32, AllocError>
    ensures fits { IfOk result (λ narrow. narrow ≡ wide) }
    ensures small { IfOk result (λ _. wide < 2 ^ 32) }
    ensures large { IfErr result (λ _. 2 ^ 32 ≤ wide) }
{
    match u32::try_from(wide) {
        Ok(narrow) => Ok(narrow),
        Err(_) => Err(AllocError),
    }
}

/// Puts an instruction after the others.
pub fn put(code: &mut Vec<Instr>, instr: Instr) -> Result<(), AllocError>
    ensures { OnOk result (code.new.items ≡ code.old.items ++ instr ∷ []) }
{
    code.push(instr)?;
    Ok(())
}

/// How many words a value takes.
pub fn words_of<'k>(context: &Context<'_, 'k>, kind: ValueType<'k>) -> u32
    ensures { (scope : _) → result ≡ words_of (globals_of context.now) (elements_of context.now) scope (kind_of (types_in context.now) kind.entry) }
{
    type_table::layout::words_of(context.table, kind) as u32
}

/// The number of the shape of what a channel of this type carries.
pub(crate) fn carried_shape<'k>(context: &Context<'_, 'k>, kind: ValueType<'k>) -> u32
    ensures { result ≡ elements_shape (elements_of context.now) (kind_of (types_in context.now) kind.entry) }
{
    match kind {
        ValueType::Channel(_, carried) => shape_of(context, element_in(context.table, carried)),
        _ => shape_of(context, ValueType::Int),
    }
}

/// The zero of a word of this kind.
fn zero_instr(kind: WordKind) -> Instr
    ensures { result ≡ zero_instr kind }
{
    match kind {
        WordKind::Int => Instr::Int(0),
        WordKind::Bool => Instr::Bool(false),
        WordKind::Chan(shape) => Instr::Nil(shape),
    }
}

/// Pushes the zero value of a type.
pub fn push_zeros<'t>(
    context: &Context<'_, 't>,
    kind: ValueType<'t>,
    code: &mut Vec<Instr>,
) -> Result<(), AllocError>
    ensures { OnOk result (code.new.items ≡ code.old.items ++ map zero_instr (kinds_of (globals_of context.now).structs (elements_of context.now) (kind_of (types_in context.now) kind.entry))) }
{
    let mut kinds = Vec::new(context.alloc);
    put_kinds(context, kind, &mut kinds)?;
    for kind in kinds.iter() {
        code.push(zero_instr(*kind))?;
    }
    Ok(())
}

/// The instruction that pushes the value of a name.
///
/// Errors: the index of its variable's first local is 2^32 or more.
pub(crate) fn named<'k>(
    context: &Context<'_, 'k>,
    visible: &Visible<'k>,
    name: &[u8],
) -> Result<Instr, AllocError>
    ensures instr { IfOk result (λ i. i ≡ named (globals_of context.now) (elements_of context.now) (scope_in context.now visible.now) name.now) }
    ensures far { IfErr result (λ _. IsSomeAnd (variable_named (scope_in context.now visible.now) name.now) (λ v. 2 ^ 32 ≤ v.place)) }
{
    if is_truth(name) {
        return Ok(Instr::Bool(name == b"true".as_slice()));
    }
    match variable_named(context.table, visible, name) {
        Some(entry) => {
            let place = number(entry.place)?;
            Ok(Instr::Load(place, words_of(context, entry.kind)))
        }
        None => Ok(Instr::Load(0, 0)),
    }
}

/// The fields of a value of this type.
pub(crate) fn fields_of<'a, 't>(
    table: &'a TypeTable<'t>,
    kind: ValueType<'t>,
) -> &'a [FieldEntry<'t>]
    ensures { (elements : _) (scope : _) → kinds_in (map (field_in (types_of table.now)) result.now) ≡ literal_types (globals_in table.now) elements scope (kind_of (types_of table.now) kind.entry) }
{
    match kind {
        ValueType::Struct(number) if number < table.structs.len() => {
            table.structs[number].fields.as_slice()
        }
        _ => &[],
    }
}

/// The type of an operand; of what has none, an int.
pub fn kind_in<'t>(operand: Option<Worth<'t>>) -> ValueType<'t>
    ensures { (types : _) → kind_of types result ≡ kind_in (option_map (worth_of types) operand.entry) }
{
    match operand {
        Some(Worth::Typed(kind)) => kind,
        _ => ValueType::Int,
    }
}

/// Uses an operand as a value of this type: if it is a constant, or `nil`, that is pushed instead of its own
/// instructions, which begin at `first`.
///
/// Errors: out of memory.
pub fn settle<'k>(
    context: &Context<'_, 'k>,
    operand: Option<Worth<'k>>,
    kind: ValueType<'k>,
    first: usize,
    code: &mut Vec<Instr>,
) -> Result<(), AllocError>
    ensures { OnOk result (code.new.items ≡ settling (elements_of context.now) (worth_in context.now operand.entry) (kind_of (types_in context.now) kind.entry) first code.old.items) }
{
    match operand {
        Some(Worth::Constant(value)) => {
            code.truncate(first);
            put(code, Instr::Int(wrapped(value)))
        }
        Some(Worth::Nil) => {
            code.truncate(first);
            put(code, Instr::Nil(carried_shape(context, kind)))
        }
        Some(Worth::Typed(_)) | None => Ok(()),
    }
}
