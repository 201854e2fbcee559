//! Functions at their beginning.

ghost use Rattle.std.specs.Prelude.{◌≡◌, ◌++◌, [], ℕ, List, IfOk, OnOk, Some, map, option_map, slice_get};
ghost use Rattle.syntax.specs.View.{declared_of, file_of, function_of, name_of, top_of};
ghost use Rattle.type_table.specs.Views.{kind_of};
ghost use Rattle.type_table.specs.Visible.{globals_in, types_of};
ghost use Rattle.typing_rules.specs.Kinds.{all_fields, fields_declared};
ghost use Rattle.meaning.specs.Destinations.{functions_in};
ghost use Rattle.meaning.specs.Source.{bound, entered_with, functions, parameters_of};
ghost use Rattle.meaning.specs.Variables.{declare, entered, holding};
ghost use Rattle.reference_scope.specs.Scopes.{blocks_of};
ghost use Rattle.reference_scope.specs.Parts.{values_of};
ghost use Rattle.reference_task.specs.Tasks.{frame_of};
ghost use Rattle.reference.specs.Calls.{parameters_in, settled};

use reference_scope::place::holding;
use reference_scope::scope::Scope;
use reference_scope::words::with_first;
use reference_task::program::Program;
use reference_task::task::{Frame, Position};
use reference_value::callee::written_kind;
use std::alloc::{AllocError, Global};
use syntax::{DeclaredNode, FunctionNode, Name, TopNode};
use type_table::table::TypeTable;
use type_table::value_type::ValueType;
use word::value::Word;

/// A parameter of a function.
#[derive(Clone, Copy)]
pub(crate) struct Parameter<'t> {
    pub(crate) name: &'t [u8],
    pub(crate) kind: ValueType<'t>,
}

/// Parameters of one type, followed by `rest`.
fn before<'t>(
    names: &'t [Name],
    kind: ValueType<'t>,
    rest: Vec<Parameter<'t>>,
) -> Result<Vec<Parameter<'t>>, AllocError>
    ensures { (types : List (List ℕ)) → IfOk result (λ v. parameters_in types v.items ≡ all_fields (Some (kind_of types kind.entry)) (map name_of names.now) ++ parameters_in types rest.entry.items) }
{
    let Some((name, names)) = names.split_first() else {
        return Ok(rest);
    };
    let others = before(names, kind, rest)?;
    let name = name.bytes.as_slice();
    with_first(Parameter { name, kind }, others)
}

/// The parameters that are declared so, each of its own.
#[tactic(auto, using(crate::proofs::Calls::settled_fields))]
pub(crate) fn parameters<'a, 't>(
    alloc: Global,
    table: &'a TypeTable<'t>,
    groups: &'t [DeclaredNode],
) -> Result<Vec<Parameter<'t>>, AllocError>
    ensures { IfOk result (λ v. parameters_in (types_of table.now) v.items ≡ map settled (fields_declared (types_of table.now) (map declared_of groups.now))) }
{
    let Some((group, rest)) = groups.split_first() else {
        return Ok(Vec::new(alloc));
    };
    let all = parameters(alloc, table, rest)?;
    let kind = written_kind(table, &group.type_node);
    before(group.names.as_slice(), kind, all)
}

/// Declares a parameter with its argument.
fn bind_one<'t>(
    alloc: Global,
    table: &TypeTable<'t>,
    scope: &mut Scope<'t>,
    parameter: Parameter<'t>,
    words: &[Word],
) -> Result<(), AllocError>
    ensures { OnOk result (blocks_of (types_of table.now) scope.new ≡ declare (holding (globals_in table.now).structs parameter.entry.name.now (kind_of (types_of table.now) parameter.entry.kind) words.now) (blocks_of (types_of table.now) scope.old)) }
{
    let variable = holding(alloc, table, parameter.name, parameter.kind, words)?;
    scope.declare(alloc, variable)
}

/// Declares parameters with their arguments.
fn bind<'a, 's, 't>(
    alloc: Global,
    table: &'a TypeTable<'t>,
    scope: &'s mut Scope<'t>,
    parameters: &'a [Parameter<'t>],
    arguments: &'a [Vec<Word>],
) -> Result<(), AllocError>
    ensures { OnOk result (blocks_of (types_of table.now) scope.new ≡ bound (globals_in table.now) (parameters_in (types_of table.now) parameters.now) (values_of arguments.now) (blocks_of (types_of table.now) scope.old)) }
{
    let Some((first, parameters)) = parameters.split_first() else {
        return Ok(());
    };
    match arguments.split_first() {
        None => {
            bind_one(alloc, table, scope, *first, &[])?;
            bind(alloc, table, scope, parameters, &[])
        }
        Some((words, arguments)) => {
            bind_one(alloc, table, scope, *first, words.as_slice())?;
            bind(alloc, table, scope, parameters, arguments)
        }
    }
}

/// A scope without variables.
fn no_variables<'t>(alloc: Global) -> Scope<'t>
    ensures { (types : List (List ℕ)) → blocks_of types result ≡ [] }
{
    Scope {
        blocks: Vec::new(alloc),
    }
}

/// The variables of a function at its beginning: its parameters.
#[tactic(auto, using(crate::proofs::Calls::bound_settled))]
fn bound<'t>(
    alloc: Global,
    table: &TypeTable<'t>,
    function: &'t FunctionNode,
    arguments: &[Vec<Word>],
) -> Result<Scope<'t>, AllocError>
    ensures { IfOk result (λ scope. blocks_of (types_of table.now) scope ≡ bound (globals_in table.now) (parameters_of (globals_in table.now) (function_of function.now)) (values_of arguments.now) (entered [])) }
{
    let all = parameters(alloc, table, function.parameters.as_slice())?;
    let mut scope = no_variables(alloc);
    scope.enter(alloc)?;
    bind(alloc, table, &mut scope, all.as_slice(), arguments)?;
    Ok(scope)
}

/// A function at its beginning.
pub(crate) fn entered<'t>(
    alloc: Global,
    program: &Program<'t>,
    function: &'t FunctionNode,
    arguments: &[Vec<Word>],
) -> Result<Frame<'t>, AllocError>
    ensures { IfOk result (λ frame. frame_of (types_of program.now.table) frame ≡ entered_with (globals_in program.now.table) (function_of function.now) (values_of arguments.now)) }
{
    let scope = bound(alloc, &program.table, function, arguments)?;
    let mut position = Position {
        scope,
        tasks: Vec::new(alloc),
    };
    position.push_all(alloc, function.body.as_slice())?;
    Ok(Frame {
        position,
        given: Vec::new(alloc),
    })
}

/// The function with this number.
#[tactic(auto, using(crate::proofs::Calls::later_function))]
fn function_in<'t>(tops: &'t [TopNode], number: usize) -> Option<&'t FunctionNode>
    ensures { option_map (λ f. function_of f.now) result ≡ slice_get (functions_in (map top_of tops.now)) number }
{
    let mut left = tops;
    let mut before = number;
    while let Some((first, rest)) = left.split_first() {
        left = rest;
        if let TopNode::Function(function) = first {
            if before == 0 {
                return Some(function);
            }
            before -= 1;
        }
    }
    None
}

/// The function with this number.
pub(crate) fn function_of<'t>(program: &Program<'t>, number: usize) -> Option<&'t FunctionNode>
    ensures { option_map (λ f. function_of f.now) result ≡ slice_get (functions (file_of program.now.file.now)) number }
{
    function_in(program.file.tops.as_slice(), number)
}
