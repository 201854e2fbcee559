//! What declarations of variables do.

ghost use Rattle.std.specs.Prelude.{◌≡◌, IfErr, IfOk, map, option_map};
ghost use Rattle.syntax.specs.View.{expression_of, name_of, right_of, type_of};
ghost use Rattle.type_table.specs.Visible.{globals_in};
ghost use Rattle.meaning.specs.Expressions.{written_kind};
ghost use Rattle.meaning.specs.Source.{statement_work, zero_of};
ghost use Rattle.syntax.specs.Tree.{VarTyped, VarUntyped};
ghost use Rattle.reference_scope.specs.Parts.{values_of};
ghost use Rattle.reference_step.specs.Steps.{Leads, Stays};

use crate::places::{typed, untyped};
use crate::simple::gives;
use reference_scope::place::store;
use reference_scope::words::with_first;
use reference_task::outcome::Course;
use reference_task::program::Program;
use reference_task::task::Position;
use reference_value::callee::written_kind;
use reference_value::fault::Stop;
use reference_value::given::Given;
use reference_value::operation::zero_of;
use std::alloc::{AllocError, Global};
use syntax::{ExpressionNode, Name, TypeNode};
use type_table::table::TypeTable;
use word::value::Word;

/// One value for each of these names.
fn copies<'a>(
    alloc: Global,
    words: &'a [Word],
    names: &'a [Name],
) -> Result<Vec<Vec<Word>>, AllocError>
    ensures { IfOk result (λ v. values_of v.items ≡ map (λ name. words.now) (map name_of names.now)) }
{
    let Some((_, rest)) = names.split_first() else {
        return Ok(Vec::new(alloc));
    };
    let others = copies(alloc, words, rest)?;
    with_first(Vec::from_slice(alloc, words)?, others)
}

/// The zero value of the type that is written here, for each of these names.
fn zeros<'t>(
    alloc: Global,
    table: &TypeTable<'t>,
    kind: &'t TypeNode,
    names: &[Name],
) -> Result<Vec<Vec<Word>>, AllocError>
    ensures { IfOk result (λ v. values_of v.items ≡ map (λ name. zero_of (globals_in table.now) (written_kind (globals_in table.now) (type_of kind.now))) (map name_of names.now)) }
{
    let zero = zero_of(alloc, table, written_kind(table, kind))?;
    copies(alloc, zero.as_slice(), names)
}

/// A `var` with a type.
///
/// Errors: the panic that is met first; what has to be done next; `Memory`.
pub(crate) fn typed_values<'t>(
    alloc: Global,
    program: &Program<'t>,
    top: &mut Position<'t>,
    names: &'t [Name],
    kind: &'t TypeNode,
    right: &'t Option<Vec<ExpressionNode>>,
    given: &[Given],
) -> Result<Course, Stop>
    ensures ok { IfOk result (Leads (λ g b t. statement_work g b t (VarTyped (map name_of names.now) (type_of kind.now) (option_map right_of right.now))) program.now.table given.now top.old top.new) }
    ensures err { IfErr result (Stays (λ g b t. statement_work g b t (VarTyped (map name_of names.now) (type_of kind.now) (option_map right_of right.now))) program.now.table given.now top.old top.new) }
{
    let table = &program.table;
    let destinations = typed(alloc, table, &top.scope, names, kind)?;
    match right {
        Some(right) => {
            let right = right.as_slice();
            gives(alloc, program, top, destinations.as_slice(), right, given)
        }
        None => {
            let all = zeros(alloc, table, kind, names)?;
            store(
                alloc,
                table,
                &mut top.scope,
                destinations.as_slice(),
                all.as_slice(),
            )?;
            Ok(Course::Moves)
        }
    }
}

/// A `var` with values alone.
///
/// Errors: the panic that is met first; what has to be done next; `Memory`.
pub(crate) fn untyped_values<'t>(
    alloc: Global,
    program: &Program<'t>,
    top: &mut Position<'t>,
    names: &'t [Name],
    right: &'t [ExpressionNode],
    given: &[Given],
) -> Result<Course, Stop>
    ensures ok { IfOk result (Leads (λ g b t. statement_work g b t (VarUntyped (map name_of names.now) (map expression_of right.now))) program.now.table given.now top.old top.new) }
    ensures err { IfErr result (Stays (λ g b t. statement_work g b t (VarUntyped (map name_of names.now) (map expression_of right.now))) program.now.table given.now top.old top.new) }
{
    let destinations = untyped(alloc, &program.table, &top.scope, names, right)?;
    gives(alloc, program, top, destinations.as_slice(), right, given)
}
