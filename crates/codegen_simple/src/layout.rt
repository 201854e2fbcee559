//! Where the variables of a function lie among its locals.

ghost use Rattle.std.specs.Prelude.{◌≡◌, length, take, OnOk};
ghost use Rattle.syntax.specs.View.{name_of};
ghost use Rattle.type_table.specs.declared.table.TypeTable.{TypeTable as OneTable};
ghost use Rattle.type_table.specs.Views.{kind_of};
ghost use Rattle.type_table.specs.Visible.{Keeps, scope_of};
ghost use Rattle.typing_rules.specs.Simples.{is_declarable};
ghost use Rattle.codegen_base.specs.Layouts.{declaring, declaring_new, empty, entering};
ghost use Rattle.codegen_expression.specs.Contexts.{elements_of, globals_of, types_in};
ghost use Rattle.codegen_simple.specs.Layouts.{layout_in, layout_of};

use bytecode::WordKind;
use codegen_expression::context::Context;
use codegen_expression::shape::put_kinds;
use std::alloc::{AllocError, Global};
use syntax::Name;
use type_table::scope::{self, Visible, is_blank, own_variable};
use type_table::table::TypeTable;
use type_table::value_type::ValueType;

/// The variables that are visible, and the kinds of all locals, also of variables of blocks that have ended.
#[derive(Drop)]
pub struct Layout<'a> {
    pub visible: Visible<'a>,
    pub locals: Vec<WordKind>,
}

/// Where a block began: how many variables were visible before it, and how many of them outside of the block around it.
#[derive(Clone, Copy)]
pub struct Mark {
    count: usize,
    outer: usize,
}

impl<'a> Layout<'a> {
    /// No variables.
    pub fn new(alloc: Global) -> Layout<'a>
        ensures { (table : OneTable) → layout_of table result ≡ empty }
    {
        Layout {
            visible: Visible::new(alloc),
            locals: Vec::new(alloc),
        }
    }
}

/// Declares a variable, after all locals.
///
/// Errors: out of memory.
pub fn declare<'a>(
    context: &Context<'_, 'a>,
    layout: &mut Layout<'a>,
    kind: ValueType<'a>,
    name: &'a Name,
) -> Result<(), AllocError>
    ensures after { OnOk result (layout_in context.now layout.new ≡ declaring (globals_of context.now) (elements_of context.now) (kind_of (types_in context.now) kind.entry) (name_of name.now) (layout_in context.now layout.old)) }
    ensures kept { OnOk result (Keeps layout.old.visible layout.new.visible) }
{
    scope::declare(context.table, &mut layout.visible, kind, name)?;
    put_kinds(context, kind, &mut layout.locals)?;
    Ok(())
}

/// Whether a name is new in its block, and not `_`.
pub fn is_declarable<'k>(table: &TypeTable<'k>, visible: &Visible<'k>, name: &[u8]) -> bool
    ensures { result ≡ is_declarable (scope_of table.now visible.now) name.now }
{
    !is_blank(name) && own_variable(table, visible, name).is_none()
}

/// Declares a variable if its name is new in its block, and not `_`.
///
/// Errors: out of memory.
pub fn declare_new<'a>(
    context: &Context<'_, 'a>,
    layout: &mut Layout<'a>,
    kind: ValueType<'a>,
    name: &'a Name,
) -> Result<(), AllocError>
    ensures after { OnOk result (layout_in context.now layout.new ≡ declaring_new (globals_of context.now) (elements_of context.now) (kind_of (types_in context.now) kind.entry) (name_of name.now) (layout_in context.now layout.old)) }
    ensures kept { OnOk result (Keeps layout.old.visible layout.new.visible) }
{
    if is_declarable(context.table, &layout.visible, name.bytes.as_slice()) {
        declare(context, layout, kind, name)?;
    }
    Ok(())
}

/// Enters a block, and returns the mark with which to leave it.
pub fn enter(layout: &mut Layout<'_>) -> Mark
    ensures layout { (table : OneTable) → layout_of table layout.new ≡ entering (layout_of table layout.old) }
    ensures count { result.count ≡ length layout.old.visible.entries.items }
    ensures outer { result.outer ≡ layout.old.visible.outer }
    ensures kept { layout.new.visible.entries.items ≡ layout.old.visible.entries.items }
{
    let mark = Mark {
        count: layout.visible.entries.len(),
        outer: layout.visible.outer,
    };
    scope::enter(&mut layout.visible);
    mark
}

/// A block that began at `mark` has ended: what it declared is not visible any more.
pub fn leave(layout: &mut Layout<'_>, mark: Mark)
    ensures entries { layout.new.visible.entries.items ≡ take mark.count layout.old.visible.entries.items }
    ensures outer { layout.new.visible.outer ≡ mark.outer }
    ensures words { layout.new.visible.words ≡ layout.old.visible.words }
    ensures locals { layout.new.locals.items ≡ layout.old.locals.items }
{
    scope::leave(&mut layout.visible, mark.count, mark.outer);
}
