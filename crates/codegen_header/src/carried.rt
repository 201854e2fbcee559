//! What channels carry.

ghost use Rattle.std.specs.Prelude.{◌≡◌, List};
ghost use Rattle.syntax.specs.View.{expression_of};
ghost use Rattle.type_table.specs.Views.{kind_of};
ghost use Rattle.type_table.specs.Visible.{globals_in, scope_of, types_of};
ghost use Rattle.codegen_base.specs.declared.element.Element.{Element};
ghost use Rattle.codegen_base.specs.Layouts.{carried};

use checker_base::operand::worth;
use codegen_expression::channel::carried_in;
use syntax::ExpressionNode;
use type_table::scope::Visible;
use type_table::table::TypeTable;
use type_table::value_type::ValueType;

/// What a channel carries; of what is no channel, an int.
pub fn carried<'a>(
    table: &TypeTable<'a>,
    visible: &Visible<'a>,
    channel: &'a ExpressionNode,
) -> ValueType<'a>
    ensures { (elements : List Element) → carried (globals_in table.now) elements (scope_of table.now visible.now) (expression_of channel.now) ≡ kind_of (types_of table.now) result }
{
    carried_in(table, worth(table, visible, channel))
}
