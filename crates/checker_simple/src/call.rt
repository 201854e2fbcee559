//! Calls whose results are not used ("Calls", "Go statements" of the Go specification).

ghost use Rattle.std.specs.Prelude.{◌≡◌, ◌+◌, ◌^◌, ◌<◌, IfOk, IfErr};
ghost use Rattle.syntax.specs.Measures.{arguments_size};
ghost use Rattle.syntax.specs.View.{arguments_of, name_of};
ghost use Rattle.typing_rules.specs.declared.violation.Violation.{Violation as OneViolation};
ghost use Rattle.checker_base.specs.Views.{Refuses};
ghost use Rattle.typing_rules.specs.Operations.{CallHas};
ghost use Rattle.type_table.specs.Visible.{globals_in, scope_of};

use checker_base::operand::call;
use checker_base::refusal::Refusal;
use syntax::{ArgumentsNode, Name, NodeId};
use type_table::scope::Visible;
use type_table::table::TypeTable;

/// Checks a call whose result is not used, with nodes from `first` on, and returns the number after them.
pub fn call_alone(
    table: &TypeTable<'_>,
    visible: &Visible<'_>,
    first: NodeId,
    function: &Name,
    arguments: &ArgumentsNode,
) -> Result<NodeId, Refusal>
    requires small { first + (arguments_size (arguments_of arguments.now) + 1) < 2 ^ 32 }
    ensures end { IfOk result (λ end. end ≡ first + (arguments_size (arguments_of arguments.now) + 1)) }
    ensures none { IfOk result (λ _. (violation : OneViolation) → ¬ (CallHas (globals_in table.now) (scope_of table.now visible.now) first (name_of function.now) (arguments_of arguments.now) violation)) }
    ensures one { IfErr result (Refuses (CallHas (globals_in table.now) (scope_of table.now visible.now) first (name_of function.now) (arguments_of arguments.now))) }
{
    let called = call(table, visible, first, function, arguments.values.as_slice())?;
    Ok(called.node + 1)
}
