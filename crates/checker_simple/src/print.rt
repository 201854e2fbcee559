//! What is printed ("Bootstrapping" of the Go specification).

ghost use Rattle.std.specs.Prelude.{◌≡◌, ℕ, ◌+◌, ◌^◌, ◌<◌, map, sum_by, IfOk, IfErr};
ghost use Rattle.syntax.specs.Measures.{part_size};
ghost use Rattle.syntax.specs.View.{part_of};
ghost use Rattle.typing_rules.specs.declared.violation.Violation.{Violation as OneViolation};
ghost use Rattle.typing_rules.specs.Simples.{PartHas, PartsHave};
ghost use Rattle.type_table.specs.Visible.{globals_in, scope_of};

use checker_base::operand::checked;
use checker_base::value::printed;
use syntax::{NodeId, PartNode};
use type_table::scope::Visible;
use type_table::table::TypeTable;
use typing_rules::violation::Violation;

/// Checks an argument of a print, whose nodes have numbers from `first` on, and returns the number after them.
fn part(
    table: &TypeTable<'_>,
    visible: &Visible<'_>,
    first: NodeId,
    part: &PartNode,
) -> Result<NodeId, Violation>
    requires small { first + part_size (part_of part.now) < 2 ^ 32 }
    ensures end { IfOk result (λ end. end ≡ first + part_size (part_of part.now)) }
    ensures none { IfOk result (λ _. (violation : OneViolation) → ¬ (PartHas (globals_in table.now) (scope_of table.now visible.now) first (part_of part.now) violation)) }
    ensures one { IfErr result (PartHas (globals_in table.now) (scope_of table.now visible.now) first (part_of part.now)) }
{
    match part {
        PartNode::Value(value) => {
            let operand = checked(table, visible, first, value)?;
            printed(operand)?;
            Ok(operand.node + 1)
        }
        PartNode::Text(_) => Ok(first + 1),
    }
}

/// Checks the arguments of a print, whose nodes have numbers from `first` on, and returns the number after them.
pub fn parts<'a>(
    table: &TypeTable<'a>,
    visible: &Visible<'a>,
    first: NodeId,
    all: &[PartNode],
) -> Result<NodeId, Violation>
    requires small { first + sum_by part_size (map part_of all.now) < 2 ^ 32 }
    ensures end { IfOk result (λ end. end ≡ first + sum_by part_size (map part_of all.now)) }
    ensures none { IfOk result (λ _. (violation : OneViolation) → ¬ (PartsHave (globals_in table.now) (scope_of table.now visible.now) first (map part_of all.now) violation)) }
    ensures one { IfErr result (PartsHave (globals_in table.now) (scope_of table.now visible.now) first (map part_of all.now)) }
{
    let Some((one, rest)) = all.split_first() else {
        return Ok(first);
    };
    let middle = part(table, visible, first, one)?;
    parts(table, visible, middle, rest)
}
