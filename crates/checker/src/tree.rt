//! The check of a tree.

ghost use Rattle.std.specs.Prelude.{◌≡◌, ◌<◌, ◌⊎◌, IfOk, IfErr};
ghost use Rattle.syntax.specs.Measures.{size};
ghost use Rattle.syntax.specs.Spans.{tree_of};
ghost use Rattle.typing_rules.specs.Files.{FileHas, IsTyped};
ghost use Rattle.checker.specs.Firsts.{ComesFirst};
ghost use Rattle.typing_rules.specs.Nodes.{node_of};
ghost use Rattle.checker.specs.Faults.{Tells};
ghost use Rattle.checker.specs.Trees.{tree_in};

use crate::file::check_file;
use crate::typed::Typed;
use checker_base::refusal::Refusal;
use go_text::{Fault, Place};
use std::alloc::Global;
use syntax::Tree;
use typing_rules::violation::Violation;

/// The error for a tree with this violation, with the location of the node.
fn fault_of(tree: &Tree, violation: Violation) -> Fault
    requires node { node_of violation < size (tree_of tree.now) }
    requires violation { FileHas (tree_of tree.now) violation }
    requires first { ComesFirst (tree_of tree.now) violation }
    ensures { Tells tree.now result }
{
    match violation {
        Violation::Broken(rule, node) => Fault::Typing {
            rule,
            node,
            place: Place::from(tree.span(node)),
        },
        Violation::Exceeded(kind, node) => Fault::Limit {
            kind,
            node: Some(node),
            place: Place::from(tree.span(node)),
        },
    }
}

/// Checks a tree against the typing rules and the limits: first its struct types in order, of each the name, the fields, that it
/// does not contain itself and that it is at most 16 words wide; then the heads of its functions, then that it has a `main`,
/// then the bodies of the functions: statements in order, and operands before their operators.
///
/// Errors: `Typing` with a rule that is violated, or `Limit` with a limit that is exceeded, each at the node named; of
/// several the first one in this order; `Memory`.
pub fn check(alloc: Global, tree: Tree) -> Result<Typed, Fault>
    ensures tree { IfOk result (λ typed. tree_in typed ≡ tree) }
    ensures typed { IfOk result (λ _. IsTyped (tree_of tree)) }
    ensures wrong { IfErr result (λ fault. (fault ≡ Fault.Memory) ⊎ (IsTyped (tree_of tree) → ⊥)) }
    ensures fault { IfErr result (λ fault. (fault ≡ Fault.Memory) ⊎ Tells tree fault) }
{
    match check_file(alloc, tree.count() - 1, tree.file()) {
        Ok(()) => Ok(Typed::new(tree)),
        Err(Refusal::Violated(violation)) => Err(fault_of(&tree, violation)),
        Err(Refusal::Memory) => Err(Fault::Memory),
    }
}
