//! The check of a file.

ghost use Rattle.std.specs.Prelude.{◌≡◌, ◌+◌, ◌^◌, ◌<◌, ◌&&◌, List, ℕ, map, IfOk, IfErr};
ghost use Rattle.syntax.specs.Measures.{size};
ghost use Rattle.syntax.specs.View.{file_of};
ghost use Rattle.type_table.specs.Views.{signature_of};
ghost use Rattle.typing_rules.specs.declared.violation.Violation.{Violation as OneViolation};
ghost use Rattle.checker_base.specs.Views.{Refuses};
ghost use Rattle.typing_rules.specs.Files.{is_plain, has_main, FileHas};
ghost use Rattle.checker.specs.Firsts.{ComesFirst};

use crate::body::bodies;
use checker_base::refusal::Refusal;
use checker_declaration::table::table_of;
use go_text::Rule;
use std::alloc::Global;
use syntax::{FileNode, NodeId};
use type_table::entry::FunctionEntry;
use typing_rules::violation::Violation;

/// Whether a function has no parameters and no result.
fn is_plain(function: &FunctionEntry<'_>) -> bool
    ensures { (types : List (List ℕ)) → result ≡ is_plain (signature_of types function.now) }
{
    function.parameters.is_empty() && function.result.is_none()
}

/// Whether the first function of the name `main` is there, without parameters and result ("Program execution" of the Go
/// specification).
fn has_main(functions: &[FunctionEntry<'_>]) -> bool
    ensures { (types : List (List ℕ)) → result ≡ has_main (map (signature_of types) functions.now) }
{
    for function in functions {
        if function.name.bytes.as_slice() == b"main".as_slice() {
            return is_plain(function);
        }
    }
    false
}

/// Checks a file, whose own node this is: first what it declares, then that there is a `main`, then the bodies of the
/// functions.
///
/// Errors: a violation that comes first in this order; `Memory`.
pub(crate) fn check_file(alloc: Global, node: NodeId, file: &FileNode) -> Result<(), Refusal>
    requires last { node + 1 ≡ size (file_of file.now) }
    requires small { size (file_of file.now) < 2 ^ 32 }
    ensures none { IfOk result (λ _. (violation : OneViolation) → ¬ (FileHas (file_of file.now) violation)) }
    ensures one { IfErr result (Refuses (FileHas (file_of file.now))) }
    ensures first { IfErr result (Refuses (ComesFirst (file_of file.now))) }
{
    let table = table_of(alloc, file.tops.as_slice())?;
    if !has_main(table.functions.as_slice()) {
        return Err(Refusal::Violated(Violation::Broken(Rule::Main, node)));
    }
    bodies(alloc, &table, file.tops.as_slice())
}
