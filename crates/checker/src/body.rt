//! The check of the bodies of functions.

ghost use Rattle.std.specs.Prelude.{◌≡◌, ℕ, ◌+◌, ◌^◌, ◌<◌, ◌⊎◌, List, map, sum_by, OnOk, IfOk, IfErr};
ghost use Rattle.syntax.specs.Measures.{function_size, statements_size, top_size};
ghost use Rattle.syntax.specs.View.{body_of, function_of, top_of};
ghost use Rattle.type_table.specs.Views.{field_in, yield_of};
ghost use Rattle.type_table.specs.Visible.{types_of, globals_in, scope_of};
ghost use Rattle.typing_rules.specs.declared.violation.Violation.{Violation as OneViolation};
ghost use Rattle.checker_base.specs.Views.{Refuses};
ghost use Rattle.checker_statement.specs.Settings.{setting_in};
ghost use Rattle.typing_rules.specs.Kinds.{with_fields};
ghost use Rattle.typing_rules.specs.Declarations.{HeadHas};
ghost use Rattle.typing_rules.specs.Files.{is_ended, BodyIn, BodyHas, TopBodyHas, BodiesHave};
ghost use Rattle.checker.specs.Firsts.{FirstBodyHas};
ghost use Rattle.checker_declaration.specs.Heads.{TopHeadHas, HeadsHave};

use checker_base::refusal::Refusal;
use checker_declaration::header::function_head;
use checker_statement::statement::{Inside, statements};
use checker_statement::terminate::last_terminates;
use go_text::{LimitKind, Rule};
use std::alloc::{AllocError, Global};
use syntax::size::top_size;
use syntax::{FunctionNode, NodeId, StatementNode, TopNode};
use type_table::entry::FieldEntry;
use type_table::scope::{Visible, declare};
use type_table::table::TypeTable;
use type_table::value_type::ValueType;
use typing_rules::violation::Violation;

/// How many words the variables of a function may take.
const MOST_WORDS: usize = 4096;

/// Declares parameters.
fn declare_all<'a>(
    table: &TypeTable<'a>,
    visible: &mut Visible<'a>,
    parameters: &[FieldEntry<'a>],
) -> Result<(), AllocError>
    ensures { OnOk result (scope_of table.now visible.new ≡ with_fields (globals_in table.now).structs (scope_of table.now visible.old) (map (field_in (types_of table.now)) parameters.now)) }
{
    for parameter in parameters {
        declare(table, visible, parameter.kind, parameter.name)?;
    }
    Ok(())
}

/// Whether a body ends as the function's result wants ("Terminating statements" of the Go specification).
fn is_ended(result_type: Option<ValueType<'_>>, body: &[StatementNode]) -> bool
    ensures { (types : List (List ℕ)) → result ≡ is_ended (yield_of types result_type.entry) (body_of body.now) }
{
    match result_type {
        None => true,
        Some(_) => last_terminates(body),
    }
}

/// Checks the statements of a body, in which the parameters are visible, whose nodes have numbers from `first` on, and returns
/// the number after the function.
fn body_in<'a>(
    alloc: Global,
    table: &TypeTable<'a>,
    inside: Inside<'a>,
    visible: &mut Visible<'a>,
    first: NodeId,
    body: &'a [StatementNode],
) -> Result<NodeId, Refusal>
    requires small { first + statements_size (body_of body.now) + 2 < 2 ^ 32 }
    ensures end { IfOk result (λ end. end ≡ first + statements_size (body_of body.now) + 2) }
    ensures none { IfOk result (λ _. (end : ℕ) → end ≡ first + statements_size (body_of body.now) + 2 → (violation : OneViolation) → ¬ (BodyIn (setting_in table.now inside.entry) (scope_of table.now visible.old) first (body_of body.now) end violation)) }
    ensures one { IfErr result (Refuses (λ violation. (end : ℕ) → end ≡ first + statements_size (body_of body.now) + 2 → BodyIn (setting_in table.now inside.entry) (scope_of table.now visible.old) first (body_of body.now) end violation)) }
{
    let end = statements(alloc, table, inside, visible, first, body)?;
    if visible.words > MOST_WORDS {
        return Err(Refusal::Violated(Violation::Exceeded(LimitKind::FunctionWords, end + 1)));
    }
    if !is_ended(inside.result, body) {
        return Err(Refusal::Violated(Violation::Broken(Rule::Terminating, end + 1)));
    }
    Ok(end + 2)
}

/// Checks the body of a function, whose nodes have numbers from `first` on, and returns the number after it.
fn body<'a>(
    alloc: Global,
    table: &TypeTable<'a>,
    first: NodeId,
    function: &'a FunctionNode,
) -> Result<NodeId, Refusal>
    requires small { first + function_size (function_of function.now) < 2 ^ 32 }
    ensures end { IfOk result (λ end. end ≡ first + function_size (function_of function.now)) }
    ensures none { IfOk result (λ _. (violation : OneViolation) → ¬ (BodyHas (globals_in table.now) first (function_of function.now) violation)) }
    ensures one { IfErr result (Refuses (λ violation. BodyHas (globals_in table.now) first (function_of function.now) violation ⊎ HeadHas (types_of table.now) first (function_of function.now) violation)) }
{
    let head = function_head(alloc, table.types(), first, function)?;
    let mut visible = Visible::new(alloc);
    declare_all(table, &mut visible, head.parameters.as_slice())?;
    let inside = Inside {
        result: head.result,
        breaks: false,
        continues: false,
    };
    body_in(
        alloc,
        table,
        inside,
        &mut visible,
        head.end,
        function.body.as_slice(),
    )
}

/// Checks the body of a function, if this is one, whose nodes have numbers from `first` on, and returns the number after the
/// declaration.
fn top_body<'a>(
    alloc: Global,
    table: &TypeTable<'a>,
    first: NodeId,
    top: &'a TopNode,
) -> Result<NodeId, Refusal>
    requires small { first + top_size (top_of top.now) < 2 ^ 32 }
    ensures end { IfOk result (λ end. end ≡ first + top_size (top_of top.now)) }
    ensures none { IfOk result (λ _. (violation : OneViolation) → ¬ (TopBodyHas (globals_in table.now) first (top_of top.now) violation)) }
    ensures one { IfErr result (Refuses (λ violation. TopBodyHas (globals_in table.now) first (top_of top.now) violation ⊎ TopHeadHas (types_of table.now) first (top_of top.now) violation)) }
{
    match top {
        TopNode::Struct(_) => Ok(first + top_size(top)),
        TopNode::Function(function) => body(alloc, table, first, function),
    }
}

/// Checks the bodies of a file's functions.
///
/// Errors: a violation in the first function that has one; `Memory`.
pub(crate) fn bodies<'a>(
    alloc: Global,
    table: &TypeTable<'a>,
    tops: &'a [TopNode],
) -> Result<(), Refusal>
    requires small { sum_by top_size (map top_of tops.now) < 2 ^ 32 }
    ensures none { IfOk result (λ _. (violation : OneViolation) → ¬ (BodiesHave (globals_in table.now) 0 (map top_of tops.now) violation)) }
    ensures one { IfErr result (Refuses (λ violation. FirstBodyHas (globals_in table.now) 0 (map top_of tops.now) violation ⊎ HeadsHave (types_of table.now) 0 (map top_of tops.now) violation)) }
{
    let mut end = 0;
    for top in tops {
        end = top_body(alloc, table, end, top)?;
    }
    Ok(())
}
