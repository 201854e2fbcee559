//! The header of an `if` or a `for`: all before its block.

ghost use Rattle.std.specs.Prelude.{◌≡◌, ℕ, ◌+◌, ◌^◌, ◌<◌, [], ◌∷◌, Some, option_map, false, IfOk, IfErr};
ghost use Rattle.syntax.specs.Tree.{Range};
ghost use Rattle.syntax.specs.Measures.{if_any, expression_size, simple_size, if_head_size, target_size, for_head_size, statement_size};
ghost use Rattle.syntax.specs.View.{name_of, expression_of, simple_of, if_head_of, target_of, for_head_of, statement_of};
ghost use Rattle.type_table.specs.Scopes.{is_blank};
ghost use Rattle.type_table.specs.Views.{kind_of};
ghost use Rattle.type_table.specs.Visible.{types_of, globals_in, scope_of, Keeps, Leaves};
ghost use Rattle.typing_rules.specs.declared.violation.Violation.{Violation as OneViolation};
ghost use Rattle.typing_rules.specs.Violations.{IsBroken};
ghost use Rattle.checker_base.specs.Views.{Refuses};
ghost use Rattle.typing_rules.specs.Worths.{worth};
ghost use Rattle.typing_rules.specs.Expressions.{element_of, TestHas};
ghost use Rattle.checker_simple.specs.Givens.{given_of};
ghost use Rattle.typing_rules.specs.Simples.{DefinedHave};
ghost use Rattle.typing_rules.specs.Statements.{GuardHas, IfSimpleHas, IfTestHas, head_simple, after_any, TargetHas, RangedHas, item_given, after_target, TakenHas, ForClausesHave, ForHeadHas, after_for_head};

use checker_base::operand::{Operand, checked};
use checker_base::refusal::Refusal;
use checker_base::value::{channel, is_condition};
use checker_base::worth::Worth;
use checker_simple::place::{place, place_takes};
use checker_simple::simple::simple;
use go_text::Rule;
use std::alloc::Global;
use syntax::size::statement_size;
use syntax::{
    Direction, ExpressionNode, ForHeader, IfHeader, Name, NodeId, RangeTarget, SimpleNode,
    StatementNode,
};
use type_table::scope::{Visible, declare, is_blank, is_reserved, leave, own_variable};
use type_table::table::TypeTable;
use type_table::value_type::ValueType;
use typing_rules::violation::Violation;

/// The violation of a rule by a statement as a whole: at its own node, which is the last of those from `first` on. That takes a count of
/// its nodes, so it is called only if the statement is refused.
pub(crate) fn broken_at(whole: &StatementNode, first: NodeId, rule: Rule) -> Violation
    requires small { first + statement_size (statement_of whole.now) < 2 ^ 32 }
    requires own { 0 < statement_size (statement_of whole.now) }
    ensures { (end : ℕ) → end ≡ first + statement_size (statement_of whole.now) → IsBroken rule end result }
{
    Violation::Broken(rule, first + (statement_size(whole) - 1))
}

/// Checks a condition, whose nodes have numbers from `first` on, and returns the number after them.
fn test<'a>(
    table: &TypeTable<'a>,
    visible: &Visible<'a>,
    first: NodeId,
    condition: &ExpressionNode,
) -> Result<NodeId, Violation>
    requires small { first + expression_size (expression_of condition.now) < 2 ^ 32 }
    ensures end { IfOk result (λ end. end ≡ first + expression_size (expression_of condition.now)) }
    ensures none { IfOk result (λ _. (violation : OneViolation) → ¬ (TestHas (globals_in table.now) (scope_of table.now visible.now) first (expression_of condition.now) violation)) }
    ensures one { IfErr result (TestHas (globals_in table.now) (scope_of table.now visible.now) first (expression_of condition.now)) }
{
    let operand = checked(table, visible, first, condition)?;
    is_condition(operand)?;
    Ok(operand.node + 1)
}

/// Checks the simple statement of a header, if it has one, and returns the number after its nodes. What it declares is
/// then visible.
fn optional_simple<'a>(
    alloc: Global,
    table: &TypeTable<'a>,
    visible: &mut Visible<'a>,
    first: NodeId,
    optional: &'a Option<SimpleNode>,
) -> Result<NodeId, Refusal>
    requires small { first + if_any simple_size (option_map simple_of optional.now) < 2 ^ 32 }
    ensures end { IfOk result (λ end. end ≡ first + if_any simple_size (option_map simple_of optional.now)) }
    ensures after { IfOk result (λ _. scope_of table.now visible.new ≡ after_any (globals_in table.now) (scope_of table.now visible.old) (option_map simple_of optional.now)) }
    ensures kept { IfOk result (λ _. Keeps visible.old visible.new) }
    ensures none { IfOk result (λ _. (violation : OneViolation) → ¬ (IfSimpleHas (globals_in table.now) (scope_of table.now visible.old) first (option_map simple_of optional.now) violation)) }
    ensures one { IfErr result (Refuses (IfSimpleHas (globals_in table.now) (scope_of table.now visible.old) first (option_map simple_of optional.now))) }
{
    match optional {
        None => Ok(first),
        Some(one) => simple(alloc, table, visible, first, one),
    }
}

/// Checks the condition of a `for`, if it has one, and returns the number after its nodes.
fn optional_test<'a>(
    table: &TypeTable<'a>,
    visible: &Visible<'a>,
    first: NodeId,
    optional: &Option<ExpressionNode>,
) -> Result<NodeId, Violation>
    requires small { first + if_any expression_size (option_map expression_of optional.now) < 2 ^ 32 }
    ensures end { IfOk result (λ end. end ≡ first + if_any expression_size (option_map expression_of optional.now)) }
    ensures none { IfOk result (λ _. (violation : OneViolation) → ¬ (IfTestHas (globals_in table.now) (scope_of table.now visible.now) first (option_map expression_of optional.now) violation)) }
    ensures one { IfErr result (IfTestHas (globals_in table.now) (scope_of table.now visible.now) first (option_map expression_of optional.now)) }
{
    match optional {
        None => Ok(first),
        Some(condition) => test(table, visible, first, condition),
    }
}

/// Checks the statement of a `for` that is done after each turn, if it has one, and returns the number after its nodes.
/// Nothing that it declares is visible anywhere else.
fn post_statement<'a>(
    alloc: Global,
    table: &TypeTable<'a>,
    visible: &mut Visible<'a>,
    first: NodeId,
    post: &'a Option<SimpleNode>,
) -> Result<NodeId, Refusal>
    requires small { first + if_any simple_size (option_map simple_of post.now) < 2 ^ 32 }
    ensures end { IfOk result (λ end. end ≡ first + if_any simple_size (option_map simple_of post.now)) }
    ensures left { IfOk result (λ _. Leaves visible.old visible.new) }
    ensures words { IfOk result (λ _. visible.new.words ≡ visible.old.words) }
    ensures none { IfOk result (λ _. (violation : OneViolation) → ¬ (IfSimpleHas (globals_in table.now) (scope_of table.now visible.old) first (option_map simple_of post.now) violation)) }
    ensures one { IfErr result (Refuses (IfSimpleHas (globals_in table.now) (scope_of table.now visible.old) first (option_map simple_of post.now))) }
{
    let count = visible.entries.len();
    let outer = visible.outer;
    let words = visible.words;
    let end = optional_simple(alloc, table, visible, first, post)?;
    leave(visible, count, outer);
    visible.words = words;
    Ok(end)
}

/// Checks the statement before the condition of an `if`. What it declares is then visible.
fn if_header<'a>(
    alloc: Global,
    table: &TypeTable<'a>,
    visible: &mut Visible<'a>,
    first: NodeId,
    header: &'a IfHeader,
) -> Result<NodeId, Refusal>
    requires small { first + if_head_size (if_head_of header.now) < 2 ^ 32 }
    ensures end { IfOk result (λ end. end ≡ first + if_head_size (if_head_of header.now)) }
    ensures after { IfOk result (λ _. scope_of table.now visible.new ≡ after_any (globals_in table.now) (scope_of table.now visible.old) (head_simple (if_head_of header.now))) }
    ensures kept { IfOk result (λ _. Keeps visible.old visible.new) }
    ensures none { IfOk result (λ _. (violation : OneViolation) → ¬ (IfSimpleHas (globals_in table.now) (scope_of table.now visible.old) first (head_simple (if_head_of header.now)) violation)) }
    ensures one { IfErr result (Refuses (IfSimpleHas (globals_in table.now) (scope_of table.now visible.old) first (head_simple (if_head_of header.now)))) }
{
    match header {
        IfHeader::Bare | IfHeader::Semicolon => Ok(first),
        IfHeader::Simple(one) => simple(alloc, table, visible, first, one),
    }
}

/// Checks the header of an `if`, whose nodes have numbers from `first` on, and returns the number after
/// them. What it declares is then visible.
pub(crate) fn guard<'a>(
    alloc: Global,
    table: &TypeTable<'a>,
    visible: &mut Visible<'a>,
    first: NodeId,
    header: &'a IfHeader,
    condition: &ExpressionNode,
) -> Result<NodeId, Refusal>
    requires small { first + if_head_size (if_head_of header.now) + expression_size (expression_of condition.now) < 2 ^ 32 }
    ensures end { IfOk result (λ end. end ≡ first + if_head_size (if_head_of header.now) + expression_size (expression_of condition.now)) }
    ensures after { IfOk result (λ _. scope_of table.now visible.new ≡ after_any (globals_in table.now) (scope_of table.now visible.old) (head_simple (if_head_of header.now))) }
    ensures kept { IfOk result (λ _. Keeps visible.old visible.new) }
    ensures none { IfOk result (λ _. (violation : OneViolation) → ¬ (GuardHas (globals_in table.now) (scope_of table.now visible.old) first (if_head_of header.now) (expression_of condition.now) violation)) }
    ensures one { IfErr result (Refuses (GuardHas (globals_in table.now) (scope_of table.now visible.old) first (if_head_of header.now) (expression_of condition.now))) }
{
    let middle = if_header(alloc, table, visible, first, header)?;
    Ok(test(table, visible, middle, condition)?)
}

/// Checks what a range assigns its items to, whose nodes have numbers from `first` on, and returns the number after them.
fn range_target<'a>(
    table: &TypeTable<'a>,
    visible: &Visible<'a>,
    first: NodeId,
    target: &RangeTarget,
) -> Result<NodeId, Violation>
    requires small { first + target_size (target_of target.now) < 2 ^ 32 }
    ensures end { IfOk result (λ end. end ≡ first + target_size (target_of target.now)) }
    ensures none { IfOk result (λ _. (violation : OneViolation) → ¬ (TargetHas (globals_in table.now) (scope_of table.now visible.now) first (target_of target.now) violation)) }
    ensures one { IfErr result (TargetHas (globals_in table.now) (scope_of table.now visible.now) first (target_of target.now)) }
{
    match target {
        RangeTarget::Nothing | RangeTarget::Define(_) => Ok(first),
        RangeTarget::Assign(assigned) => {
            place(table, visible, first, assigned)?;
            Ok(first + 1)
        }
    }
}

/// What a range takes from its channel: an operand of the type of the channel's elements, whose nodes are those of the
/// channel.
#[derive(Clone, Copy)]
struct Item<'a> {
    operand: Operand<'a>,
    kind: ValueType<'a>,
}

/// Checks the channel of a range, whose nodes have numbers from `first` on; the `for` is the statement `whole`, whose nodes
/// have numbers from `start` on.
fn ranged<'a>(
    table: &TypeTable<'a>,
    visible: &Visible<'a>,
    first: NodeId,
    source: &'a ExpressionNode,
    whole: &StatementNode,
    start: NodeId,
) -> Result<Item<'a>, Violation>
    requires small { first + expression_size (expression_of source.now) < 2 ^ 32 }
    requires whole { start + statement_size (statement_of whole.now) < 2 ^ 32 }
    requires own { 0 < statement_size (statement_of whole.now) }
    ensures end { IfOk result (λ item. first + expression_size (expression_of source.now) ≡ item.operand.node + 1) }
    ensures kind { IfOk result (λ item. element_of (worth (globals_in table.now) (scope_of table.now visible.now) (expression_of source.now)) ≡ Some (kind_of (types_of table.now) item.kind)) }
    ensures given { IfOk result (λ item. item_given (globals_in table.now) (scope_of table.now visible.now) first (expression_of source.now) ≡ given_of (types_of table.now) item.operand) }
    ensures none { IfOk result (λ _. (violation : OneViolation) → ¬ (RangedHas (globals_in table.now) (scope_of table.now visible.now) first (expression_of source.now) (start + statement_size (statement_of whole.now)) violation)) }
    ensures one { IfErr result (RangedHas (globals_in table.now) (scope_of table.now visible.now) first (expression_of source.now) (start + statement_size (statement_of whole.now))) }
{
    let operand = checked(table, visible, first, source)?;
    let (direction, kind) = channel(table, operand)?;
    let item = Operand {
        first,
        node: operand.node,
        worth: Worth::Typed(kind),
    };
    match direction {
        Direction::Send => Err(broken_at(whole, start, Rule::Direction)),
        Direction::Both | Direction::Receive => Ok(Item {
            operand: item,
            kind,
        }),
    }
}

/// Checks the name that a range declares for its items; the `for` is the statement `whole`, whose nodes have numbers from
/// `start` on.
fn may_define(
    table: &TypeTable<'_>,
    visible: &Visible<'_>,
    name: &Name,
    whole: &StatementNode,
    start: NodeId,
) -> Result<(), Violation>
    requires whole { start + statement_size (statement_of whole.now) < 2 ^ 32 }
    requires own { 0 < statement_size (statement_of whole.now) }
    ensures named { IfOk result (λ _. is_blank (name_of name.now) ≡ false) }
    ensures none { IfOk result (λ _. (violation : OneViolation) → ¬ (DefinedHave (scope_of table.now visible.now) (name_of name.now ∷ []) (start + statement_size (statement_of whole.now)) violation)) }
    ensures one { IfErr result (DefinedHave (scope_of table.now visible.now) (name_of name.now ∷ []) (start + statement_size (statement_of whole.now))) }
{
    let bytes = name.bytes.as_slice();
    if is_reserved(bytes) {
        return Err(broken_at(whole, start, Rule::Declared));
    }
    if is_blank(bytes) {
        return Err(broken_at(whole, start, Rule::NewName));
    }
    match own_variable(table, visible, bytes) {
        Some(_) => Err(broken_at(whole, start, Rule::NewName)),
        None => Ok(()),
    }
}

/// Checks that the items of a range go to its target; the `for` is the statement `whole`, whose nodes have numbers from
/// `start` on. What the target declares is then visible.
fn taken<'a>(
    table: &TypeTable<'a>,
    visible: &mut Visible<'a>,
    target: &'a RangeTarget,
    item: Item<'a>,
    whole: &StatementNode,
    start: NodeId,
) -> Result<(), Refusal>
    requires whole { start + statement_size (statement_of whole.now) < 2 ^ 32 }
    requires own { 0 < statement_size (statement_of whole.now) }
    ensures after { IfOk result (λ _. scope_of table.now visible.new ≡ after_target (globals_in table.now) (scope_of table.now visible.old) (Some (kind_of (types_of table.now) item.entry.kind)) (target_of target.now)) }
    ensures kept { IfOk result (λ _. Keeps visible.old visible.new) }
    ensures none { IfOk result (λ _. (violation : OneViolation) → ¬ (TakenHas (globals_in table.now) (scope_of table.now visible.old) (target_of target.now) (given_of (types_of table.now) item.entry.operand) (start + statement_size (statement_of whole.now)) violation)) }
    ensures one { IfErr result (Refuses (TakenHas (globals_in table.now) (scope_of table.now visible.old) (target_of target.now) (given_of (types_of table.now) item.entry.operand) (start + statement_size (statement_of whole.now)))) }
{
    match target {
        RangeTarget::Nothing => Ok(()),
        RangeTarget::Define(name) => {
            may_define(table, visible, name, whole, start)?;
            declare(table, visible, item.kind, name)?;
            Ok(())
        }
        RangeTarget::Assign(assigned) => {
            Ok(place_takes(table, visible, assigned, item.operand)?)
        }
    }
}

/// Checks the header of a `for` with a range, whose nodes have numbers from `first` on, as those of the
/// whole `for` do, and returns the number after them. What it declares is then visible.
fn range<'a>(
    table: &TypeTable<'a>,
    visible: &mut Visible<'a>,
    first: NodeId,
    target: &'a RangeTarget,
    source: &'a ExpressionNode,
    whole: &StatementNode,
) -> Result<NodeId, Refusal>
    requires small { first + (target_size (target_of target.now) + expression_size (expression_of source.now)) < 2 ^ 32 }
    requires whole { first + statement_size (statement_of whole.now) < 2 ^ 32 }
    requires own { 0 < statement_size (statement_of whole.now) }
    ensures end { IfOk result (λ end. end ≡ first + (target_size (target_of target.now) + expression_size (expression_of source.now))) }
    ensures after { IfOk result (λ _. scope_of table.now visible.new ≡ after_for_head (globals_in table.now) (scope_of table.now visible.old) (Range (target_of target.now) (expression_of source.now))) }
    ensures kept { IfOk result (λ _. Keeps visible.old visible.new) }
    ensures none { IfOk result (λ _. (violation : OneViolation) → ¬ (ForHeadHas (globals_in table.now) (scope_of table.now visible.old) first (Range (target_of target.now) (expression_of source.now)) (first + statement_size (statement_of whole.now)) violation)) }
    ensures one { IfErr result (Refuses (ForHeadHas (globals_in table.now) (scope_of table.now visible.old) first (Range (target_of target.now) (expression_of source.now)) (first + statement_size (statement_of whole.now)))) }
{
    let middle = range_target(table, visible, first, target)?;
    let item = ranged(table, visible, middle, source, whole, first)?;
    taken(table, visible, target, item, whole, first)?;
    Ok(item.operand.node + 1)
}

/// The header of a `for` that is no range: what is done first, the condition, and what is done
/// after each turn, each of which may be missing.
#[derive(Clone, Copy)]
struct ClausesHeader<'a> {
    first: &'a Option<SimpleNode>,
    condition: &'a Option<ExpressionNode>,
    post: &'a Option<SimpleNode>,
}

/// Checks the header of a `for` with a first statement, a condition and a post statement, each of which may be missing,
/// whose nodes have numbers from `first` on, and returns the number after them. What it declares is then visible.
fn for_clauses<'a>(
    alloc: Global,
    table: &TypeTable<'a>,
    visible: &mut Visible<'a>,
    first: NodeId,
    header: ClausesHeader<'a>,
) -> Result<NodeId, Refusal>
    requires small { first + if_any simple_size (option_map simple_of header.first.now) + if_any expression_size (option_map expression_of header.condition.now) + if_any simple_size (option_map simple_of header.post.now) < 2 ^ 32 }
    ensures end { IfOk result (λ end. end ≡ first + (if_any simple_size (option_map simple_of header.entry.first.now) + if_any expression_size (option_map expression_of header.entry.condition.now) + if_any simple_size (option_map simple_of header.entry.post.now))) }
    ensures after { IfOk result (λ _. scope_of table.now visible.new ≡ after_any (globals_in table.now) (scope_of table.now visible.old) (option_map simple_of header.entry.first.now)) }
    ensures kept { IfOk result (λ _. Keeps visible.old visible.new) }
    ensures none { IfOk result (λ _. (violation : OneViolation) → ¬ (ForClausesHave (globals_in table.now) (scope_of table.now visible.old) first (option_map simple_of header.entry.first.now) (option_map expression_of header.entry.condition.now) (option_map simple_of header.entry.post.now) violation)) }
    ensures one { IfErr result (Refuses (ForClausesHave (globals_in table.now) (scope_of table.now visible.old) first (option_map simple_of header.entry.first.now) (option_map expression_of header.entry.condition.now) (option_map simple_of header.entry.post.now))) }
{
    let middle = optional_simple(alloc, table, visible, first, header.first)?;
    let following = optional_test(table, visible, middle, header.condition)?;
    post_statement(alloc, table, visible, following, header.post)
}

/// Checks the header of a `for`, whose nodes have numbers from `first` on, as those of the whole `for`
/// do, and returns the number after them. What it declares is then visible.
pub(crate) fn for_header<'a>(
    alloc: Global,
    table: &TypeTable<'a>,
    visible: &mut Visible<'a>,
    first: NodeId,
    header: &'a ForHeader,
    whole: &StatementNode,
) -> Result<NodeId, Refusal>
    requires small { first + for_head_size (for_head_of header.now) < 2 ^ 32 }
    requires whole { first + statement_size (statement_of whole.now) < 2 ^ 32 }
    requires own { 0 < statement_size (statement_of whole.now) }
    ensures end { IfOk result (λ end. end ≡ first + for_head_size (for_head_of header.now)) }
    ensures after { IfOk result (λ _. scope_of table.now visible.new ≡ after_for_head (globals_in table.now) (scope_of table.now visible.old) (for_head_of header.now)) }
    ensures kept { IfOk result (λ _. Keeps visible.old visible.new) }
    ensures none { IfOk result (λ _. (violation : OneViolation) → ¬ (ForHeadHas (globals_in table.now) (scope_of table.now visible.old) first (for_head_of header.now) (first + statement_size (statement_of whole.now)) violation)) }
    ensures one { IfErr result (Refuses (ForHeadHas (globals_in table.now) (scope_of table.now visible.old) first (for_head_of header.now) (first + statement_size (statement_of whole.now)))) }
{
    match header {
        ForHeader::Forever => Ok(first),
        ForHeader::While(condition) => Ok(test(table, visible, first, condition)?),
        ForHeader::Clauses(begun, condition, post) => {
            let clauses = ClausesHeader {
                first: begun,
                condition,
                post,
            };
            for_clauses(alloc, table, visible, first, clauses)
        }
        ForHeader::Range(target, source) => range(table, visible, first, target, source, whole),
    }
}
