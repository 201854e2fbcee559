//! The check of expressions.

ghost use Rattle.std.specs.Prelude.{◌≡◌, ℕ, ◌+◌, ◌^◌, ◌<◌, ◌⊎◌, Bool, List, map, option_map, option_and_then, Option, Some, None, IfSome, IfOk, IfErr};
ghost use Rattle.std.specs.Result.{result_ok};
ghost use Rattle.syntax.specs.Measures.{expression_size, expressions_size, type_size};
ghost use Rattle.syntax.specs.Tree.{Composite, Call, Receive, Length, MakeSized, expressions};
ghost use Rattle.syntax.specs.View.{name_of, type_of, expression_of};
ghost use Rattle.type_table.specs.Containment.{fields_of};
ghost use Rattle.type_table.specs.Types.{StructType};
ghost use Rattle.type_table.specs.Scopes.{type_in};
ghost use Rattle.type_table.specs.Views.{field_in};
ghost use Rattle.type_table.specs.Visible.{types_of, globals_in, scope_of};
ghost use Rattle.typing_rules.specs.declared.violation.Violation.{Violation as OneViolation};
ghost use Rattle.typing_rules.specs.Calls.{IsFunction, callee, result_type, made_of};
ghost use Rattle.typing_rules.specs.Worths.{Typed, Constant, worth as spec_worth, literal, literal_struct, element_of, selected_worth, unary_worth, binary_worth};
ghost use Rattle.typing_rules.specs.Expressions.{ExpressionHas, ExpressionsHave, PassedHave, ValuesFail};
ghost use Rattle.typing_rules.specs.Operations.{MeasuredHas};
ghost use Rattle.checker_base.specs.Views.{worth_of, IsSmall, kinds_in, CallWith, Tells};

use crate::callee::{Callee, CheckedCall, callee_named, parameters_of, result_of};
use crate::form::{
    before, between, buffer_size, call_value, integer, made, make, named, selection,
};
use crate::value::{channel, received};
use crate::wanted::{Wanted, first_misfit};
use crate::worth::{
    Worth, binary_worth, literal, literal_struct, named_worth, selected_worth, unary_worth,
};
use go_text::Rule;
use syntax::size::{expression_size, type_size};
use syntax::{BinaryOperator, ExpressionNode, Name, NodeId, TypeNode, UnaryOperator};
use type_table::entry::FieldEntry;
use type_table::scope::Visible;
use type_table::table::TypeTable;
use type_table::value_type::{ValueType, element_in, type_in};
use typing_rules::violation::Violation;

/// An expression that is checked.
#[derive(Clone, Copy)]
pub struct Operand<'a> {
    /// The first of the expression's nodes.
    pub first: NodeId,
    /// Its own node, which is the last of them.
    pub node: NodeId,
    pub worth: Worth<'a>,
}

/// Values that are checked.
#[derive(Clone, Copy)]
struct Filling {
    /// The number after their nodes.
    end: NodeId,
    /// What is wrong with the first one that is not of the type that is wanted.
    misfit: Option<Violation>,
}

/// The fields of the struct with this number.
fn fields_at<'t, 'a>(table: &'t TypeTable<'a>, number: usize) -> &'t [FieldEntry<'a>]
    ensures { map (field_in (types_of table.now)) result.now ≡ fields_of (globals_in table.now).structs number }
{
    if number < table.structs.len() {
        table.structs[number].fields.as_slice()
    } else {
        &[]
    }
}

/// How many nodes expressions have.
fn values_size(values: &[ExpressionNode]) -> NodeId
    requires { expressions_size (expressions (map expression_of values.now)) < 2 ^ 32 }
    ensures { result ≡ expressions_size (expressions (map expression_of values.now)) }
{
    let mut size = 0;
    for value in values {
        size += expression_size(value);
    }
    size
}

/// Checks an expression, whose nodes have numbers from `first` on.
///
/// Errors: the first violation, that of an operand before that of its operator.
#[cycle(checked)]
pub fn checked<'a>(
    table: &TypeTable<'a>,
    visible: &Visible<'a>,
    first: NodeId,
    expression: &'a ExpressionNode,
) -> Result<Operand<'a>, Violation>
    requires small { first + expression_size (expression_of expression.now) < 2 ^ 32 }
    ensures worth { IfOk result (λ o. spec_worth (globals_in table.now) (scope_of table.now visible.now) (expression_of expression.now) ≡ Some (worth_of (types_of table.now) o.worth)) }
    ensures small { IfOk result (λ o. IsSmall o.worth) }
    ensures first { IfOk result (λ o. first ≡ o.first) }
    ensures end { IfOk result (λ o. first + expression_size (expression_of expression.now) ≡ o.node + 1) }
    ensures none { IfOk result (λ _. (violation : OneViolation) → ¬ (ExpressionHas (globals_in table.now) (scope_of table.now visible.now) first (expression_of expression.now) violation)) }
    ensures one { IfErr result (ExpressionHas (globals_in table.now) (scope_of table.now visible.now) first (expression_of expression.now)) }
{
    match expression {
        ExpressionNode::Integer(value) => integer(first, *value),
        ExpressionNode::Named(name) => named(table, visible, first, name),
        ExpressionNode::Parenthesized(inner) => {
            let inner = checked(table, visible, first, inner)?;
            Ok(Operand {
                node: inner.node + 1,
                ..inner
            })
        }
        ExpressionNode::Selection(whole, field) => {
            let whole = checked(table, visible, first, whole)?;
            selection(table, whole, field.bytes.as_slice())
        }
        ExpressionNode::Composite(name, values, _) => {
            composite(table, visible, first, name, values.as_slice())
        }
        ExpressionNode::Unary(operator, operand) => {
            let operand = checked(table, visible, first, operand)?;
            before(*operator, operand)
        }
        ExpressionNode::Binary(operator, left, right) => {
            let left = checked(table, visible, first, left)?;
            let right = checked(table, visible, left.node + 1, right)?;
            between(table, *operator, left, right)
        }
        ExpressionNode::Call(function, values, _) => {
            called(table, visible, first, function, values.as_slice())
        }
        ExpressionNode::Receive(from) => receive(table, visible, first, from),
        ExpressionNode::Make(written) => make(table, visible, first, written),
        ExpressionNode::MakeSized(written, size) => {
            make_sized(table, visible, first, size, written)
        }
        ExpressionNode::Length(of) | ExpressionNode::Capacity(of) => {
            length(table, visible, first, of)
        }
    }
}

/// Checks a composite literal of this name and these values, which have nodes from `first` on ("Composite literals").
///
/// Errors: the first violation, that of the name before those of the values.
#[cycle(checked)]
fn composite<'a>(
    table: &TypeTable<'a>,
    visible: &Visible<'a>,
    first: NodeId,
    name: &Name,
    values: &'a [ExpressionNode],
) -> Result<Operand<'a>, Violation>
    requires small { first + expressions_size (expressions (map expression_of values.now)) + 1 < 2 ^ 32 }
    ensures worth { IfOk result (λ o. (trailing : Bool) → spec_worth (globals_in table.now) (scope_of table.now visible.now) (Composite (name_of name.now) (expressions (map expression_of values.now)) trailing) ≡ Some (worth_of (types_of table.now) o.worth)) }
    ensures small { IfOk result (λ o. IsSmall o.worth) }
    ensures first { IfOk result (λ o. first ≡ o.first) }
    ensures end { IfOk result (λ o. first + expressions_size (expressions (map expression_of values.now)) ≡ o.node) }
    ensures none { IfOk result (λ _. (trailing : Bool) → (violation : OneViolation) → ¬ (ExpressionHas (globals_in table.now) (scope_of table.now visible.now) first (Composite (name_of name.now) (expressions (map expression_of values.now)) trailing) violation)) }
    ensures one { IfErr result (λ violation. (trailing : Bool) → ExpressionHas (globals_in table.now) (scope_of table.now visible.now) first (Composite (name_of name.now) (expressions (map expression_of values.now)) trailing) violation) }
{
    let Some(number) = literal_struct(table, visible, name.bytes.as_slice()) else {
        return Err(Violation::Broken(Rule::Visible, first + values_size(values)));
    };
    let worth = Worth::Typed(ValueType::Struct(number));
    if values.is_empty() {
        return Ok(Operand {
            first,
            node: first,
            worth,
        });
    }
    let wanted = Wanted::Fields(fields_at(table, number));
    let node = passed(table, visible, first, values, wanted)?;
    Ok(Operand { first, node, worth })
}

/// Checks that values, which have nodes from `first` on, agree in number and type with those that are wanted, and returns
/// the number after them.
///
/// Errors: the first violation in a value, else a wrong number, else the first value that is not of the type that is wanted.
#[cycle(checked)]
fn passed<'a>(
    table: &TypeTable<'a>,
    visible: &Visible<'a>,
    first: NodeId,
    values: &'a [ExpressionNode],
    wanted: Wanted<'_>,
) -> Result<NodeId, Violation>
    requires small { first + expressions_size (expressions (map expression_of values.now)) + 1 < 2 ^ 32 }
    ensures end { IfOk result (λ end. end ≡ first + expressions_size (expressions (map expression_of values.now))) }
    ensures none { IfOk result (λ _. (violation : OneViolation) → ¬ (ExpressionsHave (globals_in table.now) (scope_of table.now visible.now) first (expressions (map expression_of values.now)) violation)) }
    ensures fits { IfOk result (λ _. (end : ℕ) → (violation : OneViolation) → ¬ (PassedHave (globals_in table.now) (scope_of table.now visible.now) first (map expression_of values.now) (kinds_in (types_of table.now) wanted.entry) end violation)) }
    ensures one { IfErr result (λ violation. (end : ℕ) → end ≡ first + expressions_size (expressions (map expression_of values.now)) + 1 → ExpressionsHave (globals_in table.now) (scope_of table.now visible.now) first (expressions (map expression_of values.now)) violation ⊎ PassedHave (globals_in table.now) (scope_of table.now visible.now) first (map expression_of values.now) (kinds_in (types_of table.now) wanted.entry) end violation) }
{
    let filling = fit(table, visible, first, values, wanted)?;
    if values.len() != wanted.count() {
        return Err(Violation::Broken(Rule::Numbers, filling.end));
    }
    match filling.misfit {
        Some(violation) => Err(violation),
        None => Ok(filling.end),
    }
}

/// Checks values, which have nodes from `first` on, and finds the first one that is not of the type that is wanted.
#[cycle(checked)]
fn fit<'a>(
    table: &TypeTable<'a>,
    visible: &Visible<'a>,
    first: NodeId,
    values: &'a [ExpressionNode],
    wanted: Wanted<'_>,
) -> Result<Filling, Violation>
    requires small { first + expressions_size (expressions (map expression_of values.now)) < 2 ^ 32 }
    ensures end { IfOk result (λ made. made.end ≡ first + expressions_size (expressions (map expression_of values.now))) }
    ensures misfit { IfOk result (λ made. Tells (ValuesFail (globals_in table.now) (scope_of table.now visible.now) first (map expression_of values.now) (kinds_in (types_of table.now) wanted.entry)) made.misfit) }
    ensures none { IfOk result (λ _. (violation : OneViolation) → ¬ (ExpressionsHave (globals_in table.now) (scope_of table.now visible.now) first (expressions (map expression_of values.now)) violation)) }
    ensures one { IfErr result (ExpressionsHave (globals_in table.now) (scope_of table.now visible.now) first (expressions (map expression_of values.now))) }
{
    let mut end = first;
    let mut misfit = None;
    for (number, value) in values.iter().enumerate() {
        let operand = checked(table, visible, end, value)?;
        misfit = first_misfit(table, misfit, operand, wanted.kind_at(number));
        end = operand.node + 1;
    }
    Ok(Filling { end, misfit })
}

/// Checks a call, whose nodes have numbers from `first` on ("Calls").
///
/// Errors: the first violation, that of the function's name before those of the values.
#[cycle(checked)]
pub fn call<'a>(
    table: &TypeTable<'a>,
    visible: &Visible<'a>,
    first: NodeId,
    function: &Name,
    values: &'a [ExpressionNode],
) -> Result<CheckedCall, Violation>
    requires small { first + expressions_size (expressions (map expression_of values.now)) + 1 < 2 ^ 32 }
    ensures node { IfOk result (λ called. first + expressions_size (expressions (map expression_of values.now)) ≡ called.node) }
    ensures function { IfOk result (λ called. callee (globals_in table.now) (scope_of table.now visible.now) (name_of function.now) ≡ IsFunction called.function) }
    ensures none { IfOk result (λ _. (violation : OneViolation) → ¬ (CallWith (globals_in table.now) (scope_of table.now visible.now) first (name_of function.now) (map expression_of values.now) violation)) }
    ensures one { IfErr result (CallWith (globals_in table.now) (scope_of table.now visible.now) first (name_of function.now) (map expression_of values.now)) }
{
    match callee_named(table, visible, function.bytes.as_slice()) {
        Callee::NotDeclared => Err(Violation::Broken(Rule::Visible, first + values_size(values))),
        Callee::NoFunction => Err(Violation::Broken(Rule::Called, first + values_size(values))),
        Callee::Function(number) => {
            let wanted = Wanted::Parameters(parameters_of(table, number));
            let node = passed(table, visible, first, values, wanted)?;
            Ok(CheckedCall {
                node,
                function: number,
            })
        }
    }
}

/// Checks a call that is used as a value, whose nodes have numbers from `first` on.
#[cycle(checked)]
fn called<'a>(
    table: &TypeTable<'a>,
    visible: &Visible<'a>,
    first: NodeId,
    function: &Name,
    values: &'a [ExpressionNode],
) -> Result<Operand<'a>, Violation>
    requires small { first + expressions_size (expressions (map expression_of values.now)) + 1 < 2 ^ 32 }
    ensures worth { IfOk result (λ o. (trailing : Bool) → spec_worth (globals_in table.now) (scope_of table.now visible.now) (Call (name_of function.now) (expressions (map expression_of values.now)) trailing) ≡ Some (worth_of (types_of table.now) o.worth)) }
    ensures small { IfOk result (λ o. IsSmall o.worth) }
    ensures first { IfOk result (λ o. first ≡ o.first) }
    ensures end { IfOk result (λ o. first + expressions_size (expressions (map expression_of values.now)) ≡ o.node) }
    ensures none { IfOk result (λ _. (trailing : Bool) → (violation : OneViolation) → ¬ (ExpressionHas (globals_in table.now) (scope_of table.now visible.now) first (Call (name_of function.now) (expressions (map expression_of values.now)) trailing) violation)) }
    ensures one { IfErr result (λ violation. (trailing : Bool) → ExpressionHas (globals_in table.now) (scope_of table.now visible.now) first (Call (name_of function.now) (expressions (map expression_of values.now)) trailing) violation) }
{
    let called = call(table, visible, first, function, values)?;
    call_value(table, first, called)
}

/// Checks a receive, whose nodes have numbers from `first` on ("Receive operator").
#[cycle(checked)]
pub fn receive<'a>(
    table: &TypeTable<'a>,
    visible: &Visible<'a>,
    first: NodeId,
    from: &'a ExpressionNode,
) -> Result<Operand<'a>, Violation>
    requires small { first + expression_size (expression_of from.now) + 1 < 2 ^ 32 }
    ensures worth { IfOk result (λ o. spec_worth (globals_in table.now) (scope_of table.now visible.now) (Receive (expression_of from.now)) ≡ Some (worth_of (types_of table.now) o.worth)) }
    ensures small { IfOk result (λ o. IsSmall o.worth) }
    ensures first { IfOk result (λ o. first ≡ o.first) }
    ensures node { IfOk result (λ o. first + expression_size (expression_of from.now) ≡ o.node) }
    ensures none { IfOk result (λ _. (violation : OneViolation) → ¬ (ExpressionHas (globals_in table.now) (scope_of table.now visible.now) first (Receive (expression_of from.now)) violation)) }
    ensures one { IfErr result (ExpressionHas (globals_in table.now) (scope_of table.now visible.now) first (Receive (expression_of from.now))) }
{
    let operand = checked(table, visible, first, from)?;
    let node = operand.node + 1;
    let (_, kind) = channel(table, operand)?;
    received(operand.worth, node)?;
    Ok(Operand {
        first,
        node,
        worth: Worth::Typed(kind),
    })
}

/// Checks the channel of a `len`, a `cap` or a `close`, whose nodes have numbers from `first` on.
#[cycle(checked)]
pub fn measured<'a>(
    table: &TypeTable<'a>,
    visible: &Visible<'a>,
    first: NodeId,
    of: &'a ExpressionNode,
) -> Result<Operand<'a>, Violation>
    requires small { first + expression_size (expression_of of.now) + 1 < 2 ^ 32 }
    ensures worth { IfOk result (λ o. spec_worth (globals_in table.now) (scope_of table.now visible.now) (expression_of of.now) ≡ Some (worth_of (types_of table.now) o.worth)) }
    ensures end { IfOk result (λ o. first + expression_size (expression_of of.now) ≡ o.node + 1) }
    ensures none { IfOk result (λ _. (violation : OneViolation) → ¬ (MeasuredHas (globals_in table.now) (scope_of table.now visible.now) first (expression_of of.now) violation)) }
    ensures one { IfErr result (MeasuredHas (globals_in table.now) (scope_of table.now visible.now) first (expression_of of.now)) }
{
    let operand = checked(table, visible, first, of)?;
    channel(table, operand)?;
    Ok(operand)
}

/// Checks a `len` or a `cap`, whose nodes have numbers from `first` on ("Length and capacity").
#[cycle(checked)]
fn length<'a>(
    table: &TypeTable<'a>,
    visible: &Visible<'a>,
    first: NodeId,
    of: &'a ExpressionNode,
) -> Result<Operand<'a>, Violation>
    requires small { first + expression_size (expression_of of.now) + 1 < 2 ^ 32 }
    ensures worth { IfOk result (λ o. spec_worth (globals_in table.now) (scope_of table.now visible.now) (Length (expression_of of.now)) ≡ Some (worth_of (types_of table.now) o.worth)) }
    ensures small { IfOk result (λ o. IsSmall o.worth) }
    ensures first { IfOk result (λ o. first ≡ o.first) }
    ensures node { IfOk result (λ o. first + expression_size (expression_of of.now) ≡ o.node) }
    ensures none { IfOk result (λ _. (violation : OneViolation) → ¬ (MeasuredHas (globals_in table.now) (scope_of table.now visible.now) first (expression_of of.now) violation)) }
    ensures one { IfErr result (MeasuredHas (globals_in table.now) (scope_of table.now visible.now) first (expression_of of.now)) }
{
    let operand = measured(table, visible, first, of)?;
    Ok(Operand {
        first,
        node: operand.node + 1,
        worth: Worth::Typed(ValueType::Int),
    })
}

/// Checks a `make` of a channel with a buffer, whose nodes have numbers from `first` on ("Making slices, maps and
/// channels").
#[cycle(checked)]
fn make_sized<'a>(
    table: &TypeTable<'a>,
    visible: &Visible<'a>,
    first: NodeId,
    size: &'a ExpressionNode,
    written: &'a TypeNode,
) -> Result<Operand<'a>, Violation>
    requires small { first + type_size (type_of written.now) + expression_size (expression_of size.now) + 1 < 2 ^ 32 }
    ensures worth { IfOk result (λ o. spec_worth (globals_in table.now) (scope_of table.now visible.now) (MakeSized (type_of written.now) (expression_of size.now)) ≡ Some (worth_of (types_of table.now) o.worth)) }
    ensures small { IfOk result (λ o. IsSmall o.worth) }
    ensures first { IfOk result (λ o. first ≡ o.first) }
    ensures node { IfOk result (λ o. first + type_size (type_of written.now) + expression_size (expression_of size.now) ≡ o.node) }
    ensures none { IfOk result (λ _. (violation : OneViolation) → ¬ (ExpressionHas (globals_in table.now) (scope_of table.now visible.now) first (MakeSized (type_of written.now) (expression_of size.now)) violation)) }
    ensures one { IfErr result (ExpressionHas (globals_in table.now) (scope_of table.now visible.now) first (MakeSized (type_of written.now) (expression_of size.now))) }
{
    let Some(kind) = type_in(table, visible, written) else {
        return Err(Violation::Broken(Rule::Visible, first));
    };
    let size = checked(table, visible, first + type_size(written), size)?;
    buffer_size(size)?;
    made(kind, first, size.node + 1)
}

/// The constant value of an integer literal; `None` if it is too large.
pub fn worth_literal<'a>(value: Option<u128>) -> Option<Worth<'a>>
    ensures worth { (types : List (List ℕ)) → option_map (worth_of types) result ≡ option_map Constant (literal value) }
    ensures small { IfSome result IsSmall }
{
    match literal(value) {
        Some(value) => Some(Worth::Constant(value)),
        None => None,
    }
}

/// The type of a composite literal of the type `name`; `None` if that is no struct type.
pub fn worth_composite<'a>(
    table: &TypeTable<'a>,
    visible: &Visible<'a>,
    name: &[u8],
) -> Option<Worth<'a>>
    ensures worth { option_map (worth_of (types_of table.now)) result ≡ option_map (λ n. Typed (StructType n)) (literal_struct (globals_in table.now) (scope_of table.now visible.now) name.now) }
    ensures small { IfSome result IsSmall }
{
    match literal_struct(table, visible, name) {
        Some(number) => Some(Worth::Typed(ValueType::Struct(number))),
        None => None,
    }
}

/// The type of the operand's field `field`; `None` if there is none.
pub fn worth_selected<'a>(
    table: &TypeTable<'a>,
    whole: Option<Worth<'_>>,
    field: &[u8],
) -> Option<Worth<'a>>
    ensures worth { option_map (worth_of (types_of table.now)) result ≡ option_and_then (selected_worth (globals_in table.now) field.now) (option_map (worth_of (types_of table.now)) whole.entry) }
    ensures small { IfSome result IsSmall }
{
    match whole {
        Some(whole) => selected_worth(table, whole, field),
        None => None,
    }
}

/// The type or constant value of a unary operation; `None` if the operand has none or the operator doesn't apply.
pub fn worth_before<'a>(operator: UnaryOperator, operand: Option<Worth<'_>>) -> Option<Worth<'a>>
    requires { IfSome operand IsSmall }
    ensures worth { (types : List (List ℕ)) → option_map (worth_of types) result ≡ option_and_then (λ a. result_ok (unary_worth operator a)) (option_map (worth_of types) operand.entry) }
    ensures small { IfSome result IsSmall }
{
    match operand {
        Some(operand) => unary_worth(operator, operand).ok(),
        None => None,
    }
}

/// The type or constant value of a binary operation; `None` if an operand has none or the operator doesn't apply.
pub fn worth_between<'a>(
    table: &TypeTable<'_>,
    operator: BinaryOperator,
    left: Option<Worth<'_>>,
    right: Option<Worth<'_>>,
) -> Option<Worth<'a>>
    requires left { IfSome left IsSmall }
    requires right { IfSome right IsSmall }
    ensures worth { option_map (worth_of (types_of table.now)) result ≡ option_and_then (λ a. option_and_then (λ b. result_ok (binary_worth operator a b)) (option_map (worth_of (types_of table.now)) right.entry)) (option_map (worth_of (types_of table.now)) left.entry) }
    ensures small { IfSome result IsSmall }
{
    match (left, right) {
        (Some(left), Some(right)) => binary_worth(table, operator, left, right).ok(),
        _ => None,
    }
}

/// The type of a call of `function`; `None` if that is no function with a result.
pub fn worth_called<'a>(
    table: &TypeTable<'a>,
    visible: &Visible<'a>,
    function: &[u8],
) -> Option<Worth<'a>>
    ensures worth { option_map (worth_of (types_of table.now)) result ≡ option_map Typed (result_type (globals_in table.now) (callee (globals_in table.now) (scope_of table.now visible.now) function.now)) }
    ensures small { IfSome result IsSmall }
{
    match callee_named(table, visible, function) {
        Callee::Function(number) => match result_of(table, number) {
            Some(kind) => Some(Worth::Typed(kind)),
            None => None,
        },
        _ => None,
    }
}

/// The type of a receive; `None` if its operand is no channel.
pub fn worth_received<'a>(table: &TypeTable<'_>, from: Option<Worth<'a>>) -> Option<Worth<'a>>
    ensures worth { option_map (worth_of (types_of table.now)) result ≡ option_map Typed (element_of (option_map (worth_of (types_of table.now)) from.entry)) }
    ensures small { IfSome result IsSmall }
{
    match from {
        Some(Worth::Typed(ValueType::Channel(_, element))) => {
            Some(Worth::Typed(element_in(table, element)))
        }
        _ => None,
    }
}

/// The type of a `make` of the type `written`; `None` if that is no channel type.
pub fn worth_made<'a>(
    table: &TypeTable<'a>,
    visible: &Visible<'a>,
    written: &'a TypeNode,
) -> Option<Worth<'a>>
    ensures worth { option_map (worth_of (types_of table.now)) result ≡ option_map Typed (made_of (type_in (globals_in table.now).types (scope_of table.now visible.now) (type_of written.now))) }
    ensures small { IfSome result IsSmall }
{
    match type_in(table, visible, written) {
        Some(ValueType::Channel(direction, element)) => {
            Some(Worth::Typed(ValueType::Channel(direction, element)))
        }
        _ => None,
    }
}

/// The type or constant value of an expression; `None` if it, or a part of it, violates a typing rule.
pub fn worth<'a>(
    table: &TypeTable<'a>,
    visible: &Visible<'a>,
    expression: &'a ExpressionNode,
) -> Option<Worth<'a>>
    ensures worth { option_map (worth_of (types_of table.now)) result ≡ spec_worth (globals_in table.now) (scope_of table.now visible.now) (expression_of expression.now) }
    ensures small { IfSome result IsSmall }
{
    match expression {
        ExpressionNode::Integer(value) => worth_literal(*value),
        ExpressionNode::Named(name) => named_worth(table, visible, name.bytes.as_slice()),
        ExpressionNode::Parenthesized(inner) => worth(table, visible, inner),
        ExpressionNode::Selection(whole, field) => {
            worth_selected(table, worth(table, visible, whole), field.bytes.as_slice())
        }
        ExpressionNode::Composite(name, _, _) => {
            worth_composite(table, visible, name.bytes.as_slice())
        }
        ExpressionNode::Unary(operator, operand) => {
            worth_before(*operator, worth(table, visible, operand))
        }
        ExpressionNode::Binary(operator, left, right) => worth_between(
            table,
            *operator,
            worth(table, visible, left),
            worth(table, visible, right),
        ),
        ExpressionNode::Call(function, _, _) => {
            worth_called(table, visible, function.bytes.as_slice())
        }
        ExpressionNode::Receive(from) => worth_received(table, worth(table, visible, from)),
        ExpressionNode::Make(written) | ExpressionNode::MakeSized(written, _) => {
            worth_made(table, visible, written)
        }
        ExpressionNode::Length(_) | ExpressionNode::Capacity(_) => {
            Some(Worth::Typed(ValueType::Int))
        }
    }
}
