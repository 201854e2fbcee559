//! The values of expressions.

ghost use Rattle.std.specs.Prelude.{◌≡◌, ◌||◌, ◌∷◌, [], ℕ, List, true, false, IfSome, IfNone, IfOk, IfErr, map, option_map};
ghost use Rattle.syntax.specs.Tree.{Capacity, Length, Receive, expressions};
ghost use Rattle.syntax.specs.View.{expression_of, name_of};
ghost use Rattle.type_table.specs.Visible.{types_of, globals_in};
ghost use Rattle.typing_rules.specs.Worths.{is_equality, is_order};
ghost use Rattle.word.specs.Apply.{value as applied};
ghost use Rattle.type_table.specs.Zeros.{zero_words};
ghost use Rattle.checker_base.specs.Views.{worth_of};
ghost use Rattle.meaning.specs.Expressions.{before, beside, between, called, compared, exactly, fields, number_of, one_word, operator_at, right_values, selected, type_of, value, values, word_in};
ghost use Rattle.meaning.specs.Values.{Value};
ghost use Rattle.meaning.specs.Variables.{lookup, value_of};
ghost use Rattle.meaning.specs.Worked.{Worked, and_then, ready};
ghost use Rattle.reference_scope.specs.Scopes.{blocks_of};
ghost use Rattle.reference_scope.specs.Parts.{values_of};
ghost use Rattle.reference_value.specs.Stops.{Comes, Stops};
ghost use Rattle.reference_value.specs.Values.{by_parts, fixed};

use crate::callee::number_of;
use crate::fault::{Stop, had};
use crate::given::Given;
use crate::kind::{element_kind, kind_in, received_from};
use crate::operation::{called, item_received, made, measured, received};
use crate::worth::worth;
use checker_base::worth::Worth;
use reference_scope::part::selected;
use reference_scope::scope::Scope;
use reference_scope::words::{
    before, between, channel_in, number_in, put_last, settled, single, word_in, wrapped,
};
use std::alloc::{AllocError, Global};
use syntax::{BinaryOperator, ExpressionNode, Name, UnaryOperator};
use type_table::scope::{is_nil, is_truth};
use type_table::table::TypeTable;
use type_table::zero::zero;
use word::request::Request;
use word::value::Word;

/// Whether a comparison of two constants holds; of another operator none.
fn compared(operator: BinaryOperator, a: i128, b: i128) -> Option<bool>
    ensures some { IfSome result (λ truth. one_word (applied (operator_at operator (Word.Int a)) (Word.Int a) (Word.Int b)) ≡ ready (Word.Bool truth ∷ [])) }
    ensures comparison { IfSome result (λ _. (is_equality operator || is_order operator) ≡ true) }
    ensures none { IfNone result ((is_equality operator || is_order operator) ≡ false) }
{
    match operator {
        BinaryOperator::Equal => Some(a == b),
        BinaryOperator::NotEqual => Some(a != b),
        BinaryOperator::Less => Some(a < b),
        BinaryOperator::LessEqual => Some(a <= b),
        BinaryOperator::Greater => Some(a > b),
        BinaryOperator::GreaterEqual => Some(a >= b),
        _ => None,
    }
}

/// The word of a truth value's name, or of `nil`; of another name none.
fn fixed(name: &[u8]) -> Option<Word>
    ensures { result ≡ fixed name.now }
{
    if is_truth(name) {
        Some(Word::Bool(name == b"true".as_slice()))
    } else if is_nil(name) {
        Some(Word::Chan(None))
    } else {
        None
    }
}

/// The word of an exact constant.
fn number(table: &TypeTable<'_>, worth: Option<Worth<'_>>) -> Option<Word>
    ensures some { IfSome result (λ word. (other : Worked Value) → exactly (option_map (worth_of (types_of table.now)) worth.entry) other ≡ ready (word ∷ [])) }
    ensures none { IfNone result ((other : Worked Value) → exactly (option_map (worth_of (types_of table.now)) worth.entry) other ≡ other) }
{
    match worth {
        Some(Worth::Constant(number)) => Some(Word::Int(wrapped(number))),
        _ => None,
    }
}

/// The word of a comparison of two constants.
fn comparison(
    table: &TypeTable<'_>,
    operator: BinaryOperator,
    left: Option<Worth<'_>>,
    right: Option<Worth<'_>>,
) -> Option<Word>
    ensures some { IfSome result (λ word. (other : Worked Value) → compared operator (option_map (worth_of (types_of table.now)) left.entry) (option_map (worth_of (types_of table.now)) right.entry) other ≡ ready (word ∷ [])) }
    ensures none { IfNone result ((other : Worked Value) → compared operator (option_map (worth_of (types_of table.now)) left.entry) (option_map (worth_of (types_of table.now)) right.entry) other ≡ other) }
{
    match (left, right) {
        (Some(Worth::Constant(a)), Some(Worth::Constant(b))) => match compared(operator, a, b) {
            Some(truth) => Some(Word::Bool(truth)),
            None => None,
        },
        _ => None,
    }
}

/// The word of a constant, of a comparison of two, or of a name that stands for no variable; of another expression none.
fn constant<'t>(
    table: &TypeTable<'t>,
    scope: &Scope<'t>,
    expression: &'t ExpressionNode,
) -> Option<Word>
    ensures some { IfSome result (λ word. value (globals_in table.now) (blocks_of (types_of table.now) scope.now) (expression_of expression.now) ≡ ready (word ∷ [])) }
    ensures none { IfNone result (value (globals_in table.now) (blocks_of (types_of table.now) scope.now) (expression_of expression.now) ≡ by_parts (globals_in table.now) (blocks_of (types_of table.now) scope.now) (expression_of expression.now)) }
{
    match expression {
        ExpressionNode::Integer(_) => number(table, worth(table, scope, expression)),
        ExpressionNode::Unary(_, _) => number(table, worth(table, scope, expression)),
        ExpressionNode::Binary(operator, left, right) => {
            match number(table, worth(table, scope, expression)) {
                Some(word) => Some(word),
                None => comparison(
                    table,
                    *operator,
                    worth(table, scope, left),
                    worth(table, scope, right),
                ),
            }
        }
        ExpressionNode::Named(name) => fixed(name.bytes.as_slice()),
        _ => None,
    }
}

/// The value of the variable of this name.
fn held(alloc: Global, scope: &Scope<'_>, name: &[u8]) -> Result<Vec<Word>, AllocError>
    ensures { (types : List (List ℕ)) → IfOk result (λ v. v.items ≡ value_of (lookup (blocks_of types scope.now) name.now)) }
{
    match scope.lookup(name) {
        Some(variable) => Vec::from_slice(alloc, variable.words.as_slice()),
        None => Ok(Vec::new(alloc)),
    }
}

/// The zero value of an expression's type.
fn zeros<'t>(
    alloc: Global,
    table: &TypeTable<'t>,
    scope: &Scope<'t>,
    expression: &'t ExpressionNode,
) -> Result<Vec<Word>, AllocError>
    ensures { IfOk result (λ v. v.items ≡ zero_words (globals_in table.now).structs (type_of (globals_in table.now) (blocks_of (types_of table.now) scope.now) (expression_of expression.now))) }
{
    let item = zero(alloc, table, kind_in(table, scope, expression));
    Vec::from_slice(alloc, item.words())
}

/// The field of this name in a value of an expression's type.
fn field_in<'t>(
    alloc: Global,
    table: &TypeTable<'t>,
    scope: &Scope<'t>,
    whole: &'t ExpressionNode,
    field: &Name,
    words: &[Word],
) -> Result<Vec<Word>, AllocError>
    ensures { IfOk result (λ v. v.items ≡ selected (globals_in table.now) (blocks_of (types_of table.now) scope.now) (type_of (globals_in table.now) (blocks_of (types_of table.now) scope.now) (expression_of whole.now)) (name_of field.now) words.now) }
{
    let kind = kind_in(table, scope, whole);
    selected(alloc, table, kind, field.bytes.as_slice(), words)
}

/// The value of an operator before a value.
///
/// Errors: the panic that it meets; `Memory`.
fn unary<'g>(
    alloc: Global,
    operator: UnaryOperator,
    a: &[Word],
    given: &'g [Given],
) -> Result<(Vec<Word>, &'g [Given]), Stop>
    ensures ok { IfOk result (λ r. Comes (before operator (word_in a.now)) given.now r.0.items r.1.now) }
    ensures err { IfErr result (Stops (before operator (word_in a.now)) given.now) }
{
    let word = before(operator, word_in(a))?;
    had(single(alloc, word), given)
}

/// The value of an operator between a word and a value.
///
/// Errors: the panic that it meets; `Memory`.
fn binary<'g>(
    alloc: Global,
    operator: BinaryOperator,
    a: Word,
    b: &[Word],
    given: &'g [Given],
) -> Result<(Vec<Word>, &'g [Given]), Stop>
    ensures ok { IfOk result (λ r. Comes (between operator a (word_in b.now)) given.now r.0.items r.1.now) }
    ensures err { IfErr result (Stops (between operator a (word_in b.now)) given.now) }
{
    let word = between(operator, a, word_in(b))?;
    had(single(alloc, word), given)
}

/// The value of an expression, and what is left of what was given.
///
/// Errors: the panic that is met first; what has to be done next; `Memory`.
#[cycle(value)]
pub fn value<'a, 'g, 't>(
    alloc: Global,
    table: &'a TypeTable<'t>,
    scope: &'a Scope<'t>,
    expression: &'t ExpressionNode,
    given: &'g [Given],
) -> Result<(Vec<Word>, &'g [Given]), Stop>
    ensures ok { IfOk result (λ r. Comes (value (globals_in table.now) (blocks_of (types_of table.now) scope.now) (expression_of expression.now)) given.now r.0.items r.1.now) }
    ensures err { IfErr result (Stops (value (globals_in table.now) (blocks_of (types_of table.now) scope.now) (expression_of expression.now)) given.now) }
{
    if let Some(word) = constant(table, scope, expression) {
        return had(single(alloc, word), given);
    }
    match expression {
        ExpressionNode::Integer(_) => Ok((Vec::new(alloc), given)),
        ExpressionNode::Named(name) => Ok((held(alloc, scope, name.bytes.as_slice())?, given)),
        ExpressionNode::Parenthesized(inner) => value(alloc, table, scope, inner, given),
        ExpressionNode::Selection(whole, field) => {
            let (words, given) = value(alloc, table, scope, whole, given)?;
            let made = field_in(alloc, table, scope, whole, field, words.as_slice());
            had(made, given)
        }
        ExpressionNode::Composite(_, values, _) => {
            if values.is_empty() {
                return had(zeros(alloc, table, scope, expression), given);
            }
            fields(alloc, table, scope, values.as_slice(), given)
        }
        ExpressionNode::Unary(operator, operand) => {
            let (a, given) = value(alloc, table, scope, operand, given)?;
            unary(alloc, *operator, a.as_slice(), given)
        }
        ExpressionNode::Binary(operator, left, right) => {
            let (a, given) = value(alloc, table, scope, left, given)?;
            let a = word_in(a.as_slice());
            beside(alloc, table, scope, *operator, a, right, given)
        }
        ExpressionNode::Call(name, all, _) => {
            call(alloc, table, scope, name, all.as_slice(), given)
        }
        ExpressionNode::Receive(channel) => receive(alloc, table, scope, channel, given),
        ExpressionNode::Make(kind) => made(alloc, table, kind, 0, given),
        ExpressionNode::MakeSized(kind, size) => {
            let (n, given) = value(alloc, table, scope, size, given)?;
            made(alloc, table, kind, number_in(word_in(n.as_slice())), given)
        }
        ExpressionNode::Length(channel) => length(alloc, table, scope, channel, given),
        ExpressionNode::Capacity(channel) => capacity(alloc, table, scope, channel, given),
    }
}

/// The value of an operator between a word and an operand, which `&&` and `||` evaluate only if the word doesn't settle them.
///
/// Errors: the panic that is met first; what has to be done next; `Memory`.
#[cycle(value)]
pub fn beside<'a, 'g, 't>(
    alloc: Global,
    table: &'a TypeTable<'t>,
    scope: &'a Scope<'t>,
    operator: BinaryOperator,
    a: Word,
    right: &'t ExpressionNode,
    given: &'g [Given],
) -> Result<(Vec<Word>, &'g [Given]), Stop>
    ensures ok { IfOk result (λ r. Comes (beside operator a (value (globals_in table.now) (blocks_of (types_of table.now) scope.now) (expression_of right.now))) given.now r.0.items r.1.now) }
    ensures err { IfErr result (Stops (beside operator a (value (globals_in table.now) (blocks_of (types_of table.now) scope.now) (expression_of right.now))) given.now) }
{
    if let Some(word) = settled(operator, a) {
        return had(single(alloc, word), given);
    }
    let (b, given) = value(alloc, table, scope, right, given)?;
    binary(alloc, operator, a, b.as_slice(), given)
}

/// The value of a call.
///
/// Errors: the panic that is met first; what has to be done next; `Memory`.
#[cycle(value)]
fn call<'a, 'g, 't>(
    alloc: Global,
    table: &'a TypeTable<'t>,
    scope: &'a Scope<'t>,
    name: &'a Name,
    all: &'t [ExpressionNode],
    given: &'g [Given],
) -> Result<(Vec<Word>, &'g [Given]), Stop>
    ensures ok { IfOk result (λ r. Comes (and_then (values (globals_in table.now) (blocks_of (types_of table.now) scope.now) (expressions (map expression_of all.now))) (called (globals_in table.now) (number_of (globals_in table.now) (name_of name.now)))) given.now r.0.items r.1.now) }
    ensures err { IfErr result (Stops (and_then (values (globals_in table.now) (blocks_of (types_of table.now) scope.now) (expressions (map expression_of all.now))) (called (globals_in table.now) (number_of (globals_in table.now) (name_of name.now)))) given.now) }
{
    let (arguments, given) = values(alloc, table, scope, all, given)?;
    let number = number_of(table, name.bytes.as_slice());
    called(alloc, table, number, arguments, given)
}

/// The value of a receive: an item.
///
/// Errors: the panic that is met first; what has to be done next; `Memory`.
#[cycle(value)]
fn receive<'a, 'g, 't>(
    alloc: Global,
    table: &'a TypeTable<'t>,
    scope: &'a Scope<'t>,
    channel: &'t ExpressionNode,
    given: &'g [Given],
) -> Result<(Vec<Word>, &'g [Given]), Stop>
    ensures ok { IfOk result (λ r. Comes (value (globals_in table.now) (blocks_of (types_of table.now) scope.now) (Receive (expression_of channel.now))) given.now r.0.items r.1.now) }
    ensures err { IfErr result (Stops (value (globals_in table.now) (blocks_of (types_of table.now) scope.now) (Receive (expression_of channel.now))) given.now) }
{
    let (c, given) = value(alloc, table, scope, channel, given)?;
    let kind = element_kind(table, scope, channel);
    item_received(alloc, table, kind, c.as_slice(), given)
}

/// The value of a `len`.
///
/// Errors: the panic that is met first; what has to be done next; `Memory`.
#[cycle(value)]
fn length<'a, 'g, 't>(
    alloc: Global,
    table: &'a TypeTable<'t>,
    scope: &'a Scope<'t>,
    channel: &'t ExpressionNode,
    given: &'g [Given],
) -> Result<(Vec<Word>, &'g [Given]), Stop>
    ensures ok { IfOk result (λ r. Comes (value (globals_in table.now) (blocks_of (types_of table.now) scope.now) (Length (expression_of channel.now))) given.now r.0.items r.1.now) }
    ensures err { IfErr result (Stops (value (globals_in table.now) (blocks_of (types_of table.now) scope.now) (Length (expression_of channel.now))) given.now) }
{
    let (c, given) = value(alloc, table, scope, channel, given)?;
    let request = Request::Len(channel_in(word_in(c.as_slice())));
    measured(alloc, request, given)
}

/// The value of a `cap`.
///
/// Errors: the panic that is met first; what has to be done next; `Memory`.
#[cycle(value)]
fn capacity<'a, 'g, 't>(
    alloc: Global,
    table: &'a TypeTable<'t>,
    scope: &'a Scope<'t>,
    channel: &'t ExpressionNode,
    given: &'g [Given],
) -> Result<(Vec<Word>, &'g [Given]), Stop>
    ensures ok { IfOk result (λ r. Comes (value (globals_in table.now) (blocks_of (types_of table.now) scope.now) (Capacity (expression_of channel.now))) given.now r.0.items r.1.now) }
    ensures err { IfErr result (Stops (value (globals_in table.now) (blocks_of (types_of table.now) scope.now) (Capacity (expression_of channel.now))) given.now) }
{
    let (c, given) = value(alloc, table, scope, channel, given)?;
    let request = Request::Cap(channel_in(word_in(c.as_slice())));
    measured(alloc, request, given)
}

/// The words of the fields of a literal, in order.
///
/// Errors: the panic that is met first; what has to be done next; `Memory`.
#[cycle(value)]
fn fields<'a, 'g, 't>(
    alloc: Global,
    table: &'a TypeTable<'t>,
    scope: &'a Scope<'t>,
    values: &'t [ExpressionNode],
    given: &'g [Given],
) -> Result<(Vec<Word>, &'g [Given]), Stop>
    ensures ok { IfOk result (λ r. Comes (fields (globals_in table.now) (blocks_of (types_of table.now) scope.now) (expressions (map expression_of values.now))) given.now r.0.items r.1.now) }
    ensures err { IfErr result (Stops (fields (globals_in table.now) (blocks_of (types_of table.now) scope.now) (expressions (map expression_of values.now))) given.now) }
{
    let mut words = Vec::new(alloc);
    let mut left = given;
    for expression in values {
        let (own, more) = value(alloc, table, scope, expression, left)?;
        words.extend_from_slice(own.as_slice())?;
        left = more;
    }
    Ok((words, left))
}

/// One value after the other.
///
/// Errors: the panic that is met first; what has to be done next; `Memory`.
#[cycle(value)]
pub fn values<'a, 'g, 't>(
    alloc: Global,
    table: &'a TypeTable<'t>,
    scope: &'a Scope<'t>,
    all: &'t [ExpressionNode],
    given: &'g [Given],
) -> Result<(Vec<Vec<Word>>, &'g [Given]), Stop>
    ensures ok { IfOk result (λ r. Comes (values (globals_in table.now) (blocks_of (types_of table.now) scope.now) (expressions (map expression_of all.now))) given.now (values_of r.0.items) r.1.now) }
    ensures err { IfErr result (Stops (values (globals_in table.now) (blocks_of (types_of table.now) scope.now) (expressions (map expression_of all.now))) given.now) }
{
    let mut made = Vec::new(alloc);
    let mut left = given;
    for expression in all {
        let (own, more) = value(alloc, table, scope, expression, left)?;
        put_last(&mut made, own)?;
        left = more;
    }
    Ok((made, left))
}

/// The values that a right side gives to `count` lvalues: one receive gives two of them the item and whether it was sent.
///
/// Errors: the panic that is met first; what has to be done next; `Memory`.
#[tactic(auto, using(crate::proofs::Rights::all_values))]
pub fn right_values<'g, 't>(
    alloc: Global,
    table: &TypeTable<'t>,
    scope: &Scope<'t>,
    count: usize,
    right: &'t [ExpressionNode],
    given: &'g [Given],
) -> Result<(Vec<Vec<Word>>, &'g [Given]), Stop>
    ensures ok { IfOk result (λ r. Comes (right_values (globals_in table.now) (blocks_of (types_of table.now) scope.now) count (map expression_of right.now)) given.now (values_of r.0.items) r.1.now) }
    ensures err { IfErr result (Stops (right_values (globals_in table.now) (blocks_of (types_of table.now) scope.now) count (map expression_of right.now)) given.now) }
{
    match received_from(count, right) {
        Some(channel) => {
            let (c, given) = value(alloc, table, scope, channel, given)?;
            let kind = element_kind(table, scope, channel);
            received(alloc, table, kind, c.as_slice(), given)
        }
        None => values(alloc, table, scope, right, given),
    }
}
