//! The check of the heads of functions.

ghost use Rattle.std.specs.Prelude.{◌≡◌, ℕ, ◌+◌, ◌++◌, ◌^◌, ◌<◌, ◌≤◌, ◌||◌, Option, Some, List, map, option_map, length, sum_by, IfOk, IfErr};
ghost use Rattle.syntax.specs.Measures.{if_any, type_size, declared_size, top_size};
ghost use Rattle.syntax.specs.View.{type_of, function_of, top_of};
ghost use Rattle.type_table.specs.declared.value_type.ValueType.{ValueType as OneType};
ghost use Rattle.type_table.specs.Views.{kind_of, field_in, yield_of as yield_in, signature_of, function_names as names_in};
ghost use Rattle.typing_rules.specs.declared.violation.Violation.{Violation as OneViolation};
ghost use Rattle.checker_base.specs.Views.{Refuses};
ghost use Rattle.typing_rules.specs.Kinds.{function_name, function_names, fields_declared, yield_of, kinds_in, signature, signature_in, signatures};
ghost use Rattle.typing_rules.specs.Declarations.{IfTypeHas, HeadHas, HeaderHas, TopHeaderHas, counting_function, HeadersHave};

use crate::group::{Listed, all_groups};
use crate::name::{is_function_taken, own_node};
use checker_base::refusal::Refusal;
use go_text::{LimitKind, Rule};
use std::alloc::{AllocError, Global};
use syntax::size::type_size;
use syntax::{FunctionNode, NodeId, TopNode, TypeNode};
use type_table::entry::{FieldEntry, FunctionEntry};
use type_table::name_list::NameList;
use type_table::value_type::{ValueType, global_type_in};
use typing_rules::role::Role;
use typing_rules::violation::Violation;

/// How many functions a file may have.
const MOST_FUNCTIONS: usize = 4096;

/// The type of a function's result, if it has one, whose nodes have numbers from `first` on.
fn optional_type<'a>(
    types: &NameList<'_>,
    first: NodeId,
    written: &'a Option<TypeNode>,
) -> Result<Option<ValueType<'a>>, Violation>
    ensures kind { IfOk result (λ kind. yield_in types.now kind ≡ yield_of types.now (option_map type_of written.now)) }
    ensures none { IfOk result (λ _. (violation : OneViolation) → ¬ (IfTypeHas types.now (option_map type_of written.now) first violation)) }
    ensures one { IfErr result (IfTypeHas types.now (option_map type_of written.now) first) }
{
    match written {
        None => Ok(None),
        Some(node) => match global_type_in(types, node) {
            None => Err(Violation::Broken(Rule::Visible, first)),
            Some(kind) => Ok(Some(kind)),
        },
    }
}

/// How many nodes the type of a function's result has, if it has one.
fn optional_size(written: &Option<TypeNode>) -> NodeId
    requires small { if_any type_size (option_map type_of written.now) < 2 ^ 32 }
    ensures { result ≡ if_any type_size (option_map type_of written.now) }
{
    match written {
        None => 0,
        Some(node) => type_size(node),
    }
}

/// What comes after a function's name: its parameters, the type of its result if it has one, and the first node of its
/// body.
#[derive(Drop)]
pub struct Head<'a> {
    pub parameters: Vec<FieldEntry<'a>>,
    pub result: Option<ValueType<'a>>,
    pub end: NodeId,
}

/// Checks what comes after a function's name, whose nodes have numbers from `first` on.
pub fn function_head<'a>(
    alloc: Global,
    types: &NameList<'_>,
    first: NodeId,
    function: &'a FunctionNode,
) -> Result<Head<'a>, Refusal>
    requires small { first + sum_by declared_size (function_of function.now).parameters + if_any type_size (function_of function.now).result < 2 ^ 32 }
    ensures parameters { IfOk result (λ head. map (field_in types.now) head.parameters.items ≡ fields_declared types.now (function_of function.now).parameters) }
    ensures kind { IfOk result (λ head. yield_in types.now head.result ≡ yield_of types.now (function_of function.now).result) }
    ensures end { IfOk result (λ head. head.end ≡ first + sum_by declared_size (function_of function.now).parameters + if_any type_size (function_of function.now).result) }
    ensures none { IfOk result (λ _. (violation : OneViolation) → ¬ (HeadHas types.now first (function_of function.now) violation)) }
    ensures one { IfErr result (Refuses (HeadHas types.now first (function_of function.now))) }
{
    let all = function.parameters.as_slice();
    let Listed { entries, end } = all_groups(alloc, Role::Parameter, types, first, all)?;
    let result = optional_type(types, end, &function.result)?;
    Ok(Head {
        parameters: entries,
        result,
        end: end + optional_size(&function.result),
    })
}

/// The types of parameters.
fn kinds<'a>(alloc: Global, parameters: &[FieldEntry<'a>]) -> Result<Vec<ValueType<'a>>, AllocError>
    ensures { IfOk result (λ all. (types : List (List ℕ)) → map (λ (kind : OneType). Some (kind_of types kind)) all.items ≡ kinds_in (map (field_in types) parameters.now)) }
{
    let mut all = Vec::new(alloc);
    for parameter in parameters {
        all.push(parameter.kind)?;
    }
    Ok(all)
}

/// Checks what comes after a function's name, and returns the function.
fn entry<'a>(
    alloc: Global,
    types: &NameList<'_>,
    first: NodeId,
    function: &'a FunctionNode,
) -> Result<FunctionEntry<'a>, Refusal>
    requires small { first + sum_by declared_size (function_of function.now).parameters + if_any type_size (function_of function.now).result < 2 ^ 32 }
    ensures signature { IfOk result (λ entry. signature_of types.now entry ≡ signature types.now (function_of function.now)) }
    ensures none { IfOk result (λ _. (violation : OneViolation) → ¬ (HeadHas types.now first (function_of function.now) violation)) }
    ensures one { IfErr result (Refuses (HeadHas types.now first (function_of function.now))) }
{
    let head = function_head(alloc, types, first, function)?;
    let parameters = kinds(alloc, head.parameters.as_slice())?;
    Ok(FunctionEntry {
        name: &function.name,
        parameters,
        result: head.result,
    })
}

/// Checks the head of a function, of number `number`, whose nodes have numbers from `first` on to `node`.
fn header<'a>(
    alloc: Global,
    types: &NameList<'_>,
    functions: &NameList<'_>,
    number: usize,
    first: NodeId,
    node: NodeId,
    function: &'a FunctionNode,
) -> Result<FunctionEntry<'a>, Refusal>
    requires small { first + sum_by declared_size (function_of function.now).parameters + if_any type_size (function_of function.now).result < 2 ^ 32 }
    ensures signature { IfOk result (λ entry. signature_of types.now entry ≡ signature types.now (function_of function.now)) }
    ensures none { IfOk result (λ _. (end : ℕ) → end ≡ node + 1 → (violation : OneViolation) → ¬ (HeaderHas types.now functions.now number first end (function_of function.now) violation)) }
    ensures one { IfErr result (Refuses (λ violation. (end : ℕ) → end ≡ node + 1 → HeaderHas types.now functions.now number first end (function_of function.now) violation)) }
{
    if is_function_taken(types, functions, number, function.name.bytes.as_slice()) {
        return Err(Refusal::Violated(Violation::Broken(Rule::Declared, node)));
    }
    if number >= MOST_FUNCTIONS {
        return Err(Refusal::Violated(Violation::Exceeded(LimitKind::Declarations, node)));
    }
    entry(alloc, types, first, function)
}

/// Checks the head of a function, if this is one, whose nodes have numbers from `first` on, and returns the number after the
/// declaration. The entries get it.
fn top_header<'a>(
    alloc: Global,
    types: &NameList<'_>,
    functions: &NameList<'_>,
    entries: &mut Vec<FunctionEntry<'a>>,
    first: NodeId,
    top: &'a TopNode,
) -> Result<NodeId, Refusal>
    requires small { first + top_size (top_of top.now) < 2 ^ 32 }
    ensures end { IfOk result (λ end. end ≡ first + top_size (top_of top.now)) }
    ensures count { IfOk result (λ _. length entries.new.items ≡ counting_function (length entries.old.items) (top_of top.now)) }
    ensures names { IfOk result (λ _. names_in entries.new.items ≡ names_in entries.old.items ++ function_name (top_of top.now)) }
    ensures signatures { IfOk result (λ _. map (signature_of types.now) entries.new.items ≡ map (signature_of types.now) entries.old.items ++ signature_in types.now (top_of top.now)) }
    ensures none { IfOk result (λ _. (violation : OneViolation) → ¬ (TopHeaderHas types.now functions.now (length entries.old.items) first (top_of top.now) violation)) }
    ensures one { IfErr result (Refuses (TopHeaderHas types.now functions.now (length entries.old.items) first (top_of top.now))) }
{
    let node = own_node(first, top);
    match top {
        TopNode::Struct(_) => Ok(node + 1),
        TopNode::Function(function) => {
            let number = entries.len();
            let entry = header(alloc, types, functions, number, first, node, function)?;
            entries.push(entry)?;
            Ok(node + 1)
        }
    }
}

/// Checks the heads of a file's functions. Its struct types and its functions have these names.
///
/// Errors: the first violation, in the order of the functions; of a function that of its name before those of its parameters and its
/// result; `Memory`.
pub(crate) fn headers<'a>(
    alloc: Global,
    types: &NameList<'_>,
    functions: &NameList<'_>,
    tops: &'a [TopNode],
) -> Result<Vec<FunctionEntry<'a>>, Refusal>
    requires small { sum_by top_size (map top_of tops.now) < 2 ^ 32 }
    ensures names { IfOk result (λ all. names_in all.items ≡ function_names (map top_of tops.now)) }
    ensures signatures { IfOk result (λ all. map (signature_of types.now) all.items ≡ signatures types.now (map top_of tops.now)) }
    ensures none { IfOk result (λ _. (violation : OneViolation) → ¬ (HeadersHave types.now functions.now 0 0 (map top_of tops.now) violation)) }
    ensures one { IfErr result (Refuses (HeadersHave types.now functions.now 0 0 (map top_of tops.now))) }
{
    let mut all = Vec::new(alloc);
    let mut end = 0;
    for top in tops {
        end = top_header(alloc, types, functions, &mut all, end, top)?;
    }
    Ok(all)
}
