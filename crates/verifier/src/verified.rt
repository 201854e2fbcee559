//! The verifier.

ghost use Rattle.std.specs.Prelude.{◌≡◌, ◌≢◌, ◌↔◌, ◌<◌, ◌≤◌, length, IsTrue, IfOk, IfErr, IfSome, IfNone, MatchOption, Some, slice_get};
ghost use Rattle.bytecode.specs.Machine.{main_of};
ghost use Rattle.bytecode.specs.Rules.{AreThere, Breaks, BrokenIn, HasMain, HasShapes, Holds, IsHeaded, IsSelect, IsShaped, IsShort, IsThere, IsVerified};
ghost use Rattle.superinstruction_base.specs.Forms.{IsTableOf};
ghost use Rattle.verifier.specs.Refusals.{IsRefused, NeverStuck, ShapesFine, PrintsFine, SelectsFine, FunctionsFine, ShapeBroken, SelectBroken};
ghost use Rattle.verifier.specs.Tables.{Judged};

use crate::paths::check_function;
use bytecode::{Code, Function, MAX_CLAUSES, MAX_PARTS, Rule, SelectTable, WordKind};
use go_text::Fault;
use std::alloc::{AllocError, Global};
use std::marker::Model;
use superinstruction::Superinstructions;
use word::limits::MAX_WORDS;

/// Code that keeps all rules of the verifier, and its superinstructions; contracts see the code.
pub struct Verified {
    code: Code,
    superinstructions: Superinstructions,
}

impl Drop for Verified {
    fn drop(self) {
        let Verified {
            code,
            superinstructions,
        } = self;
        drop(code);
        drop(superinstructions);
    }
}

impl Model for Verified {
    ghost use Rattle.bytecode.specs.Code.{Code as CodeValue};
    ghost use Rattle.bytecode.specs.Rules.{IsVerified};
    ghost use Rattle.superinstruction_base.specs.Forms.{IsTableOf};

    ghost Value = { CodeValue };

    ghost view = { λ v. v.code };

    ghost invariant = { λ v. IsVerified v.code × IsTableOf v.code v.superinstructions };
}

impl Verified {
    /// The code.
    pub fn code(&self) -> &Code
        ensures code { result.now ≡ self.now }
        ensures verified { IsVerified result.now }
    {
        &self.code
    }

    /// The superinstructions of the code.
    pub fn superinstructions(&self) -> &Superinstructions
        ensures { IsTableOf self.now result.now }
    {
        &self.superinstructions
    }

    /// The number of the function `main`.
    pub fn main(&self) -> usize
        ensures main { main_of self.now.functions ≡ Some result }
        ensures verified { IsVerified self.now }
    {
        main_number(self.code.functions()).unwrap_or(0)
    }
}

/// The number of the first function of the name `main`.
fn main_number(functions: &[Function]) -> Option<usize>
    ensures { result ≡ main_of functions.now }
{
    functions
        .iter()
        .position(|function| function.name() == "main")
}

/// Verifies code.
///
/// Errors: 11 with the violated rule, 1 to 8, the function's number and the instruction's pc, 0 for the function's
/// heading. For a shape or a table: the rule, 0, and its number. If there is no function `main` without parameters and
/// result: the rule, 0, and 0. 13 if it is out of memory.
pub fn verify(alloc: Global, code: Code) -> Result<Verified, Fault>
    ensures code { IfOk result (λ verified. verified ≡ code) }
    ensures safe { IfOk result NeverStuck }
    ensures fault { IfErr result (IsRefused code) }
    ensures verified { IsVerified code → IfErr result (λ fault. fault ≡ Fault.Memory) }
{
    match broken(alloc, &code) {
        Err(_) => Err(Fault::Memory),
        Ok(Some((rule, function, place))) => Err(Fault::Unverified {
            rule: rule.number(),
            function,
            place,
        }),
        Ok(None) => match Superinstructions::find(alloc, &code) {
            Err(_) => Err(Fault::Memory),
            Ok(superinstructions) => Ok(Verified {
                code,
                superinstructions,
            }),
        },
    }
}

/// The rule that code violates, the function's number, and the pc, or the number of a shape or a table.
fn broken(alloc: Global, code: &Code) -> Result<Option<(Rule, usize, usize)>, AllocError>
    ensures { IfOk result (λ o. MatchOption o (IsVerified code.now) (λ b. Breaks code.now b.0 b.1 b.2)) }
{
    if let Some((rule, place)) = broken_shape(code) {
        return Ok(Some((rule, 0, place)));
    }
    if let Some(place) = broken_print(code) {
        return Ok(Some((Rule::Tables, 0, place)));
    }
    if let Some((rule, place)) = broken_select(code) {
        return Ok(Some((rule, 0, place)));
    }
    if !has_main(code) {
        return Ok(Some((Rule::Main, 0, 0)));
    }
    broken_function(alloc, code)
}

/// Whether the shape that a kind names is there.
fn is_there(code: &Code, kind: WordKind) -> bool
    ensures { IsTrue result ↔ IsThere code.now kind }
{
    match kind {
        WordKind::Int => true,
        WordKind::Bool => true,
        WordKind::Chan(shape) => (shape as usize) < code.shapes().len(),
    }
}

/// Whether the shapes that these kinds name are there.
fn are_there(code: &Code, kinds: &[WordKind]) -> bool
    ensures { IsTrue result ↔ AreThere code.now kinds.now }
{
    for number in 0..kinds.len() {
        if !is_there(code, kinds[number]) {
            return false;
        }
    }
    true
}

/// Whether a function's heading is in order.
fn is_headed(code: &Code, f: &Function) -> bool
    ensures { IsTrue result ↔ IsHeaded code.now f.now }
{
    f.instrs().len() > 0
        && f.params() as usize <= f.locals().len()
        && are_there(code, f.locals())
        && are_there(code, f.results())
}

/// The rule that a shape violates.
fn shape_rule(code: &Code, kinds: &[WordKind]) -> Option<Rule>
    ensures none { IfNone result (IsShaped code.now kinds.now) }
    ensures some { IfSome result (λ rule. ShapeBroken code.now kinds.now rule) }
{
    if kinds.len() == 0 || kinds.len() > MAX_WORDS {
        return Some(Rule::Tables);
    }
    if !are_there(code, kinds) {
        return Some(Rule::Names);
    }
    None
}

/// The rule that the first wrong shape violates, and the shape's number.
fn broken_shape(code: &Code) -> Option<(Rule, usize)>
    ensures none { IfNone result (ShapesFine code.now) }
    ensures some { IfSome result (λ b. Breaks code.now b.0 0 b.1) }
{
    for number in 0..code.shapes().len() {
        if let Some(rule) = shape_rule(code, code.shapes()[number].kinds()) {
            return Some((rule, number));
        }
    }
    None
}

/// The number of the first print table of too many parts.
fn broken_print(code: &Code) -> Option<usize>
    ensures none { IfNone result (PrintsFine code.now) }
    ensures some { IfSome result (λ number. Breaks code.now Rule.Tables 0 number) }
{
    for number in 0..code.prints().len() {
        if code.prints()[number].parts().len() > MAX_PARTS {
            return Some(number);
        }
    }
    None
}

/// Whether the shapes that a select table names are there.
fn has_shapes(code: &Code, table: &SelectTable) -> bool
    ensures { IsTrue result ↔ HasShapes code.now table.now }
{
    let clauses = table.clauses();
    for number in 0..clauses.len() {
        if clauses[number].shape() as usize >= code.shapes().len() {
            return false;
        }
    }
    true
}

/// The rule that a select table violates.
fn select_rule(code: &Code, table: &SelectTable) -> Option<Rule>
    ensures none { IfNone result (IsSelect code.now table.now) }
    ensures some { IfSome result (λ rule. SelectBroken code.now table.now rule) }
{
    if table.target_count() > MAX_CLAUSES {
        return Some(Rule::Tables);
    }
    if !has_shapes(code, table) {
        return Some(Rule::Names);
    }
    None
}

/// The rule that the first wrong select table violates, and the table's number.
fn broken_select(code: &Code) -> Option<(Rule, usize)>
    ensures none { IfNone result (SelectsFine code.now) }
    ensures some { IfSome result (λ b. Breaks code.now b.0 0 b.1) }
{
    for number in 0..code.selects().len() {
        if let Some(rule) = select_rule(code, &code.selects()[number]) {
            return Some((rule, number));
        }
    }
    None
}

/// Whether there is a function `main` without parameters and result.
fn has_main(code: &Code) -> bool
    ensures { IsTrue result ↔ HasMain code.now }
{
    let functions = code.functions();
    match main_number(functions) {
        None => false,
        Some(number) => is_plain(&functions[number]),
    }
}

/// Whether a function has no parameters and no result.
fn is_plain(f: &Function) -> bool
    ensures { IsTrue result ↔ ((f.now.params ≡ 0) × (length f.now.results ≡ 0)) }
{
    f.params() == 0 && f.results().len() == 0
}

/// The rule that a function violates, and the pc.
fn rule_in(alloc: Global, code: &Code, f: &Function) -> Result<Option<(Rule, usize)>, AllocError>
    ensures { IfOk result (λ o. Judged o code.now f.now) }
{
    if !is_headed(code, f) {
        return Ok(Some((Rule::Names, 0)));
    }
    check_function(alloc, code, f)
}

/// The first rule that a function violates, the function's number, and the pc.
fn broken_function(alloc: Global, code: &Code) -> Result<Option<(Rule, usize, usize)>, AllocError>
    ensures { IfOk result (λ o. MatchOption o (FunctionsFine code.now) (λ b. Breaks code.now b.0 b.1 b.2)) }
{
    for number in 0..code.functions().len() {
        if let Some((rule, place)) = rule_in(alloc, code, &code.functions()[number])? {
            return Ok(Some((rule, number, place)));
        }
    }
    Ok(None)
}
