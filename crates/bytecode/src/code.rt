//! The code of a program.

ghost use Rattle.std.specs.Prelude.{◌≡◌, ◌↔◌, [], IsTrue, string_bytes};

use crate::instr::{Instr, WordKind};
use crate::table::{PrintTable, SelectTable, Shape, same_kinds};
use std::marker::Model;

/// A function: its name, how many of its locals are parameters, the kinds of its locals (the parameters first) and of its
/// results, and its instructions.
pub struct Function {
    name: String,
    params: u32,
    locals: Vec<WordKind>,
    results: Vec<WordKind>,
    instrs: Vec<Instr>,
}

impl Drop for Function {
    fn drop(self) {
        let Function {
            name,
            params: _,
            locals,
            results,
            instrs,
        } = self;
        drop(name);
        drop(locals);
        drop(results);
        drop(instrs);
    }
}

impl Model for Function {
    ghost use Rattle.std.specs.Prelude.{string_bytes};
    ghost use Rattle.bytecode.specs.Code.{Function as FunctionValue};

    ghost Value = { FunctionValue };

    ghost view = { λ f. record { name = string_bytes f.name; params = f.params; locals = f.locals.items; results = f.results.items; instrs = f.instrs.items } };
}

impl Function {
    /// A function of these parts. In verified code it has no fewer locals than parameters.
    pub fn new(
        name: String,
        params: u32,
        locals: Vec<WordKind>,
        results: Vec<WordKind>,
        instrs: Vec<Instr>,
    ) -> Function
        ensures { result ≡ record { name = string_bytes name; params = params; locals = locals.items; results = results.items; instrs = instrs.items } }
    {
        Function {
            name,
            params,
            locals,
            results,
            instrs,
        }
    }

    /// The name.
    pub fn name(&self) -> &str
        ensures { result.now ≡ self.now.name }
    {
        self.name.as_str()
    }

    /// How many of the locals are parameters.
    pub fn params(&self) -> u32
        ensures { result ≡ self.now.params }
    {
        self.params
    }

    /// The kinds of the locals, the parameters first.
    pub fn locals(&self) -> &[WordKind]
        ensures { result.now ≡ self.now.locals }
    {
        self.locals.as_slice()
    }

    /// The kinds of the results.
    pub fn results(&self) -> &[WordKind]
        ensures { result.now ≡ self.now.results }
    {
        self.results.as_slice()
    }

    /// The instructions, the first one at index 0.
    pub fn instrs(&self) -> &[Instr]
        ensures { result.now ≡ self.now.instrs }
    {
        self.instrs.as_slice()
    }

    /// Whether the two are the same in all parts.
    pub fn is_same(&self, other: &Function) -> bool
        ensures { IsTrue result ↔ (self.now ≡ other.now) }
    {
        same_names(self.name.as_bytes(), other.name.as_bytes())
            && self.params == other.params
            && same_kinds(self.locals.as_slice(), other.locals.as_slice())
            && same_kinds(self.results.as_slice(), other.results.as_slice())
            && same_instrs(self.instrs.as_slice(), other.instrs.as_slice())
    }
}

/// A program's functions, shapes, print tables and select tables, each numbered from 0.
pub struct Code {
    functions: Vec<Function>,
    shapes: Vec<Shape>,
    prints: Vec<PrintTable>,
    selects: Vec<SelectTable>,
}

impl Drop for Code {
    fn drop(self) {
        let Code {
            functions,
            shapes,
            prints,
            selects,
        } = self;
        drop(functions);
        drop(shapes);
        drop(prints);
        drop(selects);
    }
}

impl Model for Code {
    ghost use Rattle.bytecode.specs.Code.{Code as CodeValue};

    ghost Value = { CodeValue };

    ghost view = { λ c. record { functions = c.functions.items; shapes = c.shapes.items; prints = c.prints.items; selects = c.selects.items } };
}

impl Code {
    /// The code of these functions, shapes and print tables, without select tables.
    pub fn new(functions: Vec<Function>, shapes: Vec<Shape>, prints: Vec<PrintTable>) -> Code
        ensures { result ≡ record { functions = functions.items; shapes = shapes.items; prints = prints.items; selects = [] } }
    {
        let selects = Vec::new(*functions.allocator());
        Code {
            functions,
            shapes,
            prints,
            selects,
        }
    }

    /// This code with these select tables.
    pub fn with_selects(self, selects: Vec<SelectTable>) -> Code
        ensures { result ≡ record self { selects = selects.items } }
    {
        let Code {
            functions,
            shapes,
            prints,
            selects: _none,
        } = self;
        Code {
            functions,
            shapes,
            prints,
            selects,
        }
    }

    /// The functions, the first one of number 0.
    pub fn functions(&self) -> &[Function]
        ensures { result.now ≡ self.now.functions }
    {
        self.functions.as_slice()
    }

    /// The shapes, the first one of number 0.
    pub fn shapes(&self) -> &[Shape]
        ensures { result.now ≡ self.now.shapes }
    {
        self.shapes.as_slice()
    }

    /// The print tables, the first one of number 0.
    pub fn prints(&self) -> &[PrintTable]
        ensures { result.now ≡ self.now.prints }
    {
        self.prints.as_slice()
    }

    /// The select tables, the first one of number 0.
    pub fn selects(&self) -> &[SelectTable]
        ensures { result.now ≡ self.now.selects }
    {
        self.selects.as_slice()
    }

    /// Whether the two have the same functions, shapes, print tables and select tables.
    pub fn is_same(&self, other: &Code) -> bool
        ensures { IsTrue result ↔ (self.now ≡ other.now) }
    {
        same_selects(self.selects.as_slice(), other.selects.as_slice())
            && same_prints(self.prints.as_slice(), other.prints.as_slice())
            && same_shapes(self.shapes.as_slice(), other.shapes.as_slice())
            && are_same(self.functions.as_slice(), other.functions.as_slice())
    }
}

fn same_names(left: &[u8], right: &[u8]) -> bool
    ensures { IsTrue result ↔ (left.now ≡ right.now) }
{
    left == right
}

#[tactic(none)]
fn is_same_instr(left: Instr, right: Instr) -> bool
    ensures { IsTrue result ↔ (left ≡ right) }
{
    left == right
}

fn same_instrs(left: &[Instr], right: &[Instr]) -> bool
    ensures { IsTrue result ↔ (left.now ≡ right.now) }
{
    if left.len() != right.len() {
        return false;
    }
    for i in 0..left.len() {
        if !is_same_instr(left[i], right[i]) {
            return false;
        }
    }
    true
}

fn same_shapes(left: &[Shape], right: &[Shape]) -> bool
    ensures { IsTrue result ↔ (left.now ≡ right.now) }
{
    if left.len() != right.len() {
        return false;
    }
    for i in 0..left.len() {
        if !left[i].is_same(&right[i]) {
            return false;
        }
    }
    true
}

fn same_prints(left: &[PrintTable], right: &[PrintTable]) -> bool
    ensures { IsTrue result ↔ (left.now ≡ right.now) }
{
    if left.len() != right.len() {
        return false;
    }
    for i in 0..left.len() {
        if !left[i].is_same(&right[i]) {
            return false;
        }
    }
    true
}

fn same_selects(left: &[SelectTable], right: &[SelectTable]) -> bool
    ensures { IsTrue result ↔ (left.now ≡ right.now) }
{
    if left.len() != right.len() {
        return false;
    }
    for i in 0..left.len() {
        if !left[i].is_same(&right[i]) {
            return false;
        }
    }
    true
}

/// Whether the two lists have the same functions, one by one.
fn are_same(left: &[Function], right: &[Function]) -> bool
    ensures { IsTrue result ↔ (left.now ≡ right.now) }
{
    if left.len() != right.len() {
        return false;
    }
    for i in 0..left.len() {
        if !left[i].is_same(&right[i]) {
            return false;
        }
    }
    true
}
