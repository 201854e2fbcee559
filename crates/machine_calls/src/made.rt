//! Code that is made of instructions written by hand.

use bytecode::Instr::*;
use bytecode::{Clause, Code, Function, Instr, Part, PrintTable, SelectTable, Shape, WordKind};
use go_text::Fault;
use std::alloc::{AllocError, Global};
use verifier::{Verified, verify};
use word::apply::Op;

/// A channel of ints.
pub const INTS: WordKind = WordKind::Chan(0);

/// A channel of truth values.
pub const BOOLS: WordKind = WordKind::Chan(1);

/// A function: its name, how many of its locals are parameters, the kinds of its locals and of its results, and its
/// instructions.
#[derive(Clone, Copy)]
pub struct Body<'a> {
    pub name: &'a str,
    pub params: u32,
    pub locals: &'a [WordKind],
    pub results: &'a [WordKind],
    pub instrs: &'a [Instr],
}

/// Tells whether its parameter is below 0.
const NEGATIVE: Body = Body {
    name: "negative",
    params: 1,
    locals: &[WordKind::Int],
    results: &[WordKind::Bool],
    instrs: &[Load(0, 1), Int(0), Apply(Op::Lt), Return],
};

/// The function of this body.
fn function(alloc: Global, body: Body) -> Result<Function, AllocError> {
    Ok(Function::new(
        String::from_str(alloc, body.name)?,
        body.params,
        Vec::from_slice(alloc, body.locals)?,
        Vec::from_slice(alloc, body.results)?,
        Vec::from_slice(alloc, body.instrs)?,
    ))
}

/// The shape of these kinds.
fn shape(alloc: Global, kinds: &[WordKind]) -> Result<Shape, AllocError> {
    Ok(Shape::new(Vec::from_slice(alloc, kinds)?))
}

/// Shapes of an int, of a truth value, and of an int and a channel of ints.
fn shapes(alloc: Global) -> Result<Vec<Shape>, AllocError> {
    let mut shapes = Vec::new(alloc);
    shapes.push(shape(alloc, &[WordKind::Int])?)?;
    shapes.push(shape(alloc, &[WordKind::Bool])?)?;
    shapes.push(shape(alloc, &[WordKind::Int, INTS])?)?;
    Ok(shapes)
}

/// Lines of an int, and of a truth value.
fn prints(alloc: Global) -> Result<Vec<PrintTable>, AllocError> {
    let mut prints = Vec::new(alloc);
    prints.push(PrintTable::new(Vec::from_array(alloc, [Part::Int])?, true))?;
    prints.push(PrintTable::new(Vec::from_array(alloc, [Part::Bool])?, true))?;
    Ok(prints)
}

/// The table of these clauses and this default.
fn select(
    alloc: Global,
    clauses: &[Clause],
    default: Option<u32>,
) -> Result<SelectTable, AllocError> {
    Ok(SelectTable::new(Vec::from_slice(alloc, clauses)?, default))
}

/// A select that receives an int and goes on at 5, sends one and goes on at 7, or goes on at 9; one that goes on at 0; one
/// that receives and goes on at 2, or goes on there; and one of nothing.
fn selects(alloc: Global) -> Result<Vec<SelectTable>, AllocError> {
    let mut selects = Vec::new(alloc);
    let both = [Clause::Receive(0, 5), Clause::Send(0, 7)];
    selects.push(select(alloc, &both, Some(9))?)?;
    selects.push(select(alloc, &[], Some(0))?)?;
    selects.push(select(alloc, &[Clause::Receive(0, 2)], Some(2))?)?;
    selects.push(select(alloc, &[], None)?)?;
    Ok(selects)
}

/// The functions of these bodies.
pub fn functions(alloc: Global, bodies: &[Body]) -> Result<Vec<Function>, AllocError> {
    let mut functions = Vec::new(alloc);
    for body in bodies {
        functions.push(function(alloc, *body)?)?;
    }
    Ok(functions)
}

/// Code of these functions, and of the tables above.
pub fn code(alloc: Global, bodies: &[Body]) -> Result<Code, AllocError> {
    let code = Code::new(functions(alloc, bodies)?, shapes(alloc)?, prints(alloc)?);
    Ok(code.with_selects(selects(alloc)?))
}

/// Code of a `main` with two locals of kind int and these instructions, and of `negative`.
pub fn main_code(alloc: Global, instrs: &[Instr]) -> Result<Code, AllocError> {
    let main = Body {
        name: "main",
        params: 0,
        locals: &[WordKind::Int, WordKind::Int],
        results: &[],
        instrs,
    };
    code(alloc, &[main, NEGATIVE])
}

/// That code, verified.
pub fn main_program(alloc: Global, instrs: &[Instr]) -> Result<Verified, Fault> {
    verify(alloc, main_code(alloc, instrs)?)
}

/// Code of these functions, verified.
pub fn program(alloc: Global, bodies: &[Body]) -> Result<Verified, Fault> {
    verify(alloc, code(alloc, bodies)?)
}
