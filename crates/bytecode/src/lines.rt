//! The listing of a program's code.

ghost use Rattle.std.specs.Prelude.{◌≡◌, ◌++◌, IfOk, OnOk, Some, string_bytes};
ghost use Rattle.std.specs.Fmt.{DisplaysOnOk};
ghost use Rattle.bytecode.specs.Listing.{function_lines, heading, instr_line, instr_lines, instr_text, listing as listing_of, op_name as name_of, operands_text};

use crate::code::{Code, Function};
use crate::instr::Instr;
use go_text::Memory;
use std::alloc::{AllocError, Global};
use std::fmt;
use word::apply::Op;

/// What an operator is called.
fn op_name(op: Op) -> &'static str
    ensures { result.now ≡ name_of op }
{
    match op {
        Op::Add => "add",
        Op::Sub => "sub",
        Op::Mul => "mul",
        Op::Div => "div",
        Op::Rem => "rem",
        Op::And => "and",
        Op::Or => "or",
        Op::Xor => "xor",
        Op::AndNot => "andnot",
        Op::Shl => "shl",
        Op::Shr => "shr",
        Op::Neg => "neg",
        Op::Com => "com",
        Op::Not => "not",
        Op::EqInt => "eqi",
        Op::NeInt => "nei",
        Op::Lt => "lt",
        Op::Le => "le",
        Op::Gt => "gt",
        Op::Ge => "ge",
        Op::EqBool => "eqb",
        Op::NeBool => "neb",
        Op::EqChan => "eqc",
        Op::NeChan => "nec",
    }
}

/// What is listed after an instruction's name.
#[derive(Clone, Copy)]
enum Operands {
    Nothing,
    Number(i64),
    Truth(bool),
    Operator(Op),
    One(u32),
    Two(u32, u32),
    Three(u32, u32, u32),
}

/// An instruction's name and operands.
fn named(instr: Instr) -> (&'static str, Operands)
    ensures { instr_text instr ≡ result.0.now ++ operands_text result.1 }
{
    match instr {
        Instr::Int(number) => ("int", Operands::Number(number)),
        Instr::Bool(truth) => ("bool", Operands::Truth(truth)),
        Instr::Nil(shape) => ("nil", Operands::One(shape)),
        Instr::Load(first, count) => ("load", Operands::Two(first, count)),
        Instr::Store(first, count) => ("store", Operands::Two(first, count)),
        Instr::Pick(top, first, count) => ("pick", Operands::Three(top, first, count)),
        Instr::Discard(count) => ("drop", Operands::One(count)),
        Instr::Apply(op) => ("apply", Operands::Operator(op)),
        Instr::Tick => ("tick", Operands::Nothing),
        Instr::Jump(to) => ("jump", Operands::One(to)),
        Instr::Unless(to) => ("unless", Operands::One(to)),
        Instr::Loop(to) => ("loop", Operands::One(to)),
        Instr::Call(function) => ("call", Operands::One(function)),
        Instr::Return => ("return", Operands::Nothing),
        Instr::Make(shape) => ("make", Operands::One(shape)),
        Instr::Go(function) => ("go", Operands::One(function)),
        Instr::Send(shape) => ("send", Operands::One(shape)),
        Instr::Receive(shape) => ("receive", Operands::One(shape)),
        Instr::Close => ("close", Operands::Nothing),
        Instr::Len => ("len", Operands::Nothing),
        Instr::Cap => ("cap", Operands::Nothing),
        Instr::Print(table) => ("print", Operands::One(table)),
        Instr::Select(table) => ("select", Operands::One(table)),
    }
}

impl fmt::Display for Operands {
    ghost output = { λ o. Some (operands_text o) };

    fn fmt<W: fmt::Write>(&self, f: &mut fmt::Formatter<W>) -> fmt::Result {
        match *self {
            Operands::Nothing => Ok(()),
            Operands::Number(number) => write!(f, " {number}"),
            Operands::Truth(truth) => write!(f, " {truth}"),
            Operands::Operator(op) => {
                let name = op_name(op);
                write!(f, " {name}")
            }
            Operands::One(one) => write!(f, " {one}"),
            Operands::Two(one, two) => write!(f, " {one} {two}"),
            Operands::Three(one, two, three) => write!(f, " {one} {two} {three}"),
        }
    }
}

/// An instruction by its name and its operands.
#[derive(Clone, Copy)]
struct InstrText(Instr);

impl fmt::Display for InstrText {
    ghost output = { λ text. Some (instr_text text.0) };

    fn fmt<W: fmt::Write>(&self, f: &mut fmt::Formatter<W>) -> fmt::Result {
        let (name, operands) = named(self.0);
        write!(f, "{name}{operands}")
    }
}

/// The text of a code: for each function, in order, a line with its name and how many words its parameters, its locals and
/// its results take, and a line for each instruction, after its pc.
pub fn listing(alloc: Global, code: &Code) -> Result<Vec<u8>, Memory>
    ensures { IfOk result (λ text. text.items ≡ listing_of code.now) }
{
    let mut text = String::new(alloc);
    let functions = code.functions();
    for number in 0..functions.len() {
        list_function(&mut text, &functions[number])?;
    }
    Ok(text.into_bytes())
}

/// Appends the lines of a function.
fn list_function(text: &mut String, function: &Function) -> Result<(), AllocError>
    ensures { OnOk result (string_bytes text.new ≡ string_bytes text.old ++ (heading function.now ++ instr_lines 0 function.now.instrs)) }
{
    list_heading(text, function)?;
    let instrs = function.instrs();
    for place in 0..instrs.len() {
        list_instr(text, place, instrs[place])?;
    }
    Ok(())
}

/// Appends the first line of a function.
fn list_heading(text: &mut String, function: &Function) -> Result<(), AllocError>
    ensures { OnOk result (string_bytes text.new ≡ string_bytes text.old ++ heading function.now) }
{
    let name = function.name();
    let params = function.params();
    let locals = function.locals().len();
    let results = function.results().len();
    writeln!(
        text,
        "func {name} params {params} locals {locals} result {results}"
    )
}

/// Appends the line of the instruction at `place`.
fn list_instr(text: &mut String, place: usize, instr: Instr) -> Result<(), AllocError>
    ensures { OnOk result (string_bytes text.new ≡ string_bytes text.old ++ instr_line place instr) }
{
    let instr = InstrText(instr);
    writeln!(text, "{place:>6} {instr}")
}
