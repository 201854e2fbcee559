//! Which code is refused, by which rule and where.

use crate::checks::Checks;
use crate::made::{Body, functions, main_code, main_program};
use bytecode::Instr::*;
use bytecode::{Clause, Code, Instr, Part, PrintTable, SelectTable, Shape, WordKind};
use go_text::{Fault, Memory};
use std::alloc::{AllocError, Global};
use verifier::verify;
use word::apply::Op;

/// The rule, the function and the pc that a code is refused with; none if it is accepted.
type Refusal = Option<(u8, usize, usize)>;

/// What is wrong with a `main`, its instructions, the rule that refuses it, and the pc.
const REFUSED: [(&str, &[Instr], u8, usize); 23] = [
    ("no return at the end", &[Int(1)], 1, 0),
    ("nil of no shape", &[Nil(3), Discard(1), Return], 1, 0),
    (
        "a load past the locals",
        &[Load(1, 2), Discard(2), Return],
        1,
        0,
    ),
    (
        "a pick past its operands",
        &[Int(1), Pick(1, 1, 1), Discard(1), Return],
        1,
        1,
    ),
    (
        "a call of no function",
        &[Int(1), Call(2), Discard(1), Return],
        1,
        1,
    ),
    ("a print of no table", &[Print(2), Return], 1, 0),
    ("a jump past the end", &[Jump(5), Return], 1, 0),
    ("a select of no table", &[Select(4), Return], 1, 0),
    (
        "a select whose clauses lead past the end",
        &[Select(0), Return],
        1,
        0,
    ),
    ("a select of nothing at the end", &[Select(3)], 1, 0),
    ("a jump backwards", &[Jump(0)], 2, 0),
    ("a loop forwards", &[Loop(1), Return], 2, 0),
    (
        "a select that leads backwards",
        &[Tick, Select(1), Return],
        2,
        1,
    ),
    (
        "an operator without its operand",
        &[Apply(Op::Neg), Discard(1), Return],
        3,
        0,
    ),
    (
        "an operator of another kind",
        &[Bool(true), Apply(Op::Neg), Discard(1), Return],
        3,
        1,
    ),
    (
        "two ways with unlike operands",
        &[Bool(true), Unless(3), Int(1), Return],
        3,
        3,
    ),
    ("a loop that leaves an operand", &[Int(1), Loop(0)], 3, 0),
    (
        "a select without its operands",
        &[
            Nil(0),
            Select(0),
            Return,
            Return,
            Return,
            Return,
            Return,
            Return,
            Return,
            Return,
        ],
        3,
        1,
    ),
    (
        "a select with unlike ways",
        &[Nil(0), Select(2), Return],
        3,
        2,
    ),
    (
        "a call with an argument of another kind",
        &[Bool(true), Call(1), Discard(1), Return],
        4,
        1,
    ),
    ("a go without its argument", &[Go(1), Return], 4, 0),
    ("a return with one result too many", &[Int(1), Return], 5, 1),
    (
        "a store of another kind",
        &[Bool(true), Store(0, 1), Return],
        6,
        1,
    ),
];

/// A loop over a branch, a call, a receive and prints.
const LOOP: [Instr; 13] = [
    Int(3),
    Store(0, 1),
    Load(0, 1),
    Call(1),
    Unless(6),
    Jump(6),
    Tick,
    Nil(2),
    Receive(2),
    Print(1),
    Discard(1),
    Print(0),
    Loop(0),
];

/// Whether code is refused by these rules, and accepted if it keeps them.
pub(crate) fn check(alloc: Global, checks: &mut Checks) -> Result<(), Memory> {
    for (name, instrs, rule, place) in &REFUSED {
        let wanted = Some((*rule, 0, *place));
        checks.see(name, is_main_refused(alloc, instrs, wanted))?;
    }
    checks.see("a loop is accepted", is_accepted(alloc, &LOOP))?;
    let nothing = [Select(3), Loop(0)];
    checks.see(
        "a select of nothing is accepted",
        is_accepted(alloc, &nothing),
    )?;
    check_shapes(alloc, checks)?;
    check_tables(alloc, checks)?;
    check_mains(alloc, checks)
}

fn check_shapes(alloc: Global, checks: &mut Checks) -> Result<(), Memory> {
    for (name, kind, count, wanted) in [
        ("a shape of no word", WordKind::Int, 0, Some((7, 0, 0))),
        ("a shape of 16 words", WordKind::Int, 16, None),
        ("a shape of 17 words", WordKind::Int, 17, Some((7, 0, 0))),
        (
            "a shape of a channel of no shape",
            WordKind::Chan(1),
            1,
            Some((1, 0, 0)),
        ),
    ] {
        checks.see(name, is_shape_refused(alloc, kind, count, wanted))?;
    }
    Ok(())
}

fn check_tables(alloc: Global, checks: &mut Checks) -> Result<(), Memory> {
    for (name, count, wanted) in [
        ("a print of 64 parts", 64, None),
        ("a print of 65 parts", 65, Some((7, 0, 0))),
    ] {
        checks.see(name, is_print_refused(alloc, count, wanted))?;
    }
    for (name, count, wanted) in [
        ("a select of a default alone", 0, None),
        ("a select of 63 clauses on no operands", 63, Some((1, 0, 0))),
        ("a select of 64 clauses", 64, Some((7, 0, 0))),
    ] {
        checks.see(name, is_select_refused(alloc, count, wanted))?;
    }
    Ok(())
}

fn check_mains(alloc: Global, checks: &mut Checks) -> Result<(), Memory> {
    for (name, params, results) in [
        ("Main", 0, [].as_slice()),
        ("main", 1, &[]),
        ("main", 0, &[WordKind::Int]),
    ] {
        checks.see(
            "code without a main is refused",
            lacks_main(alloc, name, params, results),
        )?;
    }
    Ok(())
}

fn refusal(alloc: Global, code: Code) -> Refusal {
    match verify(alloc, code) {
        Err(
            Fault::Unverified {
                rule,
                function,
                place,
            },
        ) => Some((rule, function, place)),
        _ => None,
    }
}

fn is_accepted(alloc: Global, instrs: &[Instr]) -> Result<bool, Fault> {
    Ok(main_program(alloc, instrs).is_ok())
}

/// Whether code of a `main` with these instructions is refused with `wanted`.
fn is_main_refused(alloc: Global, instrs: &[Instr], wanted: Refusal) -> Result<bool, Fault> {
    Ok(refusal(alloc, main_code(alloc, instrs)?) == wanted)
}

/// A `main` that does nothing.
const EMPTY: Body = Body {
    name: "main",
    params: 0,
    locals: &[],
    results: &[],
    instrs: &[Return],
};

/// What code of a `main` that does nothing and of these tables is refused with.
fn refusal_of(
    alloc: Global,
    shapes: Vec<Shape>,
    prints: Vec<PrintTable>,
    selects: Vec<SelectTable>,
) -> Result<Refusal, Fault> {
    let code = Code::new(functions(alloc, &[EMPTY])?, shapes, prints);
    Ok(refusal(alloc, code.with_selects(selects)))
}

/// Whether code of one shape of `count` words of kind `kind` is refused with `wanted`.
fn is_shape_refused(
    alloc: Global,
    kind: WordKind,
    count: usize,
    wanted: Refusal,
) -> Result<bool, Fault> {
    let kinds = Vec::from_elem(alloc, kind, count)?;
    let shapes = Vec::from_array(alloc, [Shape::new(kinds)])?;
    Ok(refusal_of(alloc, shapes, Vec::new(alloc), Vec::new(alloc))? == wanted)
}

fn int_parts(alloc: Global, count: usize) -> Result<Vec<Part>, AllocError> {
    let mut parts = Vec::new(alloc);
    for _ in 0..count {
        parts.push(Part::Int)?;
    }
    Ok(parts)
}

/// Whether code of one print of `count` ints is refused with `wanted`.
fn is_print_refused(alloc: Global, count: usize, wanted: Refusal) -> Result<bool, Fault> {
    let table = PrintTable::new(int_parts(alloc, count)?, true);
    let prints = Vec::from_array(alloc, [table])?;
    Ok(refusal_of(alloc, Vec::new(alloc), prints, Vec::new(alloc))? == wanted)
}

/// Whether code of one select of `count` clauses that send, and a default, is refused with `wanted`.
fn is_select_refused(alloc: Global, count: usize, wanted: Refusal) -> Result<bool, Fault> {
    let clauses = Vec::from_elem(alloc, Clause::Send(0, 1), count)?;
    let selects = Vec::from_array(alloc, [SelectTable::new(clauses, Some(1))])?;
    Ok(refusal_of(alloc, Vec::new(alloc), Vec::new(alloc), selects)? == wanted)
}

/// Whether code of a single function `name`, with `params` parameters and these results, is refused for lack of a `main`.
fn lacks_main(alloc: Global, name: &str, params: u32, results: &[WordKind]) -> Result<bool, Fault> {
    let function = Body {
        name,
        params,
        locals: &[WordKind::Int],
        results,
        instrs: &[Load(0, 1), Return],
    };
    let functions = functions(alloc, &[function])?;
    let code = Code::new(functions, Vec::new(alloc), Vec::new(alloc));
    Ok(refusal(alloc, code) == Some((8, 0, 0)))
}
