//! What a goroutine asks for, when, and what it does with the answer.

ghost use Rattle.std.specs.Prelude.{◌≤◌, ◌^◌, IfOk};
ghost use Rattle.goroutine_vm.specs.Advance.{IsStateOf};

use crate::checks::{Checks, is_refused};
use crate::made::main_program;
use bytecode::Instr;
use bytecode::Instr::*;
use go_text::{Fault, Memory};
use goroutine_vm::{GoState, Stop};
use logical_clock::{Clock, LAST};
use std::alloc::Global;
use verifier::Verified;
use word::apply::Op;
use word::panic::Panic;
use word::request::{Reply, Request};
use word::value::{Item, Word};
use world_core::Core;

/// Goroutine 1 at its beginning.
pub fn main_state(alloc: Global, program: &Verified, limit: u64) -> Result<GoState, Memory>
    requires { limit ≤ 2 ^ 62 }
    ensures { IfOk result (IsStateOf program.now limit) }
{
    let _ = limit;
    let mut core = Core::open(alloc, program)?;
    match core.lend_least() {
        Some((_, state)) => Ok(state),
        None => Err(Memory),
    }
}

/// Makes local steps up to the next request. The call is made again if it is refused memory.
fn advanced(alloc: Global, program: &Verified, state: &mut GoState) -> Result<Stop, Memory>
    requires { IsStateOf program.now LAST state.old }
    ensures { IsStateOf program.now LAST state.new }
{
    match state.advance(alloc, program, LAST, 10_000) {
        Ok(stop) => Ok(stop),
        Err(Memory) => state.advance(alloc, program, LAST, 10_000),
    }
}

/// The request to which a goroutine comes next.
fn next_request(
    alloc: Global,
    program: &Verified,
    state: &mut GoState,
) -> Result<Option<Request>, Memory>
    requires { IsStateOf program.now LAST state.old }
    ensures { IsStateOf program.now LAST state.new }
{
    match advanced(alloc, program, state)? {
        Stop::AtOp(request) => Ok(Some(request)),
        Stop::Quantum => Ok(None),
    }
}

/// The first request of a `main` with these instructions, and its time.
fn first_request(alloc: Global, instrs: &[Instr]) -> Result<(Option<Request>, u64), Fault> {
    let program = main_program(alloc, instrs)?;
    let mut state = main_state(alloc, &program, LAST)?;
    let request = next_request(alloc, &program, &mut state)?;
    Ok((request, state.clock().time()))
}

/// Whether a request prints this text.
fn is_print(request: Option<Request>, text: &str) -> bool {
    match request {
        Some(Request::Print(bytes)) => bytes.as_slice() == text.as_bytes(),
        _ => false,
    }
}

/// What is shown, the instructions of a `main`, what it prints first, and the time.
const PRINTED: [(&str, &[Instr], &str, u64); 10] = [
    ("an int is printed", &[Int(7), Print(0), Return], "7\n", 0),
    (
        "a truth value is printed",
        &[Bool(true), Print(1), Return],
        "true\n",
        0,
    ),
    (
        "nil is nil",
        &[Nil(0), Nil(0), Apply(Op::EqChan), Print(1), Return],
        "true\n",
        0,
    ),
    (
        "a local is stored and loaded",
        &[
            Int(5),
            Store(1, 1),
            Load(0, 2),
            Apply(Op::Sub),
            Print(0),
            Return,
        ],
        "-5\n",
        0,
    ),
    (
        "an operand is picked",
        &[Int(1), Int(2), Int(3), Pick(3, 1, 1), Print(0), Return],
        "2\n",
        0,
    ),
    (
        "an operand is dropped",
        &[Int(1), Int(2), Discard(1), Print(0), Return],
        "1\n",
        0,
    ),
    (
        "a tick is counted",
        &[Tick, Int(8), Print(0), Return],
        "8\n",
        1,
    ),
    (
        "a jump skips",
        &[Jump(2), Return, Int(4), Print(0), Return],
        "4\n",
        0,
    ),
    (
        "a branch is taken where it is false",
        &[
            Bool(false),
            Unless(4),
            Int(1),
            Jump(5),
            Int(2),
            Print(0),
            Return,
        ],
        "2\n",
        0,
    ),
    (
        "a call takes its argument",
        &[Int(-6), Call(1), Print(1), Return],
        "true\n",
        1,
    ),
];

/// Whether a `main` with these instructions prints this text first, at this time.
fn prints_first(alloc: Global, instrs: &[Instr], text: &str, time: u64) -> Result<bool, Fault> {
    let (request, when) = first_request(alloc, instrs)?;
    Ok(is_print(request, text) && when == time)
}

/// What a request is called, with its channel's number or `nil`.
fn called(request: Option<Request>) -> &'static str {
    match &request {
        Some(Request::Make(3, _)) => "make 3",
        Some(Request::Go(1, _)) => "go 1",
        Some(Request::Send(None, _)) => "send nil",
        Some(Request::Receive(None)) => "receive nil",
        Some(Request::Close(None)) => "close nil",
        Some(Request::Len(None)) => "len nil",
        Some(Request::Cap(None)) => "cap nil",
        Some(Request::Select(_, true)) => "select with default",
        Some(Request::End) => "end",
        Some(Request::Panic(Panic::CallDepth)) => "panic of depth",
        _ => "another",
    }
}

/// A `main` that selects: if it received it prints the item; if it sent, 1; in its default, 2.
const SELECT: [Instr; 12] = [
    Nil(0),
    Nil(0),
    Int(4),
    Select(0),
    Return,
    Discard(1),
    Jump(10),
    Int(1),
    Jump(10),
    Int(2),
    Print(0),
    Return,
];

/// The instructions of a `main`, what its first request is called, and the time.
const ASKED: [(&[Instr], &str, u64); 10] = [
    (&[Int(3), Make(0), Close, Return], "make 3", 0),
    (&[Int(3), Tick, Go(1), Return], "go 1", 1),
    (&[Nil(0), Int(3), Send(0), Return], "send nil", 0),
    (&[Nil(0), Receive(0), Discard(2), Return], "receive nil", 0),
    (&[Nil(0), Close, Return], "close nil", 0),
    (&[Nil(0), Len, Discard(1), Return], "len nil", 0),
    (&[Nil(0), Cap, Discard(1), Return], "cap nil", 0),
    (&SELECT, "select with default", 0),
    (&[Return], "end", 0),
    (&[Call(0), Return], "panic of depth", 999),
];

/// Whether the first request of a `main` with these instructions is called so, at this time.
fn asks_first(alloc: Global, instrs: &[Instr], name: &str, time: u64) -> Result<bool, Fault> {
    let (request, when) = first_request(alloc, instrs)?;
    Ok(called(request) == name && when == time)
}

/// The request that a goroutine makes after its next one, whose reply at clock 5 is `reply`.
fn request_after(
    alloc: Global,
    program: &Verified,
    state: &mut GoState,
    reply: Reply,
) -> Result<Option<Request>, Memory>
    requires { IsStateOf program.now LAST state.old }
{
    drop(next_request(alloc, program, state)?);
    state.answer(program, reply, Clock::at(5));
    next_request(alloc, program, state)
}

/// Whether a `main` with these instructions prints `text` after its first request, whose reply at clock 5 is `reply`.
fn prints_after(alloc: Global, instrs: &[Instr], reply: Reply, text: &str) -> Result<bool, Fault> {
    let program = main_program(alloc, instrs)?;
    let mut state = main_state(alloc, &program, LAST)?;
    let request = request_after(alloc, &program, &mut state, reply)?;
    Ok(is_print(request, text) && state.clock().time() == 5)
}

/// What a `main` does that receives on nil, prints the flag, and then the item.
const RECEIVE: [Instr; 5] = [Nil(0), Receive(0), Print(1), Print(0), Return];

fn check_answers(alloc: Global, checks: &mut Checks) -> Result<(), Memory> {
    let item = Item::new(alloc, &[Word::Int(9)]);
    let reply = Reply::Clause(1, Some((item, true)));
    checks.see(
        "a select has received",
        prints_after(alloc, &SELECT, reply, "9\n"),
    )?;
    let reply = Reply::Clause(2, None);
    checks.see(
        "a select has sent",
        prints_after(alloc, &SELECT, reply, "1\n"),
    )?;
    checks.see(
        "a select takes its default",
        prints_after(alloc, &SELECT, Reply::Default, "2\n"),
    )?;
    let item = Item::new(alloc, &[Word::Int(9)]);
    let reply = Reply::Received(item, true);
    checks.see(
        "a receive has its flag",
        prints_after(alloc, &RECEIVE, reply, "true\n"),
    )
}

/// Whether a goroutine goes on for two steps, up to this time.
fn goes_on(
    alloc: Global,
    program: &Verified,
    state: &mut GoState,
    time: u64,
) -> Result<bool, Memory>
    requires { IsStateOf program.now 3 state.old }
    ensures { IsStateOf program.now 3 state.new }
{
    let stop = state.advance(alloc, program, 3, 2)?;
    Ok(matches!(&stop, Stop::Quantum) && state.clock().time() == time)
}

/// Whether a goroutine is exhausted within two steps, at this time.
fn is_exhausted(
    alloc: Global,
    program: &Verified,
    state: &mut GoState,
    time: u64,
) -> Result<bool, Memory>
    requires { IsStateOf program.now 3 state.old }
{
    let stop = state.advance(alloc, program, 3, 2)?;
    Ok(matches!(&stop, Stop::AtOp(Request::Exhausted)) && state.clock().time() == time)
}

/// Whether a loop without an end goes on up to the limit, and is exhausted there.
fn loop_ends(alloc: Global) -> Result<bool, Fault> {
    let program = main_program(alloc, &[Loop(0)])?;
    let mut state = main_state(alloc, &program, 3)?;
    Ok(ends(alloc, &program, &mut state)?)
}

/// Whether a goroutine goes on for two steps of two, and is exhausted by two more.
fn ends(alloc: Global, program: &Verified, state: &mut GoState) -> Result<bool, Memory>
    requires { IsStateOf program.now 3 state.old }
{
    let goes = goes_on(alloc, program, state, 2)?;
    Ok(goes && is_exhausted(alloc, program, state, 3)?)
}

/// Whether goroutines make these requests, also if a call is refused memory and made again.
pub(crate) fn check_refused(alloc: Global, checks: &mut Checks) -> Result<(), Memory> {
    for (instrs, name, time) in &ASKED {
        let mut asks = asks_first(alloc, instrs, name, *time);
        if is_refused(&asks) {
            asks = asks_first(alloc, instrs, name, *time);
        }
        checks.see(name, asks)?;
    }
    check_select(alloc, checks)
}

/// Whether a goroutine goes on after its select, also if a call is refused memory and made again.
fn check_select(alloc: Global, checks: &mut Checks) -> Result<(), Memory> {
    let mut sent = prints_after(alloc, &SELECT, Reply::Clause(2, None), "1\n");
    if is_refused(&sent) {
        sent = prints_after(alloc, &SELECT, Reply::Clause(2, None), "1\n");
    }
    checks.see("a select has sent", sent)
}

/// Whether goroutines ask, print and go on so.
pub(crate) fn check(alloc: Global, checks: &mut Checks) -> Result<(), Memory> {
    for (name, instrs, text, time) in &PRINTED {
        checks.see(name, prints_first(alloc, instrs, text, *time))?;
    }
    for (instrs, name, time) in &ASKED {
        checks.see(name, asks_first(alloc, instrs, name, *time))?;
    }
    check_answers(alloc, checks)?;
    checks.see("a loop ends at the limit", loop_ends(alloc))
}
