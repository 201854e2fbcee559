//! Selects, without their ways.

ghost use Rattle.std.specs.Prelude.{◌≡◌, ◌≤◌, ◌^◌, ◌∷◌, ◌++◌, [], IfErr, IfOk, None, OnOk, Some, cond, length, option_map, slice_set};
ghost use Rattle.bytecode.specs.declared.instr.Instr.TheVariants as instrs;
ghost use Rattle.codegen_flow.specs.Controls.{control};
ghost use Rattle.codegen_flow.specs.Closed.{closed, closed_one};
ghost use Rattle.codegen_flow.specs.Waits.{continues, settled};
ghost use Rattle.codegen_flow.specs.Selects.{any_control, after_select, no_table, together};
ghost use Rattle.std.specs.Option.{is_some};

use crate::flow::{Flow, join_way};
use crate::waits::{Wait, aim};
use bytecode::{Instr, SelectTable};
use codegen_expression::operand::number;
use std::alloc::{AllocError, Global};

/// A way of a select: whether it leads on, and the pc of the jump over the ways after it.
#[derive(Clone, Copy)]
pub struct Held {
    pub place: usize,
    pub leads: bool,
}

/// The ways of a select: where control goes from them, if there are any, the pcs at which they begin, and their jumps over the later ones.
#[derive(Drop)]
pub struct WayList {
    pub flow: Option<Flow>,
    pub places: Vec<u32>,
    pub held: Vec<Held>,
}

/// Emits the jump over the later ways, without its target, if the way leads on.
///
/// Errors: out of memory.
pub fn hold(leads: bool, code: &mut Vec<Instr>) -> Result<Held, AllocError>
    ensures place { IfOk result (λ held. held.place ≡ length code.old.items) }
    ensures leads { IfOk result (λ held. held.leads ≡ leads) }
    ensures held { OnOk result (code.new.items ≡ code.old.items ++ cond leads (instrs.Jump 0 ∷ []) []) }
{
    let place = code.len();
    if leads {
        code.push(Instr::Jump(0))?;
        return Ok(Held { place, leads });
    }
    Ok(Held { place, leads })
}

/// The ways after this one have ended: the jump over them gets its target. If there are none, it is taken back.
fn close_one(held: Held, are_there: bool, code: &mut Vec<Instr>) -> Result<(), AllocError>
    ensures closed { OnOk result (code.new.items ≡ closed_one held are_there code.old.items) }
    ensures shorter { OnOk result (length code.new.items ≤ length code.old.items) }
    ensures far { IfErr result (λ _. 2 ^ 32 ≤ length code.old.items) }
{
    if !are_there {
        code.truncate(held.place);
        return Ok(());
    }
    if held.leads {
        let next = number(code.len())?;
        aim(code, held.place, Instr::Jump(next));
    }
    Ok(())
}

/// All ways have ended: the jumps over later ones get their targets. If nothing follows the last one, its jump is
/// taken back.
///
/// Errors: a number of the code would pass 2^32.
#[tactic(auto, using(crate::proofs::Closing::closed_last))]
pub fn close(all: &[Held], are_there: bool, code: &mut Vec<Instr>) -> Result<(), AllocError>
    ensures closed { OnOk result (code.new.items ≡ closed all.now are_there code.old.items) }
    ensures far { IfErr result (λ _. 2 ^ 32 ≤ length code.old.items) }
{
    let mut left = all;
    let mut there = are_there;
    while let Some((held, others)) = left.split_last() {
        close_one(*held, there, code)?;
        there = true;
        left = others;
    }
    Ok(())
}

/// Emits a select's instruction, and reserves index `at` for its table.
///
/// Errors: a number of the code would pass 2^32; out of memory.
pub fn hold_select(
    alloc: Global,
    at: usize,
    code: &mut Vec<Instr>,
    tables: &mut Vec<SelectTable>,
) -> Result<(), AllocError>
    ensures code { OnOk result (code.new.items ≡ code.old.items ++ instrs.Select at ∷ []) }
    ensures tables { OnOk result (tables.new.items ≡ tables.old.items ++ no_table ∷ []) }
{
    code.push(Instr::Select(number(at)?))?;
    tables.push(SelectTable::new(Vec::new(alloc), None))?;
    Ok(())
}

/// Puts a select's table at index `at`, which was reserved for it.
pub fn set_table(tables: &mut Vec<SelectTable>, at: usize, table: SelectTable)
    ensures { tables.new.items ≡ slice_set tables.old.items at table }
{
    if let Some(place) = tables.get_mut(at) {
        *place = table;
    }
}

/// A break leads to `stop`.
fn settle_one(wait: Wait, stop: u32, code: &mut Vec<Instr>)
    ensures { code.new.items ≡ cond wait.leaves (slice_set code.old.items wait.place (instrs.Jump stop)) code.old.items }
{
    if wait.leaves {
        aim(code, wait.place, Instr::Jump(stop));
    }
}

/// Breaks lead to `stop`.
#[tactic(auto, using(crate::proofs::Settling::settled_last))]
fn settle(waits: &[Wait], stop: u32, code: &mut Vec<Instr>)
    ensures { code.new.items ≡ settled waits.now stop code.old.items }
{
    let mut left = waits;
    while let Some((wait, others)) = left.split_last() {
        settle_one(*wait, stop, code);
        left = others;
    }
}

/// A continue still waits.
fn keep_waiting(wait: Wait, left: &mut Vec<Wait>) -> Result<(), AllocError>
    ensures { OnOk result (left.new.items ≡ left.old.items ++ cond wait.leaves [] (wait ∷ [])) }
{
    if !wait.leaves {
        left.push(wait)?;
    }
    Ok(())
}

/// The continues.
#[tactic(auto, using(crate::proofs::Settling::continues_more))]
fn left_waiting(alloc: Global, waits: &[Wait]) -> Result<Vec<Wait>, AllocError>
    ensures { IfOk result (λ left. left.items ≡ continues waits.now) }
{
    let mut left = Vec::new(alloc);
    for wait in waits {
        keep_waiting(*wait, &mut left)?;
    }
    Ok(left)
}

/// A select has ended: the breaks of its ways lead to its end.
///
/// Errors: out of memory.
pub fn leave_select(alloc: Global, ways: &Flow, code: &mut Vec<Instr>) -> Result<Flow, AllocError>
    ensures flow { IfOk result (λ flow. control flow ≡ after_select (control ways.now)) }
    ensures settled { OnOk result (code.new.items ≡ settled ways.now.waits.items (length code.old.items) code.old.items) }
{
    let stop = number(code.len())?;
    let waits = left_waiting(alloc, ways.waits.as_slice())?;
    settle(ways.waits.as_slice(), stop, code);
    Ok(Flow {
        waits,
        reaches_end: ways.reaches_end || ways.has_break,
        has_break: false,
        has_continue: ways.has_continue,
    })
}

/// Where control goes from the ways of a select. After one without ways, which waits for ever, there is code nevertheless.
pub fn from_ways(alloc: Global, ways: Option<Flow>) -> Flow
    ensures { control result ≡ any_control (option_map control ways) }
{
    match ways {
        Some(ways) => ways,
        None => Flow::through(alloc),
    }
}

impl WayList {
    /// No ways.
    pub fn new(alloc: Global) -> WayList
        ensures flow { result.flow ≡ None }
        ensures places { result.places.items ≡ [] }
        ensures held { result.held.items ≡ [] }
    {
        WayList {
            flow: None,
            places: Vec::new(alloc),
            held: Vec::new(alloc),
        }
    }
}

/// Control goes there from one more way.
fn with_way(before: Option<Flow>, flow: Flow) -> Result<Flow, AllocError>
    ensures { IfOk result (λ joined. Some (control joined) ≡ together (option_map control before) (Some (control flow))) }
{
    match before {
        None => Ok(flow),
        Some(mut first) => {
            join_way(&mut first, flow)?;
            Ok(first)
        }
    }
}

/// Adds a way, which begins at pc `place`.
///
/// Errors: out of memory.
pub fn add_way(list: &mut WayList, place: u32, held: Held, flow: Flow) -> Result<(), AllocError>
    ensures flow { OnOk result (option_map control list.new.flow ≡ together (option_map control list.old.flow) (Some (control flow))) }
    ensures places { OnOk result (list.new.places.items ≡ list.old.places.items ++ place ∷ []) }
    ensures held { OnOk result (list.new.held.items ≡ list.old.held.items ++ held ∷ []) }
{
    list.places.push(place)?;
    list.held.push(held)?;
    let before = list.flow.take();
    list.flow = Some(with_way(before, flow)?);
    Ok(())
}

/// All ways have ended; that of a default comes last and begins at pc `place`.
///
/// Errors: out of memory.
pub fn end_ways(list: &mut WayList, place: u32, default: Option<Flow>) -> Result<(), AllocError>
    ensures flow { OnOk result (option_map control list.new.flow ≡ together (option_map control list.old.flow) (option_map control default)) }
    ensures places { OnOk result (list.new.places.items ≡ list.old.places.items ++ cond (is_some default) (place ∷ []) []) }
{
    let Some(flow) = default else {
        return Ok(());
    };
    list.places.push(place)?;
    let before = list.flow.take();
    list.flow = Some(with_way(before, flow)?);
    Ok(())
}
