//! The nodes of instructions, from marks and the nodes of parts.

use crate::map::FunctionMap;
use crate::walk::PartNodes;
use bytecode::{Code, Instr};
use codegen::Mark;
use go_text::Memory;
use std::alloc::Global;
use syntax::NodeId;
use word::apply::Op;

/// A part that has begun and not ended.
#[derive(Clone, Copy)]
struct OpenPart<'p> {
    own: NodeId,
    /// The nodes of the operations whose instructions come next.
    operations: &'p [NodeId],
}

impl OpenPart<'_> {
    /// The node that the next instruction of the part comes from.
    fn next_node(&mut self, instr: Option<&Instr>) -> NodeId {
        if does_operation(instr) {
            if let Some((node, rest)) = self.operations.split_first() {
                self.operations = rest;
                return *node;
            }
        }
        self.own
    }
}

/// The functions of a program, up to a mark.
#[derive(Drop)]
pub(crate) struct Filling<'p> {
    alloc: Global,
    code: &'p Code,
    /// The functions that are complete.
    functions: Vec<FunctionMap>,
    /// The function that the mark belongs to, if there is one.
    current: Option<FunctionMap>,
    /// Its instructions.
    instrs: &'p [Instr],
    /// The parts that have begun and not ended, the innermost last.
    open: Vec<OpenPart<'p>>,
}

impl<'p> Filling<'p> {
    /// The functions of a program with this code and these marks: `parts` has the nodes of each function and part in the order of
    /// the marks at which they begin.
    ///
    /// Errors: out of memory.
    pub(crate) fn functions_of(
        alloc: Global,
        code: &'p Code,
        marks: &[Mark],
        parts: &'p [PartNodes],
    ) -> Result<Vec<FunctionMap>, Memory> {
        let mut filling = Filling {
            alloc,
            code,
            functions: Vec::new(alloc),
            current: None,
            instrs: &[],
            open: Vec::new(alloc),
        };
        let mut left = parts.iter();
        for mark in marks {
            match mark {
                Mark::Function => filling.begin_function(left.next())?,
                Mark::Begin { at, .. } => filling.begin(*at, left.next())?,
                Mark::End { at } => filling.end(*at)?,
            }
        }
        filling.finish()
    }

    /// The next function begins.
    fn begin_function(&mut self, part: Option<&'p PartNodes>) -> Result<(), Memory> {
        let own = match part {
            Some(part) => part.own,
            None => 0,
        };
        let nodes = Vec::new(self.alloc);
        if let Some(before) = self.current.replace(FunctionMap { own, nodes }) {
            self.functions.push(before)?;
        }
        self.instrs = match self.code.functions().get(self.functions.len()) {
            Some(function) => function.instrs(),
            None => &[],
        };
        self.open.clear();
        Ok(())
    }

    /// A part begins.
    fn begin(&mut self, at: u32, part: Option<&'p PartNodes>) -> Result<(), Memory> {
        self.fill(at)?;
        self.open.push(match part {
            Some(part) => OpenPart {
                own: part.own,
                operations: part.operations.as_slice(),
            },
            None => OpenPart {
                own: 0,
                operations: &[],
            },
        })?;
        Ok(())
    }

    /// The innermost part ends.
    fn end(&mut self, at: u32) -> Result<(), Memory> {
        self.fill(at)?;
        let _ended = self.open.pop();
        Ok(())
    }

    /// The instructions up to index `at` come from the innermost part. Those that were there and were dropped are dropped.
    fn fill(&mut self, at: u32) -> Result<(), Memory> {
        let Some(current) = &mut self.current else {
            return Ok(());
        };
        let nodes = &mut current.nodes;
        nodes.truncate(at as usize);
        for index in nodes.len()..at as usize {
            let node = match self.open.last_mut() {
                Some(part) => part.next_node(self.instrs.get(index)),
                None => current.own,
            };
            nodes.push(node)?;
        }
        Ok(())
    }

    /// All functions.
    fn finish(self) -> Result<Vec<FunctionMap>, Memory> {
        let Filling {
            alloc: _,
            code: _,
            mut functions,
            current,
            instrs: _,
            open: _,
        } = self;
        if let Some(last) = current {
            functions.push(last)?;
        }
        Ok(functions)
    }
}

/// Whether an instruction does what an operation within an expression does.
fn does_operation(instr: Option<&Instr>) -> bool {
    matches!(
        instr,
        Some(
            Instr::Call(_)
                | Instr::Receive(_)
                | Instr::Make(_)
                | Instr::Len
                | Instr::Cap
                | Instr::Apply(Op::Div | Op::Rem | Op::Shl | Op::Shr)
        )
    )
}
