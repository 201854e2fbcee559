//! The source of a program as a kind of goroutine.

use crate::begin::{begun, main_number};
use crate::step::{answer, step};
use go_text::Memory;
use one_thread::{Interpreter, Step};
use reference_task::program::Program;
use reference_task::task::Frame;
use std::alloc::Global;
use word::request::Reply;
use word::value::Word;

/// A program, interpreted. Its goroutines are functions that wait for one another, the one called last at the end.
#[derive(Drop)]
pub struct Source<'t> {
    pub program: Program<'t>,
}

impl<'t> Interpreter for Source<'t> {
    ghost use Rattle.syntax.specs.View.{file_of};
    ghost use Rattle.type_table.specs.Visible.{types_of};
    ghost use Rattle.meaning.specs.Tasks.{Frames};
    ghost use Rattle.meaning.proofs.Ends.{source_falls, weight as weight_of};
    ghost use Rattle.reference_task.specs.Tasks.{frames_of};
    ghost use Rattle.reference.specs.Kinds.{source_parts};

    type State = Vec<Frame<'t>>;

    ghost Held = { Frames };

    ghost parts = { λ source. source_parts (file_of source.program.file.now) };

    ghost held = { λ source frames. frames_of (types_of source.program.table) frames.items };

    ghost weight = { λ source frames. weight_of frames };

    fn step(&self, alloc: Global, state: &mut Self::State) -> Result<Step, Memory> {
        step(alloc, &self.program, state)
    }

    fn answer(&self, alloc: Global, state: &mut Self::State, reply: Reply) -> Result<(), Memory> {
        answer(state, reply)
    }

    fn begin(
        &self,
        alloc: Global,
        function: u32,
        arguments: &[Word],
    ) -> Result<Self::State, Memory> {
        let frames = begun(alloc, &self.program, function, arguments)?;
        Ok(frames)
    }

    fn main(&self) -> u32 {
        main_number(&self.program)
    }

    ghost falls = { λ source frames. source_falls (file_of source.program.file.now) frames };
}
