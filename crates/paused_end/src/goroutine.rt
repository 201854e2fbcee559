//! The goroutines of a run by a plan, when it has ended.

use crate::ending::is_ending;
use end_explanation::{Call, Goroutine, variables_line};
use go_text::Memory;
use one_thread::{Goroutine as Running, OpenRun};
use paused_goroutine::PausedState;
use reference_task::task::Frame;
use reference_value::given::Given;
use std::alloc::Global;
use watched_goroutine::{LastStep, Placed, Watched};
use word::end::End;
use word::request::Reply;
use word::value::Word;

/// A run that has ended, and the program that it was of.
#[derive(Clone, Copy)]
pub(crate) struct Seen<'s, 't> {
    pub alloc: Global,
    pub program: &'s Watched<'t>,
    pub run: &'s OpenRun<PausedState<Placed<'t>>>,
    pub end: End,
    /// The number of the goroutine whose event was the last one.
    pub acting: u64,
}

impl<'s, 't> Seen<'s, 't> {
    /// The goroutines of these numbers that have not ended. Their variables are left out.
    ///
    /// Errors: out of memory.
    pub(crate) fn goroutines(self, numbers: &[u64]) -> Result<Vec<Goroutine>, Memory> {
        let mut all = Vec::new(self.alloc);
        for number in numbers {
            if let Some(running) = self.run.goroutine(*number) {
                all.push(self.goroutine(*number, running)?)?;
            }
        }
        Ok(all)
    }

    /// The line with the variables of a goroutine's function that was called last; empty if there are none.
    ///
    /// Errors: out of memory.
    pub(crate) fn variables(self, number: u64) -> Result<Vec<u8>, Memory> {
        let Some(running) = self.run.goroutine(number) else {
            return Ok(Vec::new(self.alloc));
        };
        let placed = &running.state.state;
        match self.frames(number, placed).last() {
            Some(frame) => variables_line(self.alloc, &frame.position.scope),
            None => Ok(Vec::new(self.alloc)),
        }
    }

    /// What the goroutine of a number did last, if that brought about the end of the run at the clock limit.
    fn last_step(self, number: u64, placed: &Placed<'t>) -> LastStep {
        if self.end == End::Exhausted && number == self.acting {
            placed.last_step
        } else {
            LastStep::Free
        }
    }

    /// The functions of a goroutine, the one called last at the end. A call that came to the clock limit is not made.
    fn frames(self, number: u64, placed: &'s Placed<'t>) -> &'s [Frame<'t>] {
        let frames = placed.frames.as_slice();
        let count = match self.last_step(number, placed) {
            LastStep::Called => frames.len().saturating_sub(1),
            LastStep::Free | LastStep::Ticked => frames.len(),
        };
        frames.get(..count).unwrap_or(frames)
    }

    /// A goroutine that has not ended.
    fn goroutine(
        self,
        number: u64,
        running: &'s Running<PausedState<Placed<'t>>>,
    ) -> Result<Goroutine, Memory> {
        let alloc = self.alloc;
        let placed = &running.state.state;
        let frames = placed.frames.as_slice();
        Ok(Goroutine {
            number,
            clock: running.clock.time(),
            wish: if running.asleep {
                Some(placed.wish.copy(alloc)?)
            } else {
                None
            },
            is_ending: is_ending(frames),
            calls: self.calls(number, placed)?,
            held: held_by(alloc, frames)?,
            variables: Vec::new(alloc),
        })
    }

    /// The functions that run, and where they are.
    fn calls(self, number: u64, placed: &'s Placed<'t>) -> Result<Vec<Call>, Memory> {
        let mut calls = Vec::new(self.alloc);
        for (index, _) in self.frames(number, placed).iter().enumerate() {
            if let Some(track) = placed.trail.tracks.get(index) {
                calls.push(Call {
                    function: track.function as usize,
                    node: self.program.node(self.alloc, placed, index)?,
                })?;
            }
        }
        if let (LastStep::Ticked, Some(last)) = (self.last_step(number, placed), calls.last_mut()) {
            last.node = placed.trail.done().node;
        }
        Ok(calls)
    }
}

/// The channels that functions hold in their variables and in what calls and requests gave them.
fn held_by(alloc: Global, frames: &[Frame<'_>]) -> Result<Vec<u32>, Memory> {
    let mut held = Vec::new(alloc);
    for frame in frames {
        for block in frame.position.scope.blocks.iter() {
            for variable in block.variables.iter() {
                hold(&mut held, variable.words.as_slice())?;
            }
        }
        for given in frame.given.iter() {
            hold_given(&mut held, given)?;
        }
    }
    Ok(held)
}

/// Adds the channels that a call or a request gave.
fn hold_given(held: &mut Vec<u32>, given: &Given) -> Result<(), Memory> {
    match given {
        Given::Yielded(words) => hold(held, words.as_slice()),
        Given::Told(Reply::Word(word)) => hold(held, &[*word]),
        Given::Told(Reply::Received(item, _) | Reply::Clause(_, Some((item, _)))) => {
            hold(held, item.words())
        }
        Given::Told(_) => Ok(()),
    }
}

/// Adds the channels among these words.
fn hold(held: &mut Vec<u32>, words: &[Word]) -> Result<(), Memory> {
    for word in words {
        if let Word::Chan(Some(channel)) = word {
            held.push(*channel)?;
        }
    }
    Ok(())
}
