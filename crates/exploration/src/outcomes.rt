//! The outcomes of an exploration, for programs that read them.

use crate::exploration::Exploration;
use crate::findings::Findings;
use crate::scene::Scene;
use crate::shown::Shown;
use diagnostic_words::words::Words;
use go_text::Memory;
use local_states::LocalStates;
use pauses::Change;
use program_states::Ending;
use schedule::Delay;

/// How a program ends.
#[derive(Clone, Copy)]
pub enum OutcomeEnd {
    /// As Go has it too, or at a limit of kendo's own.
    Ends(Ending),
    /// Logical time is exhausted.
    Exhausted,
    /// It does not end within the steps of the ordinary run.
    Unended,
}

/// An outcome of an exploration, and how it comes about.
#[derive(Drop)]
pub struct Outcome {
    pub end: OutcomeEnd,
    /// What is printed.
    pub output: Vec<u8>,
    pub cause: Cause,
}

/// What makes a program end so.
#[derive(Drop)]
pub enum Cause {
    /// Nothing: it is the ordinary run.
    Ordinary,
    /// The plan in the file of this name, with these pauses.
    Plan {
        file: String,
        pauses: Vec<PlannedPause>,
    },
    /// The search found it, and no run with pauses shows it in time.
    Unshown,
}

/// A pause of a plan, and where it is.
#[derive(Drop)]
pub struct PlannedPause {
    /// The way from `main` to the goroutine, as in a plan, in UTF-8.
    pub goroutine: Vec<u8>,
    /// The name of the function that the goroutine started with, in UTF-8.
    pub function: Vec<u8>,
    /// The number of the request among those that the goroutine makes, counted from 1.
    pub request: u64,
    pub change: Change,
    /// The number of the line at which it makes the request.
    pub line: u32,
}

impl Exploration<'_> {
    /// The outcomes, in the order of their numbers in the report; those that no run shows follow. `files` are the names of the files
    /// of plans, in the order of the ends that were shown.
    ///
    /// Errors: out of memory.
    pub fn outcomes(
        &self,
        scene: Scene<'_>,
        findings: &Findings,
        files: &[String],
    ) -> Result<Vec<Outcome>, Memory> {
        let mut outcomes = Vec::new(scene.alloc);
        for (index, one) in findings.shown.iter().enumerate() {
            if index == findings.first {
                outcomes.push(ordinary(scene, findings)?)?;
            }
            let file = match files.get(index) {
                Some(file) => file.clone()?,
                None => String::new(scene.alloc),
            };
            outcomes.push(shown(scene, self.search.states(), file, one)?)?;
        }
        if findings.first >= findings.shown.len() {
            outcomes.push(ordinary(scene, findings)?)?;
        }
        for index in findings.missed.iter() {
            if let Some((ending, output)) = self.search.end(*index) {
                outcomes.push(Outcome {
                    end: OutcomeEnd::Ends(ending),
                    output: self.search.text_of(output)?,
                    cause: Cause::Unshown,
                })?;
            }
        }
        Ok(outcomes)
    }
}

/// That of the ordinary run.
fn ordinary(scene: Scene<'_>, findings: &Findings) -> Result<Outcome, Memory> {
    let Some(ran) = &findings.ordinary else {
        return Ok(Outcome {
            end: OutcomeEnd::Unended,
            output: Vec::new(scene.alloc),
            cause: Cause::Ordinary,
        });
    };
    Ok(Outcome {
        end: match ran.ending() {
            Some(ending) => OutcomeEnd::Ends(ending),
            None => OutcomeEnd::Exhausted,
        },
        output: ran.output.clone()?,
        cause: Cause::Ordinary,
    })
}

/// One that a plan shows, which is in the file of this name.
fn shown(
    scene: Scene<'_>,
    locals: &LocalStates<'_>,
    file: String,
    one: &Shown,
) -> Result<Outcome, Memory> {
    let mut pauses = Vec::new(scene.alloc);
    for delay in one.delays.iter() {
        pauses.push(planned_pause(scene, locals, *delay)?)?;
    }
    Ok(Outcome {
        end: OutcomeEnd::Ends(one.ending),
        output: one.output.clone()?,
        cause: Cause::Plan { file, pauses },
    })
}

/// The pause that a delay is.
fn planned_pause(
    scene: Scene<'_>,
    locals: &LocalStates<'_>,
    delay: Delay,
) -> Result<PlannedPause, Memory> {
    let mut goroutine = Words::new(scene.alloc);
    scene.push_way(&mut goroutine, locals, delay.local);
    let mut function = Words::new(scene.alloc);
    function.text(scene.function(locals, delay.local).unwrap_or(""));
    let line = match locals.frames(delay.local).last() {
        Some(frame) => scene.position(frame).line,
        None => 0,
    };
    Ok(PlannedPause {
        goroutine: goroutine.into_bytes()?,
        function: function.into_bytes()?,
        request: delay.request,
        change: delay.change,
        line,
    })
}
