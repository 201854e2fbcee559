//! The explanation of an end.

use crate::moment::{Moment, Shown};
use crate::sentence::{push_deadlock, push_exhausted, push_forever, push_panic};
use diagnostic_words::words::Words;
use go_text::Memory;
use inspection::Scene;
use word::end::End;

/// What an explanation is made from: the program, and the last moment of its run.
#[derive(Clone, Copy)]
pub(crate) struct Report<'a, 't> {
    pub scene: Scene<'a, 't>,
    pub moment: &'a Moment,
    /// The goroutines that are printed.
    pub shown: &'a Shown,
}

/// Where the goroutines of a program are at the last moment of its run up to a clock limit, in lines: of a deadlock each one, of a panic
/// the one that panicked, with `cause`, of exhausted time the one whose turn it was, of a run that finished those that wait forever.
/// After each line come the line of the source, the variables, and the calls that led there.
///
/// Errors: out of memory.
pub fn end_explanation(
    scene: Scene<'_, '_>,
    moment: &Moment,
    shown: &Shown,
    limit: u64,
    cause: &str,
) -> Result<Vec<u8>, Memory> {
    let report = Report {
        scene,
        moment,
        shown,
    };
    let mut said = Words::new(scene.alloc);
    match moment.end {
        End::Finished => push_forever(&mut said, report),
        End::Deadlock => push_deadlock(&mut said, report),
        End::Panicked(panic) => push_panic(&mut said, report, cause, panic),
        End::Exhausted => push_exhausted(&mut said, report, limit),
    }
    Ok(said.into_bytes()?)
}
