//! From bytes and a plan to the recording of the run.

ghost use Rattle.std.specs.Prelude.{◌≡◌, ◌≤◌, ◌^◌, ◌⊎◌, ◌↔◌, IfErr, IfNone, IfOk, IsErrOf, length, map};
ghost use Rattle.checker.specs.Trees.{tree_in};
ghost use Rattle.event_window.specs.Windows.{IsWindow, Shows};
ghost use Rattle.kendo_reading.specs.Reading.{HasNoReading, IsRefusal, IsWhy, Reads};
ghost use Rattle.meaning.specs.Source.{source_kind};
ghost use Rattle.pauses.specs.Paused.{paused};
ghost use Rattle.pauses.specs.Plans.{pauses_of};
ghost use Rattle.syntax.specs.Spans.{tree_of};
ghost use Rattle.syntax.specs.Tree.{File};
ghost use Rattle.whole_run.specs.Runs.{IsLimit};
ghost use Rattle.word.specs.Views.{event_of};

use crate::functions::Functions;
use crate::keeping::keep;
use crate::sited::Noting;
use channel_names::mention_at;
use checker::Typed;
use go_text::{Fault, Memory, Source};
use kendo_reading::read;
use one_thread::open_run;
use paused_goroutine::Paused;
use pauses::Plan;
use statement_map::NodeLines;
use std::alloc::Global;
use syntax::{TopNode, Tree};
use timeline::{Mention, Notes, Recording, Window};
use watched_goroutine::Watched;

/// Interprets the program that a source file is, up to the clock limit (1 to 2^62 steps); each goroutine keeps to the plan. It keeps
/// the events of a window, at most `most`, and what there was before them: what a picture of the run shows. What the program prints
/// is not written.
///
/// Errors: by the numbers 1 to 10 why the source file is no program, with line and column; `Memory`; `BadLimit`.
pub fn timeline_paused(
    alloc: Global,
    bytes: Vec<u8>,
    plan: &Plan,
    limit: u64,
    window: Window,
    most: usize,
) -> Result<Recording, Fault>
    ensures limit { IsErrOf result Fault.BadLimit ↔ (IsLimit limit → ⊥) }
    ensures refused { IfErr result (λ fault. IsRefusal fault → HasNoReading bytes.items) }
    ensures why { IfErr result (λ fault. IsRefusal fault → IsWhy bytes.items fault) }
    ensures only { IfErr result (λ fault. IsRefusal fault ⊎ ((fault ≡ Fault.Memory) ⊎ (fault ≡ Fault.BadLimit))) }
    ensures reads { IfOk result (λ _. (file : File) × Reads bytes.items file) }
    ensures recorded { IfOk result (λ made. (file : File) × Reads bytes.items file × IsWindow (paused (source_kind file) (pauses_of plan.now.pauses.items)) limit made.before (map event_of made.events.items) made.end) }
    ensures shows { IfOk result (λ made. Shows window most made.before (length made.events.items) made.end) }
    ensures few { IfOk result (λ made. length made.events.items ≤ most) }
    ensures cut { IfOk result (λ made. IfNone made.end (most ≤ length made.events.items)) }
{
    if limit < 1 || limit > 1 << 62 {
        return Err(Fault::BadLimit);
    }
    let (source, typed) = read(alloc, bytes)?;
    let recording = recorded(alloc, &source, &typed, plan, limit, window, most)?;
    Ok(recording)
}

/// The events of a window of the run of a checked program by a plan.
fn recorded(
    alloc: Global,
    source: &Source,
    typed: &Typed,
    plan: &Plan,
    limit: u64,
    window: Window,
    most: usize,
) -> Result<Recording, Memory>
    requires { limit ≤ 2 ^ 62 }
    ensures recorded { IfOk result (λ made. IsWindow (paused (source_kind (tree_of (tree_in typed.now))) (pauses_of plan.now.pauses.items)) limit made.before (map event_of made.events.items) made.end) }
    ensures shows { IfOk result (λ made. Shows window most made.before (length made.events.items) made.end) }
    ensures few { IfOk result (λ made. length made.events.items ≤ most) }
    ensures cut { IfOk result (λ made. IfNone made.end (most ≤ length made.events.items)) }
{
    let tree = typed.tree();
    let functions = Functions::new(alloc, tree.file().tops.as_slice())?;
    let lines = NodeLines::new(alloc, source, tree)?.all(alloc)?;
    let lines = functions.lines(alloc, lines.as_slice())?;
    let program = Watched::new(alloc, typed)?;
    let paused = Paused { program, plan };
    let mut run = open_run(alloc, &paused, limit)?;
    let mut noting = Noting::new(alloc, &functions, &paused.program);
    noting.note(&run, 1, 0)?;
    let kept = keep(alloc, &paused, &mut noting, &mut run, window, most)?;
    let recording = kept.recording(alloc, names(alloc, tree)?);
    let mentions = mentions_of(alloc, tree, &functions, &recording)?;
    let pauses = noting.into_pauses();
    Ok(recording.with_notes(Notes {
        lines,
        mentions,
        pauses,
    }))
}

/// What the program calls the channels of a recording of its run.
fn mentions_of(
    alloc: Global,
    tree: &Tree,
    functions: &Functions,
    recording: &Recording,
) -> Result<Vec<Mention>, Memory> {
    let sites = recording.channel_sites(alloc)?;
    let mut mentions = Vec::new(alloc);
    for site in sites.iter() {
        let node = functions.node(*site).unwrap_or(0);
        mentions.push(mention_at(alloc, tree.file(), node, *site)?)?;
    }
    Ok(mentions)
}

/// The names of the functions, each at its number.
fn names(alloc: Global, tree: &Tree) -> Result<Vec<String>, Memory> {
    let mut names = Vec::new(alloc);
    for top in tree.file().tops.iter() {
        if let TopNode::Function(function) = top {
            let name = str::from_utf8(function.name.bytes.as_slice()).unwrap_or("");
            names.push(String::from_str(alloc, name)?)?;
        }
    }
    Ok(names)
}
