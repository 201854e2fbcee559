//! The report of an exploration.

use crate::hint::Hint;
use crate::scene::Scene;
use crate::shown::Shown;
use diagnostic_words::excerpt::push_shown;
use diagnostic_words::words::Words;
use go_text::Memory;
use kendo_report::report;
use local_states::LocalStates;
use program_states::Ending;
use std::alloc::Global;
use word::end::End;
use word::panic::Panic;

/// The most bytes of an output that are shown.
const MOST_BYTES: usize = 60;

/// Appends an end and what was printed.
pub(crate) fn push_end(said: &mut Words, alloc: Global, ending: Ending, output: &[u8]) {
    push_ending(said, alloc, ending);
    match ending {
        Ending::Finished | Ending::Leak => {
            said.text(", ");
            push_output(said, output);
        }
        Ending::Panicked(_) | Ending::Deadlock => push_before(said, output),
        Ending::Limit(_) => {}
    }
}

/// Appends how a program ends.
fn push_ending(said: &mut Words, alloc: Global, ending: Ending) {
    match ending {
        Ending::Finished => said.text("finished"),
        Ending::Leak => said.text("goroutines left waiting"),
        Ending::Panicked(panic) => push_panic(said, alloc, panic),
        Ending::Deadlock => said.text("deadlock"),
        Ending::Limit(panic) => {
            push_panic(said, alloc, panic);
            said.text(", a limit of kendo");
        }
    }
}

/// How a program ends, in words.
///
/// Errors: out of memory.
pub(crate) fn end_words(alloc: Global, ending: Ending) -> Result<Vec<u8>, Memory> {
    let mut said = Words::new(alloc);
    push_ending(&mut said, alloc, ending);
    Ok(said.into_bytes()?)
}

/// Appends what was printed before an end, if anything was.
fn push_before(said: &mut Words, output: &[u8]) {
    if !output.is_empty() {
        said.text(" after ");
        push_output(said, output);
    }
}

/// Appends a number, with a comma before each three digits at its end.
pub(crate) fn push_number(said: &mut Words, number: usize) {
    let mut place: usize = 1_000_000_000_000_000_000;
    let mut has_begun = false;
    for _ in 0..7 {
        let group = number.checked_div(place).unwrap_or(0) % 1_000;
        if has_begun {
            said.text(match group {
                0..=9 => ",00",
                10..=99 => ",0",
                _ => ",",
            });
        }
        if has_begun || group > 0 || place == 1 {
            said.number(group as i128);
            has_begun = true;
        }
        if place >= 1_000 {
            place /= 1_000;
        }
    }
}

/// Appends a number and what is counted.
pub(crate) fn push_count(said: &mut Words, count: usize, one: &str, many: &str) {
    push_number(said, count);
    said.text(if count == 1 { one } else { many });
}

/// Appends a panic, as a run reports it.
pub(crate) fn push_panic(said: &mut Words, alloc: Global, panic: Panic) {
    let Ok((line, _status)) = report(alloc, &Ok(End::Panicked(panic))) else {
        said.refuse();
        return;
    };
    let line = line.as_slice();
    let line = line.strip_prefix(b"kendo: ".as_slice()).unwrap_or(line);
    said.bytes(line.strip_suffix(b"\n".as_slice()).unwrap_or(line));
}

/// Appends an output in quotes, without the last newline, and cut after 60 bytes.
fn push_output(said: &mut Words, output: &[u8]) {
    let output = output.strip_suffix(b"\n".as_slice()).unwrap_or(output);
    said.text("\"");
    let mut count: usize = 0;
    for line in output.split(|byte| *byte == b'\n') {
        if count > 0 {
            said.text("\\n");
        }
        let left = MOST_BYTES.saturating_sub(count);
        let piece = line.get(..left).unwrap_or(line);
        match str::from_utf8(piece) {
            Ok(text) => push_shown(said, text),
            Err(_) => said.text(".."),
        }
        count = count.saturating_add(line.len()).saturating_add(1);
        if count > MOST_BYTES {
            said.text(" ..");
            break;
        }
    }
    said.text("\"");
}

/// Appends how an end comes about: its pauses, and the statements that the goroutines are at then.
pub(crate) fn push_shown_end(
    said: &mut Words,
    scene: Scene<'_>,
    locals: &LocalStates<'_>,
    number: usize,
    shown: &Shown,
) {
    said.number(number as i128);
    said.text(match shown.delays.len() {
        0 => " comes without a pause:\n",
        1 => " comes with 1 pause:\n",
        _ => " comes with these pauses:\n",
    });
    for delay in shown.delays.iter() {
        scene.push_delay(said, locals, *delay);
    }
    push_hint(said, scene, locals, shown);
    match shown.ending {
        Ending::Deadlock | Ending::Leak => push_waiting(said, scene, locals, shown),
        Ending::Finished | Ending::Panicked(_) | Ending::Limit(_) => {}
    }
    if let Some(local) = shown.scene.last {
        said.text("  then ");
        scene.push_goroutine(said, locals, local);
        said.text(" panics\n  ");
        scene.push_place(said, locals, local);
    }
}

/// Appends the goroutines that wait at the end.
fn push_waiting(said: &mut Words, scene: Scene<'_>, locals: &LocalStates<'_>, shown: &Shown) {
    for local in shown.scene.world.locals.iter() {
        let is_main = matches!(locals.local(*local), Some(one) if one.goroutine() == 0);
        if is_main && shown.ending == Ending::Leak {
            continue;
        }
        said.text("  then ");
        scene.push_goroutine(said, locals, *local);
        said.text(" waits\n  ");
        scene.push_place(said, locals, *local);
    }
}

/// Appends what may show the end in real Go.
fn push_hint(said: &mut Words, scene: Scene<'_>, locals: &LocalStates<'_>, shown: &Shown) {
    match (shown.hint, shown.delays.first()) {
        (Hint::Sleep(line), _) => {
            said.text("  in Go: time.Sleep(time.Millisecond) before line ");
            said.number(i128::from(line));
            said.text("\n");
        }
        (Hint::Alone, Some(delay)) => {
            said.text("  in Go: ");
            scene.push_goroutine(said, locals, delay.local);
            said.text(" has to be late there, and no other one\n");
        }
        (Hint::Alone | Hint::Nothing, _) => {}
    }
}
