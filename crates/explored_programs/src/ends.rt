//! The ends of programs, for a comparison with another search.
//!
//! `orders [--ends] [--ordered] [--leaks] [--unreduced] [--states N] FILE..` prints for each file the line `FILE whole STATES`, or `FILE cut
//! STATES` if not all orders were searched, then a line `KIND TEXT` for each end, and an empty line. TEXT is the output as a JSON string.

use codegen::compile;
use go_text::Fault;
use kendo_explore::Scope;
use kendo_reading::read;
use orders::Search;
use program_states::{Ending, Space};
use std::alloc::Global;
use std::{fs, io};
use verifier::verify;
use word::panic::Panic;

/// The most states that are visited.
const MOST_STATES: usize = 200_000;

/// How programs are searched.
#[derive(Clone, Copy)]
struct Manner {
    scope: Scope,
    reduces: bool,
    states: usize,
}

/// Prints the ends of the programs that these words name.
pub(crate) fn print_ends(rt: &HostRuntime, words: &[String]) -> io::Result<()> {
    let mut manner = Manner {
        scope: Scope {
            outputs: true,
            lines_in_order: false,
            leaks: false,
        },
        reduces: true,
        states: MOST_STATES,
    };
    let mut is_count = false;
    for word in words.iter().skip(2) {
        let word = word.as_str();
        if is_count {
            manner.states = word.parse().unwrap_or(MOST_STATES);
            is_count = false;
            continue;
        }
        match word {
            "--ends" => manner.scope.outputs = false,
            "--ordered" => manner.scope.lines_in_order = true,
            "--leaks" => manner.scope.leaks = true,
            "--unreduced" => manner.reduces = false,
            "--states" => is_count = true,
            path => print_file(rt, path, manner)?,
        }
    }
    Ok(())
}

/// Prints the ends of the program of a file.
fn print_file(rt: &HostRuntime, path: &str, manner: Manner) -> io::Result<()> {
    let bytes = fs::read(rt, path)?;
    match ends_of(rt.alloc(), path, bytes, manner) {
        Ok(text) => println!(rt; "{text}"),
        Err(fault) => println!(rt; "{path}: {fault}\n"),
    }
}

/// The lines for a program.
fn ends_of(alloc: Global, path: &str, bytes: Vec<u8>, manner: Manner) -> Result<String, Fault> {
    let (_source, typed) = read(alloc, bytes)?;
    let program = verify(alloc, compile(alloc, &typed)?)?;
    let space = Space::new(alloc, &program, manner.scope);
    let space = if manner.reduces {
        space
    } else {
        space.unreduced()
    };
    let mut search = Search::new(alloc, space)?;
    let _has_more = search.visit_some(manner.states)?;
    let extent = if search.is_whole() { "whole" } else { "cut" };
    let states = search.visited();
    let mut said = format!(in alloc; "{path} {extent} {states}\n")?;
    for found in search.ends().iter() {
        push_kind(&mut said, found.ending)?;
        let text = search.text_of(found.output)?;
        push_json(&mut said, text.as_slice())?;
    }
    Ok(said)
}

/// Appends the kind of an end.
fn push_kind(said: &mut String, ending: Ending) -> Result<(), Fault> {
    said.push_str(match ending {
        Ending::Finished => "finished",
        Ending::Deadlock => "deadlock",
        Ending::Leak => "leak",
        Ending::Panicked(_) => "panic ",
        Ending::Limit(_) => "limit ",
    })?;
    if let Ending::Panicked(panic) | Ending::Limit(panic) = ending {
        said.push_str(name_of(panic))?;
    }
    Ok(())
}

/// The name of a panic.
fn name_of(panic: Panic) -> &'static str {
    match panic {
        Panic::DivideByZero => "P1",
        Panic::SendOnClosed => "P2",
        Panic::CloseOfClosed => "P3",
        Panic::CloseOfNil => "P4",
        Panic::NegativeShift => "P5",
        Panic::ChannelSize => "P6",
        Panic::CallDepth => "P7",
        Panic::TooManyGoroutines => "P8",
        Panic::TooManyChannels => "P9",
    }
}

/// Appends a space, an output as a JSON string, and a newline.
fn push_json(said: &mut String, output: &[u8]) -> Result<(), Fault> {
    said.push_str(" \"")?;
    let text = str::from_utf8(output).unwrap_or("");
    for letter in text.chars() {
        match letter {
            '\n' => said.push_str("\\n")?,
            '\t' => said.push_str("\\t")?,
            '"' => said.push_str("\\\"")?,
            '\\' => said.push_str("\\\\")?,
            letter => said.push(letter)?,
        }
    }
    said.push_str("\"\n")?;
    Ok(())
}
