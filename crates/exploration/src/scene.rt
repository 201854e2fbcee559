//! The program, and the locations of its goroutines in it.

use bytecode::Code;
use diagnostic_words::excerpt::push_excerpt;
use diagnostic_words::words::Words;
use go_text::{Position, Source, Span};
use goroutine_vm::Frame;
use local_states::{LocalStates, Wish};
use pauses::Change;
use schedule::Delay;
use statement_map::StatementMap;
use std::alloc::Global;
use syntax::{NodeId, Tree};

/// A program's text, tree and code, and the path of its file.
#[derive(Clone, Copy)]
pub struct Scene<'a> {
    pub alloc: Global,
    pub path: &'a str,
    pub source: &'a Source,
    pub tree: &'a Tree,
    /// What the code's instructions come from.
    pub map: &'a StatementMap,
    pub code: &'a Code,
}

impl<'a> Scene<'a> {
    /// The node that a function is at.
    fn node(self, frame: &Frame) -> NodeId {
        self.map.node(frame.function(), frame.place()).unwrap_or(0)
    }

    /// The bytes of the source that a node takes.
    fn span(self, node: NodeId) -> Span {
        if node < self.tree.count() {
            self.tree.span(node)
        } else {
            Span { from: 0, to: 0 }
        }
    }

    /// The text of the line of this number, counted from 1.
    pub(crate) fn line(self, number: u32) -> Option<&'a str> {
        let index = (number as usize).checked_sub(1)?;
        self.source.as_str().split('\n').nth(index)
    }

    /// The line and column that a function is at.
    pub(crate) fn position(self, frame: &Frame) -> Position {
        self.source.line_column(self.span(self.node(frame)).from)
    }

    /// Appends `goroutine WAY (FUNCTION)`, of the goroutine in the state of a number.
    pub(crate) fn push_goroutine(self, said: &mut Words, locals: &LocalStates<'_>, local: u32) {
        said.text("goroutine ");
        self.push_way(said, locals, local);
        if let Some(function) = self.function(locals, local) {
            said.text(" (");
            said.text(function);
            said.text(")");
        }
    }

    /// The name of the function that the goroutine in state `local` started with.
    pub(crate) fn function(self, locals: &LocalStates<'_>, local: u32) -> Option<&'a str> {
        let frame = locals.frames(local).first()?;
        let function = self.code.functions().get(frame.function())?;
        Some(function.name())
    }

    /// Appends the way of the goroutine in state `local`.
    pub(crate) fn push_way(self, said: &mut Words, locals: &LocalStates<'_>, local: u32) {
        let goroutine = locals.local(local).map(|one| one.goroutine()).unwrap_or(0);
        let Ok(way) = locals.goroutines().way(self.alloc, goroutine) else {
            said.refuse();
            return;
        };
        for (index, number) in way.iter().enumerate() {
            if index > 0 {
                said.text(".");
            }
            said.number(i128::from(*number));
        }
    }

    /// Appends the location of the goroutine in state `local`: `FILE:LINE:COLUMN: DOES`, and the line of the source with marks.
    pub(crate) fn push_place(self, said: &mut Words, locals: &LocalStates<'_>, local: u32) {
        let Some(frame) = locals.frames(local).last() else {
            return;
        };
        let Position { line, column } = self.position(frame);
        said.text(self.path);
        said.text(":");
        said.number(i128::from(line));
        said.text(":");
        said.number(i128::from(column));
        if let Some(local) = locals.local(local) {
            said.text(": ");
            said.text(does(&local.wish));
        }
        said.text("\n");
        push_excerpt(said, self.source.as_str(), self.span(self.node(frame)));
    }

    /// Appends a delay.
    pub(crate) fn push_delay(self, said: &mut Words, locals: &LocalStates<'_>, delay: Delay) {
        said.text("  ");
        self.push_goroutine(said, locals, delay.local);
        match delay.change {
            Change::Wait(ticks) => {
                said.text(" waits ");
                said.number(i128::from(ticks));
                said.text(if ticks == 1 {
                    " tick before its request "
                } else {
                    " ticks before its request "
                });
            }
            Change::Clause(clause) => {
                said.text(" tries clause ");
                said.number(i128::from(clause));
                said.text(" first at its request ");
            }
        }
        said.number(i128::from(delay.request));
        said.text("\n  ");
        self.push_place(said, locals, delay.local);
    }
}

/// What a goroutine does at its request.
fn does(wish: &Wish) -> &'static str {
    match wish {
        Wish::Make { .. } => "makes a channel",
        Wish::Go => "starts a goroutine",
        Wish::Send { .. } => "sends",
        Wish::Receive(_) => "receives",
        Wish::Close(_) => "closes",
        Wish::Select { .. } => "selects",
        Wish::Len(_) => "takes the length",
        Wish::Cap(_) => "takes the capacity",
        Wish::Print(_) => "prints",
        Wish::End => "ends",
        Wish::Panic(_) => "panics",
        Wish::Endless => "runs on",
    }
}
