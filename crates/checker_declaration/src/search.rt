//! A search through struct types by what lies in them.

use crate::parts::{Parts, parts_at};
use std::alloc::{AllocError, Global};
use type_table::value_type::ValueType;

/// How far the search is with a struct type.
#[derive(Clone, Copy)]
enum Mark {
    New,
    /// Its index among those that are open.
    Open(usize),
    Done,
}

/// A struct type whose fields are being looked at.
#[derive(Clone, Copy)]
struct Frame {
    number: usize,
    /// How many of its fields were looked at.
    seen: usize,
    /// Its index among those that are open.
    place: usize,
    /// The lowest index of an open one that it was found to reach.
    lowest: usize,
}

/// A search for the strongly connected components of struct types, by Tarjan's algorithm.
#[derive(Drop)]
pub(crate) struct Search {
    marks: Vec<Mark>,
    /// Those that may yet turn out to lie within one whose fields are being looked at, in the order in which they were met.
    open: Vec<usize>,
    /// Those whose fields are being looked at, each of which lies in the one before.
    frames: Vec<Frame>,
    /// The struct types, each after those that lie in it, unless it lies in itself.
    pub order: Vec<usize>,
    /// The first that lies within itself.
    pub held: Option<usize>,
}

impl Search {
    /// What is known of a struct type.
    fn mark(&self, number: usize) -> Mark {
        match self.marks.get(number) {
            Some(mark) => *mark,
            None => Mark::Done,
        }
    }

    /// Marks a struct type.
    fn put(&mut self, number: usize, mark: Mark) {
        if number < self.marks.len() {
            self.marks[number] = mark;
        }
    }

    /// Notes that a struct type lies within itself.
    fn hold(&mut self, number: usize) {
        match self.held {
            Some(first) if first <= number => {}
            _ => self.held = Some(number),
        }
    }

    /// Begins to look at a struct type that is new.
    fn enter(&mut self, number: usize) -> Result<(), AllocError> {
        let place = self.open.len();
        self.put(number, Mark::Open(place));
        self.open.push(number)?;
        self.frames.push(Frame {
            number,
            seen: 0,
            place,
            lowest: place,
        })?;
        Ok(())
    }

    /// Closes those that were opened after the first `count`: none of them lies in one that is still open.
    fn close(&mut self, count: usize) {
        for place in count..self.open.len() {
            let _place = place;
            if let Some(number) = self.open.pop() {
                self.put(number, Mark::Done);
            }
        }
    }

    /// Notes that the last one reaches the open one at index `place`.
    fn lower(&mut self, place: usize) {
        if let Some(last) = self.frames.len().checked_sub(1) {
            self.frames[last].lowest = self.frames[last].lowest.min(place);
        }
    }

    /// Ends with a struct type all of whose fields were looked at.
    fn finish(&mut self, frame: Frame) -> Result<(), AllocError> {
        self.order.push(frame.number)?;
        if frame.lowest < frame.place {
            self.hold(frame.number);
            self.lower(frame.lowest);
        } else {
            self.close(frame.place);
        }
        Ok(())
    }

    /// Goes on from a struct type to one that lies in it.
    fn reach(&mut self, number: usize, inner: usize) -> Result<(), AllocError> {
        match self.mark(inner) {
            Mark::New => self.enter(inner),
            Mark::Open(place) => {
                self.hold(number);
                self.hold(inner);
                self.lower(place);
                Ok(())
            }
            Mark::Done => Ok(()),
        }
    }

    /// Looks at one more field of the last struct type, or ends with it; returns whether there was one.
    fn step(&mut self, all: &[Parts<'_>]) -> Result<bool, AllocError> {
        let Some(frame) = self.frames.pop() else {
            return Ok(false);
        };
        let Some(kind) = kind_at(all, frame.number, frame.seen) else {
            self.finish(frame)?;
            return Ok(true);
        };
        self.frames.push(Frame {
            seen: frame.seen.saturating_add(1),
            ..frame
        })?;
        if let Some(ValueType::Struct(inner)) = kind {
            self.reach(frame.number, inner)?;
        }
        Ok(true)
    }

    /// Looks at a struct type, if it is new, and at all that lies in it, in at most `steps` steps.
    fn visit(&mut self, all: &[Parts<'_>], number: usize, steps: usize) -> Result<(), AllocError> {
        if let Mark::New = self.mark(number) {
            self.enter(number)?;
        }
        for step in 0..steps {
            let _step = step;
            if !self.step(all)? {
                return Ok(());
            }
        }
        Ok(())
    }
}

/// The type of the field at this index of a struct type, if there is one; `None` within if it is not known.
fn kind_at<'a>(all: &[Parts<'a>], number: usize, place: usize) -> Option<Option<ValueType<'a>>> {
    match parts_at(all, number)?.fields.get(place) {
        Some(part) => Some(part.kind),
        None => None,
    }
}

/// `count` struct types of which nothing is known.
fn new_marks(alloc: Global, count: usize) -> Result<Vec<Mark>, AllocError> {
    Vec::from_elem(alloc, Mark::New, count)
}

/// The steps of a search: one for each field, and one for the end of each struct type.
fn steps(all: &[Parts<'_>]) -> usize {
    let mut count: usize = 1;
    for parts in all {
        count = count.saturating_add(parts.fields.len()).saturating_add(1);
    }
    count
}

/// Searches through all struct types.
pub(crate) fn search_all(alloc: Global, all: &[Parts<'_>]) -> Result<Search, AllocError> {
    let mut search = Search {
        marks: new_marks(alloc, all.len())?,
        open: Vec::new(alloc),
        frames: Vec::new(alloc),
        order: Vec::new(alloc),
        held: None,
    };
    let steps = steps(all);
    for number in 0..all.len() {
        search.visit(all, number, steps)?;
    }
    Ok(search)
}
