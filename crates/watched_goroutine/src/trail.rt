//! The sites of a goroutine's tasks.

use crate::site::Site;
use go_text::Memory;
use reference_task::task::{Frame, Task};
use std::alloc::Global;
use syntax::NodeId;

/// The sites of the tasks of a function that runs, or waits for one that it called.
#[derive(Drop)]
pub struct Track<'t> {
    /// The number of the function.
    pub function: u32,
    /// The site of each task, that of the next one last.
    sites: Vec<Site<'t>>,
}

/// A function that is called, and the first node of its body.
#[derive(Clone, Copy)]
pub(crate) struct Called {
    pub function: u32,
    pub first: NodeId,
}

/// The sites of the tasks of a goroutine's functions.
#[derive(Drop)]
pub struct Trail<'t> {
    /// The function that was called last is the last one.
    pub tracks: Vec<Track<'t>>,
    /// The site of the task that was done last.
    last: Site<'t>,
}

impl<'t> Track<'t> {
    /// The site of the function's next task; none if it has none left.
    pub fn site(&self) -> Option<Site<'t>> {
        self.sites.last().copied()
    }

    /// A function that has just begun.
    fn new(alloc: Global, frame: &Frame<'t>, called: Called) -> Result<Track<'t>, Memory> {
        let mut track = Track {
            function: called.function,
            sites: Vec::new(alloc),
        };
        track.settle(alloc, frame.position.tasks.as_slice(), called.first)?;
        Ok(track)
    }

    /// The next task was done, and these are the tasks that are left. What came of it begins at the node `start`.
    fn settle(&mut self, alloc: Global, tasks: &[Task<'t>], start: NodeId) -> Result<(), Memory> {
        let cause = match self.sites.pop() {
            Some(site) => site,
            None => Site::at(start),
        };
        let kept = self.sites.len().min(tasks.len());
        self.sites.truncate(kept);
        let mut new = Vec::new(alloc);
        let mut next = start;
        for task in tasks.get(kept..).unwrap_or(&[]).iter().rev() {
            let site = site_of(alloc, task, next, cause);
            if is_statement(task) {
                next = site.end();
            }
            new.push(site)?;
        }
        for site in new.iter().rev() {
            self.sites.push(*site)?;
        }
        Ok(())
    }
}

impl<'t> Trail<'t> {
    /// The trail of a goroutine that begins with the function that is called.
    ///
    /// Errors: out of memory.
    pub(crate) fn new(
        alloc: Global,
        frames: &[Frame<'t>],
        called: Called,
    ) -> Result<Trail<'t>, Memory> {
        let mut tracks = Vec::new(alloc);
        for frame in frames {
            tracks.push(Track::new(alloc, frame, called)?)?;
        }
        Ok(Trail {
            tracks,
            last: Site::at(called.first),
        })
    }

    /// The site of the next task, or, of a function with no task left, of the one that was done last.
    pub fn site(&self) -> Site<'t> {
        self.next().unwrap_or(self.last)
    }

    /// The site of the task that was done last.
    pub fn done(&self) -> Site<'t> {
        self.last
    }

    /// The site of the next task.
    fn next(&self) -> Option<Site<'t>> {
        self.tracks.last()?.site()
    }

    /// The goroutine has done its next task. What came of it begins at the node `start`; `called` is the function that it calls, if it
    /// calls one.
    ///
    /// Errors: out of memory.
    pub(crate) fn follow(
        &mut self,
        alloc: Global,
        frames: &[Frame<'t>],
        start: NodeId,
        called: Option<Called>,
    ) -> Result<(), Memory> {
        self.last = self.site();
        if frames.len() < self.tracks.len() {
            let _returned = self.tracks.pop();
            return Ok(());
        }
        let Some(frame) = frames.last() else {
            return Ok(());
        };
        if let Some(called) = called {
            self.tracks.push(Track::new(alloc, frame, called)?)?;
            return Ok(());
        }
        match self.tracks.last_mut() {
            Some(track) => track.settle(alloc, frame.position.tasks.as_slice(), start),
            None => Ok(()),
        }
    }
}

/// The site of a task: of the statement that begins at the node `next`, or `cause`, of the one that the task is a part of.
fn site_of<'t>(alloc: Global, task: &Task<'t>, next: NodeId, cause: Site<'t>) -> Site<'t> {
    match task {
        Task::Do(one) => Site::of_statement(alloc, next, **one),
        Task::Simply(one) => Site::of_simple(next, **one),
        Task::Branch(one) => Site::of_if(alloc, next, **one),
        // Its statements begin there.
        Task::Enclose(_) => Site {
            first: next,
            ..cause
        },
        _ => cause,
    }
}

/// Whether a task is a statement of its own.
fn is_statement(task: &Task<'_>) -> bool {
    matches!(task, Task::Do(_) | Task::Simply(_) | Task::Branch(_))
}
