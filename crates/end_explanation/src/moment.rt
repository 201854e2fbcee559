//! The last moment of a run, and which of its goroutines are explained.

use crate::forever::waiting_forever;
use crate::goroutine::Goroutine;
use crate::notes::Notes;
use go_text::Memory;
use std::alloc::Global;
use word::end::End;

/// The most goroutines of a deadlock that are printed.
const MOST_WAITING: usize = 50;

/// The most goroutines of a run that finished that are printed.
const MOST_FOREVER: usize = 20;

/// The last moment of a run.
#[derive(Drop)]
pub struct Moment {
    pub end: End,
    /// The number of the goroutine whose event was the last one.
    pub acting: u64,
    /// What was noted until then.
    pub notes: Notes,
    /// The goroutines that have not ended, in the order of their numbers.
    pub goroutines: Vec<Goroutine>,
}

/// The goroutines of a moment that are printed.
#[derive(Drop)]
pub struct Shown {
    /// Their indices, in the order in which they are printed.
    pub indices: Vec<usize>,
    /// How many others there are like them.
    pub(crate) left: usize,
}

impl Moment {
    /// The goroutines that are printed: of a deadlock each one, of a panic and of exhausted time the one whose event was the last one, of
    /// a run that finished those that wait forever. Of many the first ones.
    ///
    /// Errors: out of memory.
    pub fn shown(&self, alloc: Global) -> Result<Shown, Memory> {
        match self.end {
            End::Deadlock => Shown::first(self.all_indices(alloc)?, MOST_WAITING),
            End::Finished => {
                let goroutines = self.goroutines.as_slice();
                let indices = waiting_forever(alloc, &self.notes, goroutines)?;
                Shown::first(indices, MOST_FOREVER)
            }
            End::Panicked(_) | End::Exhausted => Shown::first(self.acting_index(alloc)?, 1),
        }
    }

    /// The indices of all goroutines.
    fn all_indices(&self, alloc: Global) -> Result<Vec<usize>, Memory> {
        let mut indices = Vec::new(alloc);
        for (index, _) in self.goroutines.iter().enumerate() {
            indices.push(index)?;
        }
        Ok(indices)
    }

    /// The index of the goroutine whose event was the last one, if it has not ended.
    fn acting_index(&self, alloc: Global) -> Result<Vec<usize>, Memory> {
        let mut indices = Vec::new(alloc);
        if let Ok(index) = self
            .goroutines
            .binary_search_by_key(&self.acting, |one| one.number)
        {
            indices.push(index)?;
        }
        Ok(indices)
    }
}

impl Shown {
    /// The first ones of these goroutines.
    fn first(mut indices: Vec<usize>, most: usize) -> Result<Shown, Memory> {
        let left = indices.len().saturating_sub(most);
        let kept = indices.len().min(most);
        indices.truncate(kept);
        Ok(Shown { indices, left })
    }

    /// How many goroutines there are like these, with these.
    pub(crate) fn count(&self) -> usize {
        self.indices.len().saturating_add(self.left)
    }
}
