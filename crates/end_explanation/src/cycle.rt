//! Goroutines that wait for one another in a cycle.

use crate::explanation::Report;
use crate::goroutine::Goroutine;
use crate::notes::Notes;
use diagnostic_words::words::Words;
use go_text::Memory;
use std::alloc::Global;
use watched_goroutine::Wish;

/// The most cycles that are printed.
const MOST_CYCLES: usize = 5;

/// The most goroutines of a cycle that are printed.
const MOST_MEMBERS: usize = 20;

/// The goroutines that hold a channel, by their indices among all.
#[derive(Clone, Copy)]
struct Holders {
    count: usize,
    first: usize,
    last: usize,
}

/// For each goroutine of a deadlock the index of the one that it waits for, if that follows from the channels.
#[derive(Drop)]
struct Waiting {
    next: Vec<Option<usize>>,
}

/// Appends a line for each cycle of goroutines of a deadlock, five at most.
pub(crate) fn push_cycles(said: &mut Words, report: Report<'_, '_>) {
    let goroutines = report.moment.goroutines.as_slice();
    let Ok(waiting) = Waiting::new(report.scene.alloc, &report.moment.notes, goroutines) else {
        said.refuse();
        return;
    };
    let mut left = MOST_CYCLES;
    for (index, _) in goroutines.iter().enumerate() {
        if left > 0 && waiting.leads_cycle(index) {
            waiting.push_cycle(said, goroutines, index);
            left = left.saturating_sub(1);
        }
    }
}

impl Waiting {
    /// Whom each goroutine of a deadlock waits for.
    fn new(alloc: Global, notes: &Notes, goroutines: &[Goroutine]) -> Result<Waiting, Memory> {
        let holders = holders_of(alloc, goroutines)?;
        let mut next = Vec::new(alloc);
        for (index, goroutine) in goroutines.iter().enumerate() {
            next.push(next_of(notes, goroutines, holders.as_slice(), index, goroutine))?;
        }
        Ok(Waiting { next })
    }

    /// The one that the goroutine at an index waits for.
    fn after(&self, index: usize) -> Option<usize> {
        match self.next.get(index) {
            Some(next) => *next,
            None => None,
        }
    }

    /// Whether a goroutine is the first one of a cycle, in the order of their numbers.
    fn leads_cycle(&self, index: usize) -> bool {
        let mut at = index;
        for _ in 0..self.next.len() {
            match self.after(at) {
                Some(next) if next == index => return true,
                Some(next) if next > index => at = next,
                _ => return false,
            }
        }
        false
    }

    /// Appends a cycle.
    fn push_cycle(&self, said: &mut Words, goroutines: &[Goroutine], index: usize) {
        said.text("goroutines ");
        push_number(said, goroutines, index);
        let mut at = index;
        let mut printed: usize = 1;
        for _ in 0..self.next.len() {
            let Some(next) = self.after(at) else {
                break;
            };
            if next == index {
                break;
            }
            if printed < MOST_MEMBERS {
                said.text(" -> ");
                push_number(said, goroutines, next);
            }
            printed = printed.saturating_add(1);
            at = next;
        }
        if printed > MOST_MEMBERS {
            said.text(" -> ..");
        }
        said.text(" -> ");
        push_number(said, goroutines, index);
        said.text(" wait in a cycle: each for a channel that the next one holds\n");
    }
}

/// Appends the number of the goroutine at an index.
fn push_number(said: &mut Words, goroutines: &[Goroutine], index: usize) {
    if let Some(goroutine) = goroutines.get(index) {
        said.number(i128::from(goroutine.number));
    }
}

/// The holders of each channel, that of channel n at index n - 1.
fn holders_of(alloc: Global, goroutines: &[Goroutine]) -> Result<Vec<Holders>, Memory> {
    let mut holders = Vec::new(alloc);
    for (index, goroutine) in goroutines.iter().enumerate() {
        for channel in goroutine.held.iter() {
            add_holder(&mut holders, *channel, index)?;
        }
    }
    Ok(holders)
}

/// Notes that the goroutine at an index holds a channel. Those before it were noted before.
fn add_holder(holders: &mut Vec<Holders>, channel: u32, index: usize) -> Result<(), Memory> {
    let place = (channel as usize).saturating_sub(1);
    for _ in holders.len()..place.saturating_add(1) {
        holders.push(Holders {
            count: 0,
            first: 0,
            last: 0,
        })?;
    }
    if let Some(known) = holders.get_mut(place) {
        if known.count == 0 {
            *known = Holders {
                count: 1,
                first: index,
                last: index,
            };
        } else if known.last != index {
            known.count = known.count.saturating_add(1);
            known.last = index;
        }
    }
    Ok(())
}

/// The index of the goroutine that this one waits for: the one that did last what this one waits to do, if it holds the channel
/// too, or else the only other one that holds the channel.
fn next_of(
    notes: &Notes,
    goroutines: &[Goroutine],
    holders: &[Holders],
    index: usize,
    goroutine: &Goroutine,
) -> Option<usize> {
    let (channel, latest) = match &goroutine.wish {
        Some(Wish::Receive(Some(channel))) => (*channel, notes.receiver(*channel)),
        Some(Wish::Send(Some(channel))) => (*channel, notes.sender(*channel)),
        _ => return None,
    };
    if let Some(number) = latest {
        if let Some(other) = holder_of(goroutines, number, channel) {
            if other != index {
                return Some(other);
            }
        }
    }
    let known = holders.get((channel as usize).saturating_sub(1))?;
    only_other(*known, index)
}

/// The index of the goroutine of this number, if it holds the channel.
fn holder_of(goroutines: &[Goroutine], number: u64, channel: u32) -> Option<usize> {
    let index = goroutines
        .binary_search_by_key(&number, |one| one.number)
        .ok()?;
    let holds = goroutines
        .get(index)?
        .held
        .iter()
        .any(|held| *held == channel);
    if holds { Some(index) } else { None }
}

/// The only holder but the one at this index, if there is just one.
fn only_other(known: Holders, index: usize) -> Option<usize> {
    let is_first = known.first == index;
    let is_last = known.last == index;
    match known.count {
        1 if !is_first => Some(known.first),
        2 if is_first => Some(known.last),
        2 if is_last => Some(known.first),
        _ => None,
    }
}
