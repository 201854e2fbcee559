//! Goroutines that wait forever although the run goes on without them.

use crate::goroutine::Goroutine;
use crate::notes::Notes;
use go_text::Memory;
use std::alloc::Global;
use watched_goroutine::Wish;

/// Which goroutines may act again, and which channels they may use: they hold them, or can receive them from others.
#[derive(Drop)]
struct Reach {
    /// By the indices of the goroutines.
    goroutines: Vec<bool>,
    /// That of channel n at index n - 1.
    channels: Vec<bool>,
    /// Whether any goroutine may act again.
    is_any: bool,
}

/// The indices of the goroutines that wait, and that no other one can wake, whatever those do that are awake: none of those that may act
/// again holds a channel that they wait for. A channel that was sent to a goroutine counts as held.
///
/// Errors: out of memory.
pub(crate) fn waiting_forever(
    alloc: Global,
    notes: &Notes,
    goroutines: &[Goroutine],
) -> Result<Vec<usize>, Memory> {
    let mut reach = Reach::new(alloc, goroutines)?;
    for _ in goroutines {
        if !reach.spread(notes, goroutines)? {
            break;
        }
    }
    let mut indices = Vec::new(alloc);
    for (index, goroutine) in goroutines.iter().enumerate() {
        if goroutine.wish.is_some() && !reach.has(index) {
            indices.push(index)?;
        }
    }
    Ok(indices)
}

impl Reach {
    /// The goroutines that are awake and make another request, and what they hold.
    fn new(alloc: Global, goroutines: &[Goroutine]) -> Result<Reach, Memory> {
        let mut reach = Reach {
            goroutines: Vec::new(alloc),
            channels: Vec::new(alloc),
            is_any: false,
        };
        for goroutine in goroutines {
            let acts = goroutine.wish.is_none() && !goroutine.is_ending;
            reach.goroutines.push(acts)?;
            if acts {
                reach.is_any = true;
                reach.hold(goroutine)?;
            }
        }
        Ok(reach)
    }

    /// Whether the goroutine at an index may act again.
    fn has(&self, index: usize) -> bool {
        self.goroutines.get(index).copied().unwrap_or(false)
    }

    /// Adds the goroutines that those may wake that are added. Returns whether there are any.
    fn spread(&mut self, notes: &Notes, goroutines: &[Goroutine]) -> Result<bool, Memory> {
        let mut spreads = false;
        for (index, goroutine) in goroutines.iter().enumerate() {
            if !self.has(index) && self.wakes(notes, goroutine) {
                if let Some(mark) = self.goroutines.get_mut(index) {
                    *mark = true;
                }
                self.hold(goroutine)?;
                spreads = true;
            }
        }
        Ok(spreads)
    }

    /// Adds the channels that a goroutine holds.
    fn hold(&mut self, goroutine: &Goroutine) -> Result<(), Memory> {
        for channel in goroutine.held.iter() {
            let place = (*channel as usize).saturating_sub(1);
            for _ in self.channels.len()..place.saturating_add(1) {
                self.channels.push(false)?;
            }
            if let Some(mark) = self.channels.get_mut(place) {
                *mark = true;
            }
        }
        Ok(())
    }

    /// Whether a goroutine that waits may be woken.
    fn wakes(&self, notes: &Notes, goroutine: &Goroutine) -> bool {
        match &goroutine.wish {
            Some(Wish::Send(channel) | Wish::Receive(channel)) => self.uses(notes, *channel),
            Some(Wish::Select(offers)) => offers
                .iter()
                .any(|offer| self.uses(notes, offer.channel)),
            Some(Wish::Nothing) | None => false,
        }
    }

    /// Whether a goroutine that may act again may use a channel.
    fn uses(&self, notes: &Notes, channel: Option<u32>) -> bool {
        let Some(number) = channel else {
            return false;
        };
        let place = (number as usize).saturating_sub(1);
        let is_held = self.channels.get(place).copied().unwrap_or(false);
        is_held || (self.is_any && notes.is_sent(number))
    }
}
