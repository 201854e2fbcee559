//! Where a clock lies in a picture.

use crate::recording::Recording;
use go_text::Memory;
use std::alloc::Global;

/// How wide a unit of time is if there is space for it, and how wide all units are at most, in pixels.
const UNIT: u64 = 14;

const MOST: u64 = 3_150;

/// How many units of time are drawn at most between two events that follow each other, from the most generous to the least: the
/// first of these with which the picture is no wider than `MOST` is taken, or the last.
const LONGEST: [u64; 4] = [8, 4, 2, 1];

/// How many units are drawn at least.
const LEAST: u64 = 44;

/// A clock at which something happens, and how many units lie before it.
#[derive(Clone, Copy)]
pub(crate) struct Stop {
    pub clock: u64,
    pub units: u64,
    /// How many ticks passed since the stop before, if their length was cut.
    pub cut: Option<u64>,
}

/// Logical time in pixels: in proportion, but that long times without an event are cut short.
#[derive(Drop)]
pub(crate) struct Scale {
    /// The clocks of the events, each later than the one before it.
    pub stops: Vec<Stop>,
    /// The clock at the left edge.
    pub origin: u64,
    /// The pixels left of `origin`.
    left: u64,
    /// How many units are drawn at most between two stops.
    longest: u64,
    /// How many units are drawn.
    units: u64,
}

impl Scale {
    /// The scale of a recording, with this many pixels left of its first clock.
    pub(crate) fn of(alloc: Global, recording: &Recording, left: u64) -> Result<Scale, Memory> {
        let mut scale = Scale::cut_at(alloc, recording, left, 1)?;
        for longest in LONGEST.iter().rev() {
            let wider = Scale::cut_at(alloc, recording, left, *longest)?;
            if wider.units <= MOST / UNIT {
                scale = wider;
            }
        }
        Ok(scale)
    }

    /// The scale of a recording that draws at most `longest` units between two events.
    fn cut_at(
        alloc: Global,
        recording: &Recording,
        left: u64,
        longest: u64,
    ) -> Result<Scale, Memory> {
        let origin = recording.origin();
        let mut last = Stop {
            clock: origin,
            units: 0,
            cut: None,
        };
        let mut stops = Vec::new(alloc);
        for event in recording.events.iter() {
            let clock = event.clock.time();
            if clock > last.clock {
                let ticks = clock.saturating_sub(last.clock);
                last = Stop {
                    clock,
                    units: units_at(last, clock, longest),
                    cut: (ticks > longest).then_some(ticks),
                };
                stops.push(last)?;
            }
        }
        Ok(Scale {
            stops,
            origin,
            left,
            longest,
            units: last.units.saturating_add(2).max(LEAST),
        })
    }

    /// How far a clock lies from the left, in pixels.
    pub(crate) fn place(&self, clock: u64) -> u64 {
        let stop = self.stop_at(clock);
        self.column(self.pixels(units_at(stop, clock, self.longest)))
    }

    /// The last stop that is no later than this clock; before the first one, the origin.
    fn stop_at(&self, clock: u64) -> Stop {
        let stops = self.stops.as_slice();
        let count = stops.partition_point(|stop| stop.clock <= clock);
        match stops.get(count.wrapping_sub(1)) {
            Some(stop) => *stop,
            None => Stop {
                clock: self.origin,
                units: 0,
                cut: None,
            },
        }
    }

    /// How far from the left this many pixels of lanes end.
    fn column(&self, pixels: u64) -> u64 {
        self.left.saturating_add(pixels)
    }

    /// Half of the pixels that a stretch whose length was cut takes.
    pub(crate) fn half_of_cut(&self) -> u64 {
        self.pixels(self.longest) / 2
    }

    /// How wide this many units are, in pixels.
    fn pixels(&self, units: u64) -> u64 {
        if self.is_wide() {
            return units.saturating_mul(UNIT);
        }
        units.saturating_mul(MOST) / self.units.max(1)
    }

    /// Whether there is space for whole units.
    fn is_wide(&self) -> bool {
        self.units <= MOST / UNIT
    }

    /// Whether events lie so close to each other that their marks are drawn smaller.
    pub(crate) fn is_dense(&self) -> bool {
        self.units > MOST / 7
    }

    /// How far the lanes end from the left, in pixels.
    pub(crate) fn right(&self) -> u64 {
        self.column(self.pixels(self.units))
    }
}

/// How many units lie before a clock that is no earlier than this stop.
fn units_at(stop: Stop, clock: u64, longest: u64) -> u64 {
    let gap = clock.saturating_sub(stop.clock).min(longest);
    stop.units.saturating_add(gap)
}
