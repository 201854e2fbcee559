//! A run as lanes, one for each goroutine, with what happens in them.

use crate::moves::{ChannelSites, Items, Move, Sent, move_of};
use crate::recording::{Recording, Site};
use crate::waits::{Wait, wait_of};
use go_text::Memory;
use std::alloc::Global;
use word::request::{Event, EventOutcome, Request};

/// A goroutine: its lane in the picture.
#[derive(Drop)]
pub(crate) struct Lane {
    /// The goroutine's number, counted from 1.
    pub number: u64,
    /// The number of its first function; none for goroutine 1, which runs `main`.
    pub function: Option<u32>,
    /// The clock at which it begins.
    pub from: u64,
    /// The clock after its last event, or at which it was woken last.
    pub to: u64,
    /// Since when it sleeps, and what it waits for; none if it is awake.
    pub asleep: Option<Asleep>,
    /// When it slept before.
    pub sleeps: Vec<Sleep>,
    /// Whether it has ended.
    pub ended: bool,
}

impl Lane {
    /// The lane of a goroutine that begins at this clock.
    fn new(alloc: Global, number: u64, function: Option<u32>, clock: u64) -> Lane {
        Lane {
            number,
            function,
            from: clock,
            to: clock,
            asleep: None,
            sleeps: Vec::new(alloc),
            ended: false,
        }
    }

    /// The lane of the same goroutine in a picture that begins at this clock.
    fn later(&self, alloc: Global, clock: u64) -> Result<Lane, Memory> {
        let mut lane = Lane::new(alloc, self.number, self.function, clock);
        if let Some(asleep) = &self.asleep {
            lane.asleep = Some(Asleep {
                since: clock.max(asleep.since),
                wait: asleep.wait.copied(alloc)?,
                site: asleep.site,
            });
        }
        Ok(lane)
    }
}

/// A sleep that goes on.
#[derive(Drop)]
pub(crate) struct Asleep {
    /// The clock at which the goroutine fell asleep.
    pub since: u64,
    /// What it waits for.
    pub wait: Wait,
    /// The instruction at which it waits, if it is known.
    pub site: Option<Site>,
}

/// A span of sleep, from clock to clock.
#[derive(Clone, Copy)]
pub(crate) struct Sleep {
    pub from: u64,
    pub to: u64,
}

/// What goes from one goroutine to another.
#[derive(Clone, Copy)]
pub(crate) enum Passes {
    /// An item of the channel of this number.
    Item(u32),
    /// The news that a channel is closed.
    Close,
    /// The goroutine was started.
    Start,
}

impl Passes {
    /// Its name, which is that of its class in a drawing.
    pub(crate) fn name(self) -> &'static str {
        match self {
            Passes::Item(_) => "item",
            Passes::Close => "close",
            Passes::Start => "start",
        }
    }
}

/// An arrow from one goroutine to another.
#[derive(Clone, Copy)]
pub(crate) struct Arrow {
    pub passes: Passes,
    /// The number of the goroutine that it leaves, and the clock there.
    pub from: u64,
    pub leaves: u64,
    /// The number of the goroutine that it reaches, and the clock there.
    pub to: u64,
    pub reaches: u64,
    /// The index of the event at which it reaches it.
    pub event: usize,
}

/// A run as lanes and arrows, up to some event.
#[derive(Drop)]
pub struct Lanes {
    alloc: Global,
    /// In the order in which the goroutines were started. The number of each is greater than that of the one before it.
    pub(crate) lanes: Vec<Lane>,
    pub(crate) arrows: Vec<Arrow>,
    /// The last clock at which something happens.
    pub(crate) last: u64,
    /// Whether sleeps, arrows and lanes that have ended are kept.
    draws: bool,
    /// How many events were taken since then.
    taken: usize,
    items: Items,
}

impl Lanes {
    /// The lanes before the first event of a run: goroutine 1 is there, and no channel. What is past is not kept.
    ///
    /// # Errors
    ///
    /// `Memory` if memory is refused.
    pub fn new(alloc: Global) -> Result<Lanes, Memory> {
        let mut lanes = Lanes::empty(alloc);
        lanes.begin(1, None, 0)?;
        Ok(lanes)
    }

    /// No lanes.
    fn empty(alloc: Global) -> Lanes {
        Lanes {
            alloc,
            lanes: Vec::new(alloc),
            arrows: Vec::new(alloc),
            last: 0,
            draws: false,
            taken: 0,
            items: Items::new(alloc),
        }
    }

    /// The lanes of a recording, and its arrows.
    pub(crate) fn of(alloc: Global, recording: &Recording) -> Result<Lanes, Memory> {
        let mut lanes = recording.past.later(recording.origin())?;
        for (index, event) in recording.events.iter().enumerate() {
            lanes.take(event, recording.sites.get(index).copied().flatten())?;
        }
        Ok(lanes)
    }

    /// The lanes of a picture that begins at this clock, after these.
    fn later(&self, clock: u64) -> Result<Lanes, Memory> {
        let mut later = Lanes::empty(self.alloc);
        for lane in self.lanes.iter() {
            later.lanes.push(lane.later(self.alloc, clock)?)?;
        }
        later.last = clock;
        later.draws = true;
        later.items = self.items.copied(clock)?;
        Ok(later)
    }

    /// The index of the lane of the goroutine of this number, if it has one.
    pub(crate) fn row(&self, number: u64) -> Option<usize> {
        let lanes = self.lanes.as_slice();
        lanes.binary_search_by_key(&number, |lane| lane.number).ok()
    }

    /// Where the channels were made and used first: channel n at index n - 1.
    pub(crate) fn channel_sites(&self) -> &[ChannelSites] {
        self.items.sites()
    }

    /// A goroutine begins.
    fn begin(&mut self, number: u64, function: Option<u32>, clock: u64) -> Result<(), Memory> {
        self.lanes
            .push(Lane::new(self.alloc, number, function, clock))?;
        Ok(())
    }

    /// What an event, whose request this instruction made, does to the lanes. The goroutines that it wakes or starts go on one later
    /// than its actor stood.
    ///
    /// # Errors
    ///
    /// `Memory` if memory is refused.
    pub fn take(&mut self, event: &Event, site: Option<Site>) -> Result<(), Memory> {
        let here = Sent {
            by: event.number,
            at: event.clock.time(),
        };
        let later = here.at.saturating_add(1);
        self.last = self.last.max(later);
        self.items.note_use(&event.request, site);
        self.move_actor(event, site, later)?;
        self.move_items(event, site, here, later)?;
        self.taken = self.taken.saturating_add(1);
        Ok(())
    }

    /// What an event does to the items on their way, and to the goroutines that it wakes or starts.
    fn move_items(
        &mut self,
        event: &Event,
        site: Option<Site>,
        here: Sent,
        later: u64,
    ) -> Result<(), Memory> {
        let partners = event.partners.as_slice();
        match move_of(event) {
            Move::Nothing => Ok(()),
            Move::Channel => self.items.add_channel(site),
            Move::Start(function) => self.start(here, function, partners, later),
            Move::Close => self.tell_closed(here, partners, later),
            Move::Send(channel) => self.send(here, channel, partners, later),
            Move::Receive(channel) => self.receive(here, channel, partners, later),
        }
    }

    /// What an event does to the lane of its actor.
    fn move_actor(&mut self, event: &Event, site: Option<Site>, later: u64) -> Result<(), Memory> {
        let Some(row) = self.row(event.number) else {
            return Ok(());
        };
        let Some(lane) = self.lanes.get_mut(row) else {
            return Ok(());
        };
        lane.to = later;
        if matches!(&event.outcome, EventOutcome::Sleeps) {
            let since = event.clock.time();
            lane.to = since;
            lane.asleep = Some(Asleep {
                since,
                wait: wait_of(self.alloc, &event.request)?,
                site,
            });
        }
        lane.ended = matches!(&event.request, Request::End | Request::Exit);
        if lane.ended && !self.draws {
            drop(self.lanes.remove(row));
        }
        Ok(())
    }

    /// Goroutines are started that run the function of this number.
    fn start(
        &mut self,
        here: Sent,
        function: u32,
        partners: &[u64],
        later: u64,
    ) -> Result<(), Memory> {
        for partner in partners.iter() {
            self.begin(*partner, Some(function), later)?;
            self.point(Passes::Start, here, *partner, later)?;
        }
        Ok(())
    }

    /// A channel is closed, which wakes the goroutines that wait at it.
    fn tell_closed(&mut self, here: Sent, partners: &[u64], later: u64) -> Result<(), Memory> {
        for partner in partners.iter() {
            self.wake(*partner, later)?;
            self.point(Passes::Close, here, *partner, later)?;
        }
        Ok(())
    }

    /// An item goes into a channel, and to the goroutine that waits for it.
    fn send(
        &mut self,
        here: Sent,
        channel: Option<u32>,
        partners: &[u64],
        later: u64,
    ) -> Result<(), Memory> {
        self.items.put(channel, here)?;
        for partner in partners.iter() {
            self.wake(*partner, later)?;
            self.pass(channel, *partner, later)?;
        }
        Ok(())
    }

    /// An item comes out of a channel, after which comes that of the goroutine that waits to send.
    fn receive(
        &mut self,
        here: Sent,
        channel: Option<u32>,
        partners: &[u64],
        later: u64,
    ) -> Result<(), Memory> {
        for partner in partners.iter() {
            let since = self.wake(*partner, later)?;
            self.items.put(
                channel,
                Sent {
                    by: *partner,
                    at: since.unwrap_or(here.at),
                },
            )?;
        }
        self.pass(channel, here.by, later)
    }

    /// The next item of a channel reaches this goroutine.
    fn pass(&mut self, channel: Option<u32>, to: u64, reaches: u64) -> Result<(), Memory> {
        let Some(number) = channel else {
            return Ok(());
        };
        match self.items.take(channel) {
            Some(sent) => self.point(Passes::Item(number), sent, to, reaches),
            None => Ok(()),
        }
    }

    /// One more arrow.
    fn point(&mut self, passes: Passes, from: Sent, to: u64, reaches: u64) -> Result<(), Memory> {
        if self.draws {
            self.arrows.push(Arrow {
                passes,
                from: from.by,
                leaves: from.at,
                to,
                reaches,
                event: self.taken,
            })?;
        }
        Ok(())
    }

    /// A goroutine is woken; returns since when it slept, if it did.
    fn wake(&mut self, number: u64, clock: u64) -> Result<Option<u64>, Memory> {
        let Some(row) = self.row(number) else {
            return Ok(None);
        };
        let Some(lane) = self.lanes.get_mut(row) else {
            return Ok(None);
        };
        let Some(asleep) = lane.asleep.take() else {
            return Ok(None);
        };
        let from = asleep.since;
        if self.draws {
            lane.sleeps.push(Sleep { from, to: clock })?;
        }
        lane.to = clock;
        Ok(Some(from))
    }
}
