//! What a move of the run was.

ghost use Rattle.std.specs.Prelude.{◌≡◌};
ghost use Rattle.one_thread.specs.Progress.{ending_in, event_in, is_slide, is_slide_seen, is_tick, is_tick_seen, performed};

use word::end::End;
use word::request::Event;

/// What a move of the run was.
#[derive(Clone, Copy)]
pub(crate) enum Move {
    /// A local step that costs nothing.
    Slide,
    /// A local step that costs a tick.
    Tick,
    /// A request that was performed, after which the run goes on.
    Event,
    /// The last one: the run has ended.
    Last(End),
}

impl Move {
    /// A request that was performed, after which the run goes on or has ended so.
    pub(crate) fn performed(ending: Option<End>) -> Move
        ensures { result ≡ performed ending }
    {
        match ending {
            Some(end) => Move::Last(end),
            None => Move::Event,
        }
    }

    /// Whether it was a local step that costs nothing.
    pub(crate) fn is_slide(self) -> bool
        ensures { result ≡ is_slide self }
    {
        matches!(self, Move::Slide)
    }

    /// Whether it was a local step that costs a tick.
    pub(crate) fn is_tick(self) -> bool
        ensures { result ≡ is_tick self }
    {
        matches!(self, Move::Tick)
    }

    /// The end of the run, if it has ended.
    pub(crate) fn ending(self) -> Option<End>
        ensures { result ≡ ending_in self }
    {
        match self {
            Move::Last(end) => Some(end),
            _ => None,
        }
    }
}

/// What a move of an open run was, with its event.
#[derive(Drop)]
pub(crate) enum MoveSeen {
    /// There was none: the run has ended, or has come so far as it should.
    Nothing,
    /// A local step that costs nothing.
    Slide,
    /// A local step that costs a tick.
    Tick,
    /// A request that was performed.
    Event(Event),
}

impl MoveSeen {
    /// Whether it was a local step that costs nothing.
    pub(crate) fn is_slide(&self) -> bool
        ensures { result ≡ is_slide_seen self.now }
    {
        matches!(self, MoveSeen::Slide)
    }

    /// Whether it was a local step that costs a tick.
    pub(crate) fn is_tick(&self) -> bool
        ensures { result ≡ is_tick_seen self.now }
    {
        matches!(self, MoveSeen::Tick)
    }

    /// The event, if it was one.
    pub(crate) fn event(self) -> Option<Event>
        ensures { result ≡ event_in self }
    {
        match self {
            MoveSeen::Event(event) => Some(event),
            _ => None,
        }
    }
}
