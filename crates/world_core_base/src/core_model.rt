//! The world of a run, without its lists of events and bytes.

ghost use Rattle.std.specs.Prelude.{◌≡◌, ℕ, ◌+◌, ◌<◌, ◌≤◌, ◌^◌, ◌↔◌, ◌++◌, IsTrue, IfNone, IfOk, IfSome, IsSome, MatchOption, OnErr, OnOk, None, Some, false, true, length, option_map, slice_index_or, slice_set};
ghost use Rattle.std.specs.Option.{is_some};
ghost use Rattle.bytecode.specs.Rules.{IsVerified};
ghost use Rattle.logical_clock.specs.Order.{keys, least};
ghost use Rattle.turn_rule.specs.declared.Row.{Row};
ghost use Rattle.turn_rule.specs.Schedule.{has_turn};
ghost use Rattle.word.specs.Views.{event_of};
ghost use Rattle.world_core_base.specs.Cores.{Asks, FitsCore, HasLease, Performs, Works, bytes_of, most_partners, no_event, opened_core, to_lend};
ghost use Rattle.world_core_base.specs.Talking.{FailsTalk, Talks, is_enough};
ghost use Rattle.awake_rows.specs.Slots.{FitsAll, FitsRow, State, IsAwake, IsBefore, IsFreeIn, IsNobodyAwake, back_row, free_clock, free_row, lent_row, raised_row, stepped_rows, waiting_clock};

use crate::situation::Situation;
use crate::spare::Spare;
use crate::talked::Talked;
use awake_rows::Among;
use go_text::Memory;
use goroutine_vm::{GoState, Sleeping};
use logical_clock::{Clock, Key};
use std::alloc::Global;
use std::marker::Model;
use turn_rule::Step;
use verifier::Verified;
use word::end::End;
use word::request::{Event, EventOutcome, Request};

/// A world of goroutines that run ahead of their turn, without its lists of events and bytes.
pub struct Core {
    situation: Situation,
    spare: Spare,
}

impl Drop for Core {
    fn drop(self) {
        let Core { situation, spare } = self;
        drop(situation);
        drop(spare);
    }
}

impl Model for Core {
    ghost use Rattle.world_core_base.specs.Cores.{CoreValue};

    ghost Value = { CoreValue };

    ghost view = { λ c. c.situation };
}

impl Core {
    /// Goroutine 1 alone, at the beginning of `main`.
    pub fn open(alloc: Global, code: &Verified) -> Result<Core, Memory>
        ensures core { IfOk result (λ core. core ≡ opened_core code.now) }
        ensures verified { IfOk result (λ _. IsVerified code.now) }
        ensures fits { IfOk result (λ core. (limit : ℕ) → limit ≤ 2 ^ 62 → FitsCore code.now limit core) }
    {
        Ok(Core {
            situation: Situation::open(alloc, code)?,
            spare: Spare::none(alloc),
        })
    }

    /// How many events there were.
    pub fn events(&self) -> u64
        ensures { result ≡ self.now.events }
    {
        self.situation.events
    }

    /// The end of the run, if an event ended it.
    #[inline(always)]
    pub fn ending(&self) -> Option<End>
        ensures { result ≡ self.now.ending }
    {
        self.situation.ending
    }

    /// The number that the next goroutine gets.
    #[inline(always)]
    pub fn count(&self) -> u64
        ensures { result ≡ length self.now.rows }
    {
        self.situation.goroutines.count()
    }

    /// The parked goroutine of least key. A goroutine's number is its index in the rows.
    #[tactic(auto, using(awake_rows::proofs::Found::waiting_found))]
    #[inline(always)]
    pub fn least_parked(&self) -> Option<Key>
        ensures least { result ≡ least (keys waiting_clock 0 self.now.rows) }
        ensures found { IfSome result (λ key. waiting_clock (slice_index_or self.now.rows key.number None) ≡ Some key.clock) }
    {
        self.situation.goroutines.least_among(Among::Parked)
    }

    /// The goroutine before the key: an awake one whose floor the key is not below. `None` if the key has the turn.
    #[inline(always)]
    pub fn blocker(&self, key: Key) -> Option<u64>
        ensures { MatchOption result (has_turn key 0 self.now.rows ≡ true) (λ n. (has_turn key 0 self.now.rows ≡ false) × IsBefore self.now.rows key n) }
    {
        self.situation.goroutines.blocker(key)
    }

    /// The first goroutine that is awake.
    pub fn first_awake(&self) -> Option<u64>
        ensures { MatchOption result (IsNobodyAwake self.now.rows) (λ n. IsAwake self.now.rows n) }
    {
        self.situation.goroutines.first_awake()
    }

    /// How many partners the next event has at most.
    pub fn most_partners(&self) -> usize
        ensures { result ≡ most_partners self.now }
    {
        self.situation.channels.asleep().max(1)
    }

    /// Performs the request of goroutine `number`, which is awake and at a request: writes the event to `event`, and appends to `output`
    /// what it prints. If it is out of memory it changes nothing but `event`, whose contents are then unspecified.
    #[inline(always)]
    pub fn perform(
        &mut self,
        alloc: Global,
        code: &Verified,
        limit: u64,
        number: u64,
        event: &mut Event,
        output: &mut Vec<u8>,
    ) -> Result<(), Memory>
        requires asks { Asks code.now limit self.old.rows number }
        requires fits { FitsCore code.now limit self.old }
        requires events { self.old.events < 2 ^ 62 }
        ensures performs { OnOk result (Performs code.now limit self.old number event.new (bytes_of event.new) self.new) }
        ensures output { OnOk result (output.new.items ≡ output.old.items ++ bytes_of event.new) }
        ensures fits { OnOk result (FitsCore code.now limit self.new) }
        ensures partners { OnOk result (length event.new.partners.items ≤ most_partners self.old) }
        ensures memory { OnErr result ((self.new ≡ self.old) × (output.new.items ≡ output.old.items)) }
    {
        self.situation
            .perform(alloc, code, limit, number, event, output, &mut self.spare)
    }

    /// Lends the least of those that are neither lent nor parked: its number, and its state, which is moved out.
    #[inline(always)]
    pub fn lend_least(&mut self) -> Option<(u64, GoState)>
        ensures none { IfNone result ((to_lend self.old ≡ None) × (self.new ≡ self.old)) }
        ensures key { IfSome result (λ l. to_lend self.old ≡ Some (record { clock = l.1.clock; number = l.0 })) }
        ensures free { IfSome result (λ l. IsFreeIn self.old.rows l.0 l.1) }
        ensures lent { IfSome result (λ l. self.new ≡ record self.old { rows = slice_set self.old.rows l.0 (Some (lent_row l.1)) }) }
    {
        self.situation.lend_least()
    }

    /// Makes at most `quantum` local steps of the goroutine that would be lent next, up to a request, and parks it if it is then at one.
    /// Returns whether it is; `None` if there is no goroutine to lend.
    ///
    /// Errors: out of memory, when some of the steps may be made.
    #[inline(always)]
    pub fn work_least(
        &mut self,
        alloc: Global,
        code: &Verified,
        limit: u64,
        quantum: u32,
    ) -> Result<Option<bool>, Memory>
        requires { FitsCore code.now limit self.old }
        ensures none { IfOk result (λ found. IfNone found ((to_lend self.old ≡ None) × (self.new ≡ self.old))) }
        ensures works { IfOk result (λ found. IfSome found (λ asking. Works code.now limit quantum self.old (Some asking) self.new)) }
        ensures memory { OnErr result (Works code.now limit quantum self.old None self.new) }
    {
        self.situation.work_least(alloc, code, limit, quantum)
    }

    /// Goroutines send and receive single words, and make local steps, at most `quantum` at a time, until at least `moves` moves were
    /// made, or none is left to make. No event is written.
    ///
    /// Errors: out of memory, when some of the moves may be made.
    pub fn talk(
        &mut self,
        alloc: Global,
        code: &Verified,
        limit: u64,
        quantum: u32,
        moves: u32,
    ) -> Result<Talked, Memory>
        requires { FitsCore code.now limit self.old }
        ensures talks { IfOk result (λ came. Talks code.now limit quantum moves self.old came self.new) }
        ensures memory { OnErr result (FailsTalk code.now limit quantum self.old self.new) }
        ensures fits { FitsCore code.now limit self.new }
    {
        for made in 0..moves {
            let _made = made;
            let came = self.talk_once(alloc, code, limit, quantum)?;
            if !is_enough(came) {
                return Ok(came);
            }
        }
        Ok(Talked::Enough)
    }

    /// One or two moves, if any is left to make.
    #[inline(always)]
    fn talk_once(
        &mut self,
        alloc: Global,
        code: &Verified,
        limit: u64,
        quantum: u32,
    ) -> Result<Talked, Memory>
        requires { FitsCore code.now limit self.old }
        ensures talks { IfOk result (λ came. Talks code.now limit quantum 1 self.old came self.new) }
        ensures memory { OnErr result (FailsTalk code.now limit quantum self.old self.new) }
        ensures fits { FitsCore code.now limit self.new }
    {
        self.situation
            .talk(alloc, code, limit, quantum, &mut self.spare)
    }

    /// Whether there is a goroutine to lend.
    pub fn may_lend(&self) -> bool
        ensures { result ≡ is_some (to_lend self.now) }
    {
        self.ending().is_none() && self.situation.least_free().is_some()
    }

    /// The state of goroutine `number`, if it is awake and not lent.
    pub fn awake(&self, number: u64) -> Option<&GoState>
        ensures none { IfNone result (IfSome (slice_index_or self.now.rows number None) (λ row. is_some row.lease ≡ true)) }
        ensures some { IfSome result (λ state. (row : Row State) × (slice_index_or self.now.rows number None ≡ Some row) × (row.lease ≡ None) × (state.now ≡ row.state)) }
    {
        match self.situation.goroutines.row(number) {
            Some(slot) => slot.here(),
            None => None,
        }
    }

    /// Goroutine `number`, if it is asleep.
    pub fn asleep(&self, number: u64) -> Option<&Sleeping>
        ensures none { IfNone result (slice_index_or self.now.beds number None ≡ None) }
        ensures some { IfSome result (λ sleeping. slice_index_or self.now.beds number None ≡ Some sleeping.now) }
    {
        self.situation.goroutines.bed(number)
    }

    /// Whether goroutine `number` is awake, and lent.
    pub fn is_lent(&self, number: u64) -> bool
        ensures { IsTrue result ↔ HasLease self.now.rows number }
    {
        match self.situation.goroutines.row(number) {
            Some(slot) => slot.is_lent(),
            None => false,
        }
    }

    /// Whether goroutine `number` is awake, another one than that of the key, and the key is not below its floor.
    pub fn stands_before(&self, number: u64, key: Key) -> bool
        ensures { IsTrue result ↔ IsBefore self.now.rows key number }
    {
        match self.situation.goroutines.row(number) {
            Some(slot) => {
                let floor = Key {
                    clock: slot.floor(),
                    number,
                };
                number != key.number && !key.is_before(&floor)
            }
            None => false,
        }
    }

    /// The floor of goroutine `number`, if it is lent, becomes the clock that a look found.
    pub fn raise(&mut self, number: u64, clock: Clock)
        requires { IfSome (slice_index_or self.old.rows number None) (λ row. is_some row.lease ≡ true) }
        ensures { self.new ≡ record self.old { rows = slice_set self.old.rows number (option_map (raised_row clock) (slice_index_or self.old.rows number None)) } }
    {
        self.situation.goroutines.raise(number, clock);
    }

    /// Lends goroutine `number`, if it is awake and neither lent nor parked: its state is moved out, for local steps.
    pub fn take_state(&mut self, number: u64) -> Option<GoState>
        ensures none { IfNone result ((free_clock (slice_index_or self.old.rows number None) ≡ None) × (self.new ≡ self.old)) }
        ensures free { IfSome result (λ s. IsFreeIn self.old.rows number s) }
        ensures lent { IfSome result (λ s. self.new ≡ record self.old { rows = slice_set self.old.rows number (Some (lent_row s)) }) }
    {
        self.situation.goroutines.lend(number)
    }

    /// Puts goroutine `number`, which is awake, back in this state. It is then neither lent nor parked.
    pub fn put_state(&mut self, number: u64, state: GoState)
        requires { IsSome (slice_index_or self.old.rows number None) }
        ensures { self.new ≡ record self.old { rows = slice_set self.old.rows number (Some (free_row state)) } }
    {
        self.take_back(number, state, false);
    }

    /// Puts goroutine `number`, which is awake, back in this state, parked or not.
    pub fn take_back(&mut self, number: u64, state: GoState, parked: bool)
        requires { IsSome (slice_index_or self.old.rows number None) }
        ensures { self.new ≡ record self.old { rows = slice_set self.old.rows number (Some (back_row state parked)) } }
    {
        self.situation.goroutines.put_back(number, state, parked);
    }

    /// One step of goroutine `number`, as a schedule names it; of one that is not awake, or without the memory that it
    /// needs, it changes nothing.
    #[tactic(auto, using(crate::proofs::Stepping::rows_fit))]
    pub fn step(
        &mut self,
        alloc: Global,
        code: &Verified,
        limit: u64,
        number: u64,
        step: Step,
    ) -> Result<(), Memory>
        requires { FitsCore code.now limit self.old }
        ensures ok { OnOk result (self.new ≡ record self.old { rows = stepped_rows code.now limit step number self.old.rows }) }
        ensures memory { OnErr result (self.new ≡ self.old) }
        ensures fits { OnOk result (FitsCore code.now limit self.new) }
    {
        self.change_row(alloc, code, limit, number, step)
    }

    /// A row changes by a step.
    fn change_row(
        &mut self,
        alloc: Global,
        code: &Verified,
        limit: u64,
        number: u64,
        step: Step,
    ) -> Result<(), Memory>
        requires { FitsAll code.now limit self.old.rows }
        ensures ok { OnOk result (self.new ≡ record self.old { rows = stepped_rows code.now limit step number self.old.rows }) }
        ensures memory { OnErr result (self.new ≡ self.old) }
        ensures fits { OnOk result (FitsRow code.now limit (slice_index_or (stepped_rows code.now limit step number self.old.rows) number None)) }
    {
        self.situation
            .goroutines
            .step(alloc, code, limit, number, step)
    }
}

/// Whether the moves were made that were asked for.
#[inline(always)]
fn is_enough(came: Talked) -> bool
    ensures { result ≡ is_enough came }
{
    match came {
        Talked::Enough => true,
        Talked::Nobody | Talked::Running | Talked::Left => false,
    }
}

/// An `Event` to write an event to. It means nothing yet.
pub fn blank_event(alloc: Global) -> Event
    ensures { event_of result ≡ no_event }
{
    Event {
        clock: Clock::START,
        number: 0,
        request: Request::End,
        outcome: EventOutcome::Sleeps,
        partners: Vec::new(alloc),
    }
}
