//! An awake goroutine in a world.

ghost use Rattle.std.specs.Prelude.{◌≡◌, IfNone, IfOk, IfSome, OnErr, OnOk, None, Some, false, true, cond};
ghost use Rattle.std.specs.Option.{is_some};
ghost use Rattle.bytecode.specs.Machine.{code_kind};
ghost use Rattle.bytecode.specs.Rules.{IsFrameOf};
ghost use Rattle.goroutine_vm.specs.Advance.{IsStateOf};
ghost use Rattle.turn_rule.specs.Turns.{stepped};
ghost use Rattle.turn_rule.specs.Schedule.{give_back, lend, local, look, publish};
ghost use Rattle.word.specs.Kinds.{asks, told};
ghost use Rattle.word.specs.Worlds.{rules};
ghost use Rattle.word.specs.Views.{reply_of};
ghost use Rattle.awake_rows.specs.Slots.{IsRowOf, KeepsFloor, IsWorked, State, back_row, free_clock, free_row, is_asking, lent_row, raised_row, stepped_row, talk_of_row, word_reply};
ghost use Rattle.awake_rows.specs.Living.{clocks_in, clocks_of};

use crate::replies::WordReply;
use go_text::Memory;
use goroutine_vm::GoState;
use goroutine_vm_request::Talk;
use logical_clock::Clock;
use std::alloc::Global;
use std::marker::Model;
use std::mem;
use std::snapshot::Snapshot;
use turn_rule::Step;
use verifier::Verified;
use word::request::Reply;

/// The state of an awake goroutine, or what contracts still see of it.
#[derive(Drop)]
pub(crate) enum Held {
    /// It is here, and not lent.
    Here(GoState),
    /// It is lent, and was moved out; this has no bytes.
    Lent(Snapshot<GoState>),
    /// It is lent, and runs ahead here.
    Ahead(Box<Ahead>),
}

/// A goroutine that is lent, as a schedule moves it.
#[derive(Drop)]
pub(crate) struct Ahead {
    /// The state in which it was lent.
    pub base: GoState,
    pub present: GoState,
    /// The clock that was last published.
    pub published: Clock,
}

/// One of the orders of awake goroutines.
#[derive(Clone, Copy)]
pub(crate) enum Order {
    /// Of those that are at their requests.
    Parked,
    /// Of those that may be lent.
    Free,
    /// Of those that are lent.
    Lent,
}

/// An awake goroutine: its state, or that in which it was lent.
#[derive(Drop)]
pub struct Slot {
    held: Held,
    /// A clock that its next request is not below.
    floor: Clock,
    /// Whether it is at its request, and waits for its turn.
    parked: bool,
}

impl Model for Slot {
    ghost use Rattle.awake_rows.specs.Slots.{IsFloor, State, held_state, lease_of};
    ghost use Rattle.turn_rule.specs.declared.Row.{Row};

    ghost Value = { Row State };

    ghost view = { λ s. record { state = held_state s.held; floor = s.floor; lease = lease_of s.held; parked = s.parked } };

    ghost invariant = { λ s. IsFloor s.held s.floor s.parked };
}

impl Slot {
    /// A goroutine that may be lent.
    #[inline(always)]
    pub fn free(state: GoState) -> Slot
        ensures { result ≡ free_row state }
    {
        Slot::back(state, false)
    }

    /// A goroutine that is at its request, or may be lent.
    #[inline(always)]
    pub fn back(state: GoState, parked: bool) -> Slot
        ensures { result ≡ back_row state parked }
    {
        Slot {
            floor: state.clock(),
            held: Held::Here(state),
            parked,
        }
    }

    /// The goroutine's clock, if it is parked.
    #[inline(always)]
    pub fn parked_clock(&self) -> Option<Clock>
        ensures { result ≡ cond self.now.parked (Some self.now.state.clock) None }
    {
        match &self.held {
            Held::Here(state) if self.parked => Some(state.clock()),
            _ => None,
        }
    }

    /// The goroutine's clock, if it may be lent.
    #[inline(always)]
    pub fn free_clock(&self) -> Option<Clock>
        ensures { result ≡ free_clock (Some self.now) }
    {
        match &self.held {
            Held::Here(state) if !self.parked => Some(state.clock()),
            _ => None,
        }
    }

    /// The order in which it has a key, at its floor.
    #[inline(always)]
    pub(crate) fn order(&self) -> Order
        ensures { clocks_of (Some self.now) ≡ clocks_in result self.now.floor }
    {
        match &self.held {
            Held::Here(_) if self.parked => Order::Parked,
            Held::Here(_) => Order::Free,
            Held::Lent(_) | Held::Ahead(_) => Order::Lent,
        }
    }

    /// The floor of one that is not lent is its clock, and one that is parked is not lent. This does nothing.
    #[inline(always)]
    pub(crate) fn keeps_floor(&self)
        ensures { KeepsFloor self.now }
    {
        let _held = &self.held;
    }

    /// A clock that the goroutine's next request is not below.
    #[inline(always)]
    pub fn floor(&self) -> Clock
        ensures { result ≡ self.now.floor }
    {
        self.floor
    }

    /// Whether it is lent.
    #[inline(always)]
    pub fn is_lent(&self) -> bool
        ensures { result ≡ is_some self.now.lease }
    {
        match &self.held {
            Held::Here(_) => false,
            Held::Lent(_) | Held::Ahead(_) => true,
        }
    }

    /// The state of the goroutine, if it is not lent.
    pub fn here(&self) -> Option<&GoState>
        ensures none { IfNone result (is_some self.now.lease ≡ true) }
        ensures some { IfSome result (λ state. (self.now.lease ≡ None) × (state.now ≡ self.now.state)) }
    {
        match &self.held {
            Held::Here(state) => Some(state),
            Held::Lent(_) | Held::Ahead(_) => None,
        }
    }

    /// The state of a goroutine that is not lent.
    #[inline(always)]
    pub fn state(&self) -> &GoState
        requires { self.now.lease ≡ None }
        ensures { result.now ≡ self.now.state }
    {
        let Held::Here(state) = &self.held else {
            unreachable!()
        };
        state
    }

    /// The state of a goroutine that is not lent.
    #[inline(always)]
    pub fn into_state(self) -> GoState
        requires { self.lease ≡ None }
        ensures { result ≡ self.state }
    {
        let Slot { held, .. } = self;
        let Held::Here(state) = held else {
            unreachable!()
        };
        state
    }

    /// The state of a goroutine that has ended, if it is here.
    pub(crate) fn into_room(self) -> Option<GoState> {
        let Slot { held: ended, .. } = self;
        match ended {
            Held::Here(state) => Some(state),
            Held::Lent(_) | Held::Ahead(_) => None,
        }
    }

    /// Lends it, if it may be lent: its state is moved out.
    #[inline(always)]
    pub fn lend(&mut self) -> Option<GoState>
        ensures none { IfNone result ((free_clock (Some self.old) ≡ None) × (self.new ≡ self.old)) }
        ensures some { IfSome result (λ s. (self.old ≡ free_row s) × (self.new ≡ lent_row s)) }
    {
        if self.parked {
            return None;
        }
        let lent = match &self.held {
            Held::Here(state) => Held::Lent(Snapshot::of(state)),
            Held::Lent(_) | Held::Ahead(_) => return None,
        };
        match mem::replace(&mut self.held, lent) {
            Held::Here(state) => Some(state),
            Held::Lent(_) | Held::Ahead(_) => unreachable!(),
        }
    }

    /// A goroutine that may be lent makes at most `quantum` local steps in its slot, up to a request, and is parked if it then
    /// makes one. Returns whether it does.
    ///
    /// Errors: out of memory, when some of the steps may be made.
    pub(crate) fn work(
        &mut self,
        alloc: Global,
        code: &Verified,
        limit: u64,
        quantum: u32,
    ) -> Result<bool, Memory>
        requires row { IsRowOf code.now limit self.old }
        requires free { is_some (free_clock (Some self.old)) ≡ true }
        ensures ok { IfOk result (λ asking. (base : State) × (self.old ≡ free_row base) × IsWorked code.now limit quantum base (Some asking) self.new) }
        ensures memory { OnErr result ((base : State) × (self.old ≡ free_row base) × IsWorked code.now limit quantum base None self.new) }
    {
        let Held::Here(state) = &mut self.held else {
            unreachable!()
        };
        let worked = state.step_ahead(alloc, code, limit, quantum);
        self.parked = matches!(worked, Ok(true));
        self.floor = state.clock();
        worked
    }

    /// Like `work`, but returns the request that it is then at, as far as it is a send of one word or a receive.
    #[inline(always)]
    pub(crate) fn talk(
        &mut self,
        alloc: Global,
        code: &Verified,
        limit: u64,
        quantum: u32,
    ) -> Result<Talk, Memory>
        requires row { IsRowOf code.now limit self.old }
        requires free { is_some (free_clock (Some self.old)) ≡ true }
        ensures ok { IfOk result (λ talk. (base : State) × (self.old ≡ free_row base) × IsWorked code.now limit quantum base (Some (is_asking talk)) self.new) }
        ensures talk { IfOk result (λ talk. talk ≡ talk_of_row code.now limit (Some self.new)) }
        ensures memory { OnErr result ((base : State) × (self.old ≡ free_row base) × IsWorked code.now limit quantum base None self.new) }
    {
        let Held::Here(state) = &mut self.held else {
            unreachable!()
        };
        let talked = state.talk_ahead(alloc, code, limit, quantum);
        self.parked = is_parked(&talked);
        self.floor = state.clock();
        talked
    }

    /// Its request is done: it goes on with this reply, at this clock.
    pub fn answer(&mut self, code: &Verified, reply: Reply, clock: Clock)
        requires frame { IsFrameOf code.now self.old.state.state }
        requires unlent { self.old.lease ≡ None }
        ensures { self.new ≡ free_row (told (code_kind code.now) self.old.state clock (reply_of reply)) }
    {
        self.tell(code, &reply, clock);
    }

    /// Like `answer`, but borrows the reply.
    #[inline(always)]
    pub(crate) fn tell(&mut self, code: &Verified, reply: &Reply, clock: Clock)
        requires frame { IsFrameOf code.now self.old.state.state }
        requires unlent { self.old.lease ≡ None }
        ensures { self.new ≡ free_row (told (code_kind code.now) self.old.state clock (reply_of reply.now)) }
    {
        let Held::Here(state) = &mut self.held else {
            unreachable!()
        };
        state.tell(code, reply, clock);
        self.floor = clock;
        self.parked = false;
    }

    /// Like `answer`, with this reply.
    #[inline(always)]
    pub(crate) fn tell_word(&mut self, code: &Verified, reply: WordReply, clock: Clock)
        requires frame { IsFrameOf code.now self.old.state.state }
        requires unlent { self.old.lease ≡ None }
        ensures { self.new ≡ free_row (told (code_kind code.now) self.old.state clock (word_reply reply)) }
    {
        let Held::Here(state) = &mut self.held else {
            unreachable!()
        };
        reply.tell(state, code, clock);
        self.floor = clock;
        self.parked = false;
    }

    /// It is as it was, though its request was performed: the run ends.
    pub fn stay(&mut self)
        requires { self.old.lease ≡ None }
        ensures { self.new ≡ free_row self.old.state }
    {
        let Held::Here(state) = &self.held else {
            unreachable!()
        };
        self.floor = state.clock();
        self.parked = false;
    }

    /// One step of its goroutine, as a schedule names it: it is lent, makes a local step, publishes its clock, is looked at
    /// or comes back. A step that doesn't apply changes nothing, nor does one that needs memory and gets none, or a state
    /// that was moved out.
    pub fn step(
        &mut self,
        alloc: Global,
        code: &Verified,
        limit: u64,
        step: Step,
    ) -> Result<(), Memory>
        requires { IsRowOf code.now limit self.old }
        ensures ok { OnOk result (self.new ≡ stepped_row code.now limit step self.old) }
        ensures memory { OnErr result (self.new ≡ self.old) }
        ensures fits { OnOk result (IsRowOf code.now limit self.new) }
    {
        match step {
            Step::Lend(_) => self.lend_here(alloc, code, limit),
            Step::Local(_) => self.local(alloc, code, limit),
            Step::Publish(_) => {
                self.publish(code, limit);
                Ok(())
            }
            Step::Look(_) => self.look(code, limit),
            Step::Return(_) => self.give_back(alloc, code, limit),
            Step::Settle => Ok(()),
        }
    }

    /// It is lent, if it may be.
    fn lend_here(&mut self, alloc: Global, code: &Verified, limit: u64) -> Result<(), Memory>
        requires { IsRowOf code.now limit self.old }
        ensures ok { OnOk result (self.new ≡ lend (rules (code_kind code.now) limit) self.old self.old.lease) }
        ensures memory { OnErr result (self.new ≡ self.old) }
        ensures fits { OnOk result (IsRowOf code.now limit self.new) }
    {
        if self.parked {
            return Ok(());
        }
        let Held::Here(state) = &self.held else {
            return Ok(());
        };
        let ahead = Ahead {
            base: state.try_clone(alloc)?,
            present: state.try_clone(alloc)?,
            published: state.clock(),
        };
        self.held = Held::Ahead(Box::new(alloc, ahead)?);
        Ok(())
    }

    /// One that is lent makes a local step, if it has one.
    fn local(&mut self, alloc: Global, code: &Verified, limit: u64) -> Result<(), Memory>
        requires { IsRowOf code.now limit self.old }
        ensures ok { OnOk result (self.new ≡ local (rules (code_kind code.now) limit) self.old self.old.lease) }
        ensures memory { OnErr result (self.new ≡ self.old) }
        ensures fits { OnOk result (IsRowOf code.now limit self.new) }
    {
        match &mut self.held {
            Held::Here(_) => Ok(()),
            Held::Lent(_) => Err(Memory),
            Held::Ahead(ahead) => {
                let next = after_step(alloc, code, limit, &ahead.present)?;
                ahead.present = next;
                Ok(())
            }
        }
    }

    /// One that is lent publishes its present clock.
    fn publish(&mut self, code: &Verified, limit: u64)
        requires { IsRowOf code.now limit self.old }
        ensures ok { self.new ≡ publish (rules (code_kind code.now) limit) self.old self.old.lease }
        ensures fits { IsRowOf code.now limit self.new }
    {
        if let Held::Ahead(ahead) = &mut self.held {
            ahead.published = ahead.present.clock();
        }
    }

    /// The floor of one that is lent becomes the clock that it published last.
    fn look(&mut self, code: &Verified, limit: u64) -> Result<(), Memory>
        requires { IsRowOf code.now limit self.old }
        ensures ok { OnOk result (self.new ≡ look (rules (code_kind code.now) limit) self.old self.old.lease) }
        ensures memory { OnErr result (self.new ≡ self.old) }
        ensures fits { OnOk result (IsRowOf code.now limit self.new) }
    {
        match &self.held {
            Held::Here(_) => Ok(()),
            Held::Lent(_) => Err(Memory),
            Held::Ahead(ahead) => {
                self.floor = ahead.published;
                Ok(())
            }
        }
    }

    /// The floor of one that is lent becomes the clock that a look found.
    pub fn raise(&mut self, clock: Clock)
        requires { is_some self.old.lease ≡ true }
        ensures { self.new ≡ raised_row clock self.old }
    {
        if self.is_lent() {
            self.floor = clock;
        } else {
            unreachable!()
        }
    }

    /// A goroutine that is lent comes back in its present state, and is parked if it is at a request.
    fn give_back(&mut self, alloc: Global, code: &Verified, limit: u64) -> Result<(), Memory>
        requires { IsRowOf code.now limit self.old }
        ensures ok { OnOk result (self.new ≡ give_back (rules (code_kind code.now) limit) self.old self.old.lease) }
        ensures memory { OnErr result (self.new ≡ self.old) }
        ensures fits { OnOk result (IsRowOf code.now limit self.new) }
    {
        let present = match &self.held {
            Held::Here(_) => return Ok(()),
            Held::Lent(_) => return Err(Memory),
            Held::Ahead(ahead) => ahead.present.try_clone(alloc)?,
        };
        self.floor = present.clock();
        self.parked = present.is_asking(code, limit);
        self.held = Held::Here(present);
        Ok(())
    }
}

/// Whether a goroutine that has made local steps is at a request then.
#[inline(always)]
fn is_parked(talked: &Result<Talk, Memory>) -> bool
    ensures ok { IfOk talked.now (λ talk. result ≡ is_asking talk) }
    ensures memory { OnErr talked.now (result ≡ false) }
{
    match talked {
        Ok(Talk::Running) => false,
        Ok(_) => true,
        Err(Memory) => false,
    }
}

/// The state after one local step, if there is one.
fn after_step(
    alloc: Global,
    code: &Verified,
    limit: u64,
    state: &GoState,
) -> Result<GoState, Memory>
    requires { IsStateOf code.now limit state.now }
    ensures step { IfOk result (λ next. stepped (rules (code_kind code.now) limit) state.now ≡ next) }
    ensures fits { IfOk result (λ next. IsStateOf code.now limit next) }
{
    let mut next = state.try_clone(alloc)?;
    next.step_ahead(alloc, code, limit, 1)?;
    Ok(next)
}
