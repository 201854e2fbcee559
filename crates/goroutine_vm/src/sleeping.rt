//! Goroutines that sleep.

ghost use Rattle.std.specs.Prelude.{◌≡◌, IfOk, None, Some, cond, reverse};
ghost use Rattle.bytecode.specs.Machine.{code_next};
ghost use Rattle.goroutine_vm.specs.Advance.{IsQuiet};
ghost use Rattle.goroutine_vm_base.specs.Steps.{AsksFor};

use crate::frames::Frames;
use crate::state::GoState;
use crate::told::Told;
use call_frame::frame::Frame;
use go_text::Memory;
use goroutine_vm_base::call_stack::CallStack;
use goroutine_vm_request::{RequestLists, request};
use logical_clock::Clock;
use std::alloc::Global;
use std::marker::Model;
use verifier::Verified;
use word::request::Request;

/// The buffer for the reply words of one goroutine.
#[derive(Drop)]
pub struct Room {
    told: Box<Told>,
}

impl Room {
    /// An empty buffer.
    pub fn new(alloc: Global) -> Result<Room, Memory> {
        let told = Box::new(alloc, Told::nothing())?;
        Ok(Room { told })
    }
}

/// A sleeping goroutine. It has no buffer for reply words: it gets one when it is woken.
#[derive(Drop)]
pub struct Sleeping {
    clock: Clock,
    doomed: bool,
    running: Box<CallStack>,
}

impl Model for Sleeping {
    ghost use Rattle.bytecode.specs.Machine.{Frames as FramesValue};
    ghost use Rattle.word.specs.Kinds.{Clocked};

    ghost Value = { Clocked FramesValue };

    ghost view = { λ s. record { clock = s.clock; doomed = s.doomed; state = s.running.value } };
}

impl GoState {
    /// Puts the goroutine to sleep; returns it, and its buffer for reply words. It gives back the memory of frames that it keeps for
    /// later calls, if there are many.
    pub fn fall_asleep(self) -> (Sleeping, Room)
        requires { IsQuiet self.state }
        ensures { result.0 ≡ self }
    {
        let (clock, doomed, frames) = self.into_parts();
        frames.running.as_ref().quiet();
        let Frames { mut running, told } = frames;
        running.as_mut().trim_deep();
        let sleeping = Sleeping {
            clock,
            doomed,
            running,
        };
        (sleeping, Room { told })
    }
}

impl Sleeping {
    /// The clock at which it fell asleep.
    pub fn clock(&self) -> Clock
        ensures { result ≡ self.now.clock }
    {
        self.clock
    }

    /// The functions that run, the one called last at the end.
    pub fn frames(&self) -> &[Frame]
        ensures frames { reverse result.now ≡ self.now.state }
    {
        self.running.as_ref().as_slice()
    }

    /// Writes the request that it sleeps at to `place`. Returns whether it is at a request.
    ///
    /// Errors: out of memory.
    pub fn ask(&self, alloc: Global, code: &Verified, place: &mut Request) -> Result<bool, Memory>
        ensures asks { IfOk result (λ asking. AsksFor (code_next code.now self.now.state) (cond asking (Some place.new) None)) }
    {
        let mut lists = RequestLists::new(alloc);
        let asking = request(&mut lists, code.code(), self.running.as_ref(), place)?;
        Ok(asking)
    }

    /// Wakes the goroutine with this buffer for reply words.
    pub fn get_up(self, room: Room) -> GoState
        ensures { result ≡ self }
    {
        self.running.as_ref().quiet();
        let Sleeping {
            clock,
            doomed,
            running,
        } = self;
        let Room { mut told } = room;
        told.clear();
        GoState {
            clock,
            doomed,
            frames: Frames { running, told },
        }
    }
}
