//! Memory of earlier goroutines and events, for later ones.

ghost use Rattle.std.specs.Prelude.{◌≡◌, ◌<◌, ◌≤◌, IfOk, OnOk, length};
ghost use Rattle.bytecode.specs.Machine.{code_begin};
ghost use Rattle.bytecode.specs.Rules.{IsFrameOf};
ghost use Rattle.word.specs.Kinds.{at};

use channel_core::Woken;
use go_text::Memory;
use goroutine_vm::{GoState, RequestLists, Room, spawn_state};
use logical_clock::Clock;
use std::alloc::Global;
use verifier::Verified;
use word::value::Word;

/// How many buffers of goroutines that fell asleep are kept, and how many states of goroutines that ended.
pub(crate) const MOST_SPARE: usize = 64;

/// Memory of earlier goroutines and events, for later ones. Contracts don't mention it.
pub(crate) struct Spare {
    /// Buffers of goroutines that fell asleep, for those that wake up.
    pub rooms: Vec<Room>,
    /// States of goroutines that ended, whose memory new ones reuse.
    pub states: Vec<GoState>,
    /// Where an event lists the goroutines that it wakes.
    pub woken: Vec<Woken>,
    /// Lists of performed requests, for later requests.
    pub lists: RequestLists,
}

impl Drop for Spare {
    fn drop(self) {
        let Spare {
            rooms,
            states,
            woken,
            lists,
        } = self;
        drop(rooms);
        drop(states);
        drop(woken);
        drop(lists);
    }
}

impl Spare {
    /// Nothing kept.
    pub fn none(alloc: Global) -> Spare {
        Spare {
            rooms: Vec::new(alloc),
            states: Vec::new(alloc),
            woken: Vec::new(alloc),
            lists: RequestLists::new(alloc),
        }
    }
}

/// Makes sure that there are at least `count` buffers.
pub(crate) fn make_rooms(alloc: Global, rooms: &mut Vec<Room>, count: usize) -> Result<(), Memory>
    ensures { OnOk result (count ≤ length rooms.new.items) }
{
    while rooms.len() < count {
        rooms.push(Room::new(alloc)?)?;
    }
    Ok(())
}

/// A goroutine at the first instruction of a function, with these words as parameters. It reuses the memory of one that has ended, if
/// there is any.
pub(crate) fn begin_state(
    alloc: Global,
    code: &Verified,
    function: usize,
    args: &[Word],
    clock: Clock,
    states: &mut Vec<GoState>,
) -> Result<GoState, Memory>
    requires { function < length code.now.functions }
    ensures begins { IfOk result (λ s. s ≡ at clock (code_begin code.now function args.now)) }
    ensures frame { IfOk result (λ s. IsFrameOf code.now s.state) }
{
    let Some(mut state) = states.pop() else {
        return spawn_state(alloc, code, function, args, clock);
    };
    state.restart(code, function, args, clock)?;
    Ok(state)
}

/// Keeps the memory of a goroutine that ended, unless there is enough.
pub(crate) fn keep_state(states: &mut Vec<GoState>, ended: Option<GoState>) {
    let Some(mut state) = ended else {
        return;
    };
    if states.len() < MOST_SPARE {
        state.trim();
        let _ = states.push(state);
    }
}
