//! Goroutines that fall asleep, and that are woken.

ghost use Rattle.std.specs.Prelude.{◌≡◌, ℕ, ◌+◌, ◌≤◌, ◌++◌, IfSome, IsSome, None, length, map, option_map, slice_index_or, slice_set, vec_capacity, vec_len};
ghost use Rattle.bytecode.specs.Rules.{IsFrameOf};
ghost use Rattle.goroutine_vm.specs.Advance.{IsQuiet};
ghost use Rattle.word.specs.Values.{Reply as AnyReply};
ghost use Rattle.world_core_base.specs.Cores.{left_beds, woken_rows};
ghost use Rattle.awake_rows.specs.Slots.{IsUnlent};

use crate::spare::MOST_SPARE;
use awake_rows::Goroutines;
use channel_core::Woken;
use goroutine_vm::Room;
use logical_clock::Clock;
use verifier::Verified;

/// Wakes these goroutines with their replies, at this clock, each with one of these buffers, and appends their numbers to the list.
#[inline(always)]
pub(crate) fn wake(
    goroutines: &mut Goroutines,
    rooms: &mut Vec<Room>,
    code: &Verified,
    clock: Clock,
    woken: &[Woken],
    partners: &mut Vec<u64>,
)
    requires rooms { length woken.now ≤ length rooms.old.items }
    requires fits { (k : ℕ) → IfSome (slice_index_or goroutines.old.beds k None) (λ s. IsFrameOf code.now s.state) }
    requires room { vec_len partners.old + length woken.now ≤ vec_capacity partners.old }
    ensures rows { goroutines.new.rows ≡ woken_rows code.now goroutines.old.rows goroutines.old.beds clock woken.now }
    ensures beds { goroutines.new.beds ≡ left_beds goroutines.old.beds woken.now }
    ensures numbers { partners.new.items ≡ partners.old.items ++ map (λ (w : ℕ × AnyReply). w.0) woken.now }
{
    for one in woken {
        let number = one.number();
        partners.push_reserved(number);
        let Some(room) = rooms.pop() else {
            unreachable!()
        };
        goroutines.wake(number, room, code, one.reply(), clock);
    }
}

/// Puts an awake goroutine to sleep in its state, and keeps its buffer for one that wakes up.
#[inline(always)]
pub(crate) fn doze(goroutines: &mut Goroutines, rooms: &mut Vec<Room>, number: u64)
    requires awake { IsSome (slice_index_or goroutines.old.rows number None) }
    requires unlent { IsUnlent (slice_index_or goroutines.old.rows number None) }
    requires quiet { IfSome (slice_index_or goroutines.old.rows number None) (λ row. IsQuiet row.state.state) }
    ensures rows { goroutines.new.rows ≡ slice_set goroutines.old.rows number None }
    ensures beds { goroutines.new.beds ≡ slice_set goroutines.old.beds number (option_map (λ row. row.state) (slice_index_or goroutines.old.rows number None)) }
{
    let room = goroutines.doze(number);
    if rooms.len() < MOST_SPARE {
        let _ = rooms.push(room);
    }
}
