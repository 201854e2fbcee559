//! Keys of slots, and which of them is least.

ghost use Rattle.std.specs.Prelude.{◌≡◌};

use go_text::{Fault, Memory};
use key_index::KeyIndex;
use logical_clock::{Clock, Key, Steps};
use machine_calls::Checks;
use std::alloc::Global;
use std::marker::Brand;
use std::sync::ledger::{Blank, Ledger};

/// Whether the least key is that of the least clock and, of equal clocks, of the least number.
pub(crate) fn check(alloc: Global, checks: &mut Checks) -> Result<(), Memory> {
    checks.see(
        "the least key is told",
        is_told::<Brand>(alloc, Blank::new(1)),
    )
}

/// Of the keys (5, 1), (5, 2) and (3, 3) the last one is least, and once it is raised to (5, 3) the first one.
fn is_told<L: Ledger>(alloc: Global, blank: Blank) -> Result<bool, Fault>
    requires name { blank.name ≡ L.name }
    requires parts { blank.parts ≡ L.parts }
    requires one { blank.parts ≡ 1 }
{
    let mut steps = Steps::<L>::new(blank);
    let mut keys = KeyIndex::new(alloc, 3)?;
    keys.insert(0, key(5, 1), &mut steps);
    keys.insert(1, key(5, 2), &mut steps);
    keys.insert(2, key(3, 3), &mut steps);
    let before = is_least(&keys, 2, key(3, 3));
    keys.set(2, Some(key(5, 3)), &mut steps);
    Ok(before && is_least(&keys, 0, key(5, 1)))
}

/// The key of a goroutine at a clock.
fn key(time: u32, number: u64) -> Key
    ensures { result ≡ record { clock = time; number = number } }
{
    Key {
        clock: Clock::at(u64::from(time)),
        number,
    }
}

/// Whether the least key is this one, of this slot.
fn is_least(keys: &KeyIndex, slot: usize, key: Key) -> bool {
    match keys.least() {
        Some((place, least)) => place == slot && least == key,
        None => false,
    }
}
