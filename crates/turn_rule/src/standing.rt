//! Where goroutines are, and which of them has the turn.

ghost use Rattle.std.specs.Prelude.{◌≡◌, ℕ, ◌≤◌, ◌^◌, IfNone, IfSome};
ghost use Rattle.logical_clock.specs.declared.key.Key.{Key as OneKey};
ghost use Rattle.turn_rule.specs.Standings.{IsLeast, IsParked, better, is_before_all};

use logical_clock::Key;

/// Where a goroutine is.
#[derive(Clone, Copy, Debug, PartialEq, Eq)]
pub enum Standing {
    /// At its request, with this key.
    Parked(Key),
    /// Before its request, whose key is at least this one.
    Floor(Key),
    /// Not awake.
    Asleep,
}

/// The parked row of least key; `None` if no row is parked.
#[tactic(auto, using(crate::proofs::Best::least_found, crate::proofs::Best::none_found))]
pub fn least(rows: &[Standing]) -> Option<usize>
    ensures some { IfSome result (IsLeast rows.now) }
    ensures none { IfNone result ((i : ℕ) (key : OneKey) → IsParked rows.now i key → ⊥) }
{
    let mut best: Option<(usize, Key)> = None;
    for i in 0..rows.len() {
        best = better(best, i, rows[i]);
    }
    best.map(|(i, _)| i)
}

/// Whether the key is before all of the floors; true if there is none.
pub fn has_turn(key: Key, floors: &[Key]) -> bool
    ensures { result ≡ is_before_all key floors.now }
{
    for floor in floors {
        if !key.is_before(floor) {
            return false;
        }
    }
    true
}

/// The better of the best row so far and row i.
fn better(best: Option<(usize, Key)>, i: usize, row: Standing) -> Option<(usize, Key)>
    ensures { result ≡ better best i row }
{
    let Standing::Parked(key) = row else {
        return best;
    };
    let Some((place, first)) = best else {
        return Some((i, key));
    };
    if key.is_before(&first) {
        return Some((i, key));
    }
    Some((place, first))
}

#[cfg(test)]
mod tests {
    use super::*;
    use logical_clock::Clock;
    use std::test::Fail;

    fn key(time: u64, number: u64) -> Key
        requires { time ≤ 2 ^ 62 }
    {
        Key {
            clock: Clock::at(time),
            number,
        }
    }

    #[test]
    fn least_of_three(rt: HostRuntime) -> Result<(), Fail> {
        let rows = [
            Standing::Asleep,
            Standing::Parked(key(4, 2)),
            Standing::Floor(key(1, 1)),
            Standing::Parked(key(4, 1)),
            Standing::Parked(key(7, 0)),
        ];
        assert_eq!(rt; least(rows.as_slice()), Some(3));
        assert_eq!(rt; least(&rows[..1]), None);
        Ok(())
    }

    #[test]
    fn turns(rt: HostRuntime) -> Result<(), Fail> {
        let floors = [key(4, 2), key(5, 1)];
        assert!(rt; has_turn(key(4, 1), floors.as_slice()));
        assert!(rt; !has_turn(key(5, 0), floors.as_slice()));
        assert!(rt; has_turn(key(9, 9), &floors[..0]));
        Ok(())
    }
}
