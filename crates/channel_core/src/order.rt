//! Keys in order, which contracts alone see.

ghost use Rattle.std.specs.Prelude.{◌≡◌, ℕ, Some, [], ◌∷◌, ◌++◌};
ghost use Rattle.std.specs.List.{filter};
ghost use Rattle.channel_core.specs.Orders.{changed, is_not};

use std::marker::Model;
use std::mem;
use std::snapshot::Snapshot;

/// A change of keys in order: one entered at the back, or left.
#[cycle(change)]
#[derive(Drop)]
struct Change {
    before: Option<Snapshot<Change>>,
    enters: bool,
    key: usize,
}

impl Model for Change {
    ghost use Rattle.std.specs.Prelude.{option_map};
    ghost use Rattle.channel_core.specs.Orders.{OrderValue, changed, one_more};

    ghost Value = { OrderValue };

    ghost view = { λ c. record { keys = changed (option_map (λ s. s.value.keys) c.before) c.enters c.key; changes = one_more (option_map (λ s. s.value.changes) c.before) } };

    ghost size = { λ v. v.changes };

    ghost use Rattle.std.proofs.Common.{arith};

    ghost size_decreases = { λ a h. Prim.grind (arith) };
}

/// Keys in the order in which they entered. Contracts alone see them: it has no bytes.
#[derive(Drop)]
pub(crate) struct Order {
    last: Snapshot<Change>,
}

impl Model for Order {
    ghost use Rattle.std.specs.Prelude.{ℕ, List};

    ghost Value = { List ℕ };

    ghost view = { λ o. o.last.value.keys };
}

impl Order {
    /// No keys.
    pub(crate) fn new() -> Order
        ensures { result ≡ [] }
    {
        let change = Change {
            before: None,
            enters: false,
            key: 0,
        };
        Order {
            last: Snapshot::of(&change),
        }
    }

    /// A key enters at the back.
    pub(crate) fn enter(&mut self, key: usize)
        ensures { self.new ≡ self.old ++ key ∷ [] }
    {
        self.change(true, key);
    }

    /// A key leaves.
    pub(crate) fn leave(&mut self, key: usize)
        ensures { self.new ≡ filter (is_not key) self.old }
    {
        self.change(false, key);
    }

    /// A key enters at the back, or leaves.
    fn change(&mut self, enters: bool, key: usize)
        ensures { self.new ≡ changed (Some self.old) enters key }
    {
        let before = mem::replace(self, Order::new());
        let change = Change {
            before: Some(before.last),
            enters,
            key,
        };
        self.last = Snapshot::of(&change);
    }
}
