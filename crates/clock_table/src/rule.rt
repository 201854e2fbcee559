//! The rule of the table and the steps that keep it.

use crate::view::View;
use atomic_table::{Join, Play, Split, TableRule};
use std::marker::{Brand, PhantomData};

/// The word of a slot is the clock last stored by the seat that now has the slot.
pub struct Clocks;

impl TableRule<(), View, usize> for Clocks {
    ghost use Rattle.clock_table.specs.Clocks.{Kept, opening_view};

    ghost holds = { λ _ s. Kept s };

    ghost first = { opening_view };
}

/// The book's seat stores a clock in a slot that is not lent.
pub struct Stores;

impl Play<(), View> for Stores {
    ghost use Rattle.clock_table.specs.Clocks.{StoresClock};

    ghost then = { StoresClock };
}

/// A lease's seat stores its clock.
pub struct Publishes;

impl Play<(), View> for Publishes {
    ghost use Rattle.clock_table.specs.Clocks.{PublishesClock};

    ghost then = { PublishesClock };
}

/// The book's seat loads a word.
pub struct Looks;

impl Play<(), View> for Looks {
    ghost use Rattle.clock_table.specs.Clocks.{LooksAt};

    ghost then = { LooksAt };
}

/// The book's seat stores once more the clock of the seat that it has taken in.
pub struct TakesBack;

impl Play<(), View> for TakesBack {
    ghost use Rattle.clock_table.specs.Clocks.{TakesClockBack};

    ghost then = { TakesClockBack };
}

/// Which slot is lent, and the most that its clock may reach. Each call of `lend` picks them.
pub trait Terms {
    ghost use Rattle.std.specs.Prelude.{ℕ};
    ghost use Rattle.clock_table.specs.declared.view.Loan.{Loan};

    ghost slot: { ℕ };

    ghost loan: { Loan };
}

impl Terms for Brand {
    ghost use Rattle.clock_table.specs.Clocks.{no_loan};

    ghost slot = { 0 };

    ghost loan = { no_loan };
}

/// The book's seat lends a slot.
pub struct Lends<T: Terms> {
    of: PhantomData<T>,
}

impl<T: Terms> Split<View> for Lends<T> {
    ghost use Rattle.clock_table.specs.Clocks.{desk_after_lend, new_lease};

    ghost left = { λ v. desk_after_lend T.slot T.loan v };

    ghost right = { λ v. new_lease T.slot T.loan v };
}

/// The book's seat takes in a lease's.
pub struct Returns;

impl Join<View> for Returns {
    ghost use Rattle.clock_table.specs.Clocks.{desk_after_return};
    ghost use Rattle.clock_table.specs.declared.view.View.TheVariants.{Spent};

    ghost both = { desk_after_return };

    ghost spent = { Spent };
}
