//! What a book begins with.

ghost use Rattle.std.specs.Prelude.{◌≡◌};
ghost use Rattle.clock_table.specs.Clocks.{opening_rows};
ghost use Rattle.clock_table.specs.Seats.{rows, seat_looks, seat_table, table_of};
ghost use Rattle.logical_clock.specs.declared.limits.TheConstants.{MAX_GOROUTINES};

use clock_table::{BookSeat, ClockTable};
use go_text::Memory;
use std::alloc::Global;

/// The table of a book that is not open yet: no slot is lent.
#[derive(Drop)]
pub struct Blank {
    pub(crate) alloc: Global,
    pub(crate) table: ClockTable,
    pub(crate) seat: BookSeat,
    pub ghost own: { seat_table seat ≡ table_of table },
    pub ghost home: { rows seat ≡ opening_rows MAX_GOROUTINES },
    pub ghost fresh: { seat_looks seat ≡ 0 },
}

impl Blank {
    /// A new table.
    pub fn new(alloc: Global) -> Result<Blank, Memory> {
        let (table, seat) = ClockTable::new(alloc)?;
        Ok(Blank { alloc, table, seat })
    }
}
