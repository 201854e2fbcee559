//! Names of books, which proofs alone see.

use std::marker::Brand;

/// Which book it is: its table of clocks, its code and its clock limit. Each call that opens a book names its own, so that a
/// lease is of one book.
pub trait BookName {
    ghost use Rattle.std.specs.Prelude.{ℕ};
    ghost use Rattle.atomic_table.specs.Seated.{TableId};
    ghost use Rattle.bytecode.specs.Code.{Code};

    ghost table: { TableId };

    ghost code: { Code };

    ghost limit: { ℕ };
}

impl BookName for Brand {
    ghost use Rattle.book.specs.Names.{no_code, no_table};

    ghost table = { no_table };

    ghost code = { no_code };

    ghost limit = { 0 };
}
