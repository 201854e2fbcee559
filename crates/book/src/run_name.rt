//! Names of runs, which proofs alone see.

use crate::lease::Lease;
use crate::name::BookName;
use std::marker::{Brand, PhantomData};
use std::sync::ledger::Ledger;

/// Which run it is: the table of clocks of its book, its code, its clock limit, whether lines of its trace are made, and the ledgers of
/// its output and of its trace.
/// Each call of `run` names its own.
pub trait RunName {
    ghost use Rattle.std.specs.Prelude.{ℕ, Bool};
    ghost use Rattle.atomic_table.specs.Seated.{TableId};
    ghost use Rattle.bytecode.specs.Code.{Code};

    ghost table: { TableId };

    ghost code: { Code };

    ghost limit: { ℕ };

    ghost traces: { Bool };

    ghost printed: { ℕ };

    ghost traced: { ℕ };
}

impl RunName for Brand {
    ghost use Rattle.std.specs.Prelude.{true};
    ghost use Rattle.book.specs.Names.{no_code, no_table};

    ghost table = { no_table };

    ghost code = { no_code };

    ghost limit = { 0 };

    ghost traces = { true };

    ghost printed = { 0 };

    ghost traced = { 0 };
}

/// The book of the run of this name.
#[derive(Drop)]
pub struct OfRun<B: RunName> {
    of: PhantomData<B>,
}

impl<B: RunName> BookName for OfRun<B> {
    ghost table = { B.table };

    ghost code = { B.code };

    ghost limit = { B.limit };
}

/// A lease of the run of this name.
pub type RunLease<B> = Lease<OfRun<B>>;

/// The ledger of the bytes of output that were handed out: the lock has the book, the thread that writes the one share.
#[derive(Drop)]
pub struct Printed<B: RunName> {
    of: PhantomData<B>,
}

impl<B: RunName> Ledger for Printed<B> {
    ghost name = { B.printed };

    ghost parts = { 1 };
}

/// The ledger of the bytes of the trace that were handed out.
#[derive(Drop)]
pub struct Traced<B: RunName> {
    of: PhantomData<B>,
}

impl<B: RunName> Ledger for Traced<B> {
    ghost name = { B.traced };

    ghost parts = { 1 };
}
