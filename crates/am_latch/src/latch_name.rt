//! Which latch a type belongs to.
use std::marker::Brand;

/// Names one latch, so that a seat is its latch's by its type. Each call of a program picks it, as
/// [`Brand`] with the tables, the seats and the greatest number of runs of a [`crate::Blank`].
pub trait LatchName {
    ghost use Rattle.std.specs.Prelude.{ℕ};
    ghost use Rattle.am_latch.specs.Tables.{LatchTables};

    ghost table: { LatchTables };

    ghost seats: { ℕ };

    ghost most_runs: { ℕ };
}

impl LatchName for Brand {
    ghost use Rattle.am_latch.specs.Tables.{no_tables};

    ghost table = { no_tables };

    ghost seats = { 0 };

    ghost most_runs = { 0 };
}
