//! How records come in.

ghost use Rattle.std.specs.Prelude.{◌≡◌};
ghost use Rattle.am_c_steps.specs.Bringings.{brings};

use am_record::{Op, Records};

/// How records come in, of which several make a run.
#[derive(Clone, Copy)]
pub enum Bringing {
    /// All are new.
    Load,
    /// Some have a record, which gets the new value.
    Put,
}

impl Bringing {
    /// The operation that brings these in.
    pub fn op(self, records: Records) -> Op
        ensures { result ≡ brings self records }
    {
        match self {
            Bringing::Load => Op::Load(records),
            Bringing::Put => Op::Put(records),
        }
    }
}
