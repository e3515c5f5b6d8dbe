//! What is wrong with a call.

ghost use Rattle.std.specs.Prelude.{◌≡◌, true, OnOk};

use am_record::NoMemory;

/// What is wrong with a call.
#[derive(Clone, Copy, Debug, PartialEq, Eq)]
pub(crate) enum Fault {
    /// Memory was refused twice, or while the call was prepared.
    NoMemory,
    /// It was refused memory, and changed something.
    Changed,
    /// It isn't answered as with ample memory.
    Differs,
    /// It was refused memory, and never wants any.
    Refused,
}

impl From<NoMemory> for Fault {
    fn from(_: NoMemory) -> Fault {
        Fault::NoMemory
    }
}

/// Nothing is wrong, where this holds of the answer.
pub(crate) fn expect(holds: bool) -> Result<(), Fault>
    ensures { OnOk result (holds ≡ true) }
{
    if holds { Ok(()) } else { Err(Fault::Differs) }
}

/// Nothing is wrong, where this holds after a refusal.
pub(crate) fn expect_unchanged(holds: bool) -> Result<(), Fault>
    ensures { OnOk result (holds ≡ true) }
{
    if holds { Ok(()) } else { Err(Fault::Changed) }
}
