//! What may be wrong of a line.

ghost use Rattle.std.specs.Prelude.{◌≡◌};

use am_record::NoMemory as OutOfMemory;
use std::alloc::AllocFailed;

/// What is wrong of the line that comes next.
#[derive(Clone, Copy)]
pub enum EventFault {
    /// The reply isn't one that the step can have.
    Form,
    /// Busy where it isn't due, or not where it is, or with the wrong holder.
    Busy,
    /// The line commits, and the operation at this place of the trace had the wrong answer.
    Answer(usize),
    /// Memory was refused.
    NoMemory,
}

impl From<OutOfMemory> for EventFault {
    ghost use Rattle.am_audit_replies.specs.declared.event_fault.EventFault.TheVariants.{NoMemory};

    ghost from_gives = { λ _ event_fault. event_fault ≡ NoMemory };

    fn from(_error: OutOfMemory) -> EventFault {
        EventFault::NoMemory
    }
}

impl<T: Drop> From<AllocFailed<T>> for EventFault {
    ghost use Rattle.am_audit_replies.specs.declared.event_fault.EventFault.TheVariants.{NoMemory};

    ghost from_gives = { λ _ event_fault. event_fault ≡ NoMemory };

    fn from(_error: AllocFailed<T>) -> EventFault {
        EventFault::NoMemory
    }
}
