//! The latch, as the thread has it that took it.

ghost use Rattle.std.specs.Prelude.{◌≡◌, ◌<◌};

use crate::latch_name::LatchName;
use crate::state::LatchState;
use am_latch_ties::ViewTable;
use std::marker::Model;
use std::sync::MutexGuard;

/// A latch that one thread took, and has to itself until this is dropped. Contracts see it as the trace of its calls.
#[derive(Drop)]
pub struct Locked<'a, L: LatchName> {
    pub(crate) state: MutexGuard<'a, LatchState<L>>,
    pub(crate) table: &'a ViewTable,
    ghost named: { (table.now.shared.table_id ≡ L.table.calls) × (0 < table.now.shared.table_id.words) },
}

impl<'a, L: LatchName> Model for Locked<'a, L> {
    ghost use Rattle.core.specs.Sync.Mutex.{mutex_guard_value};
    ghost use Rattle.am_law_serial.specs.Trace.{Trace};
    ghost use Rattle.am_latch_ties.specs.CallLogs.{events_code};

    ghost Value = { Trace };

    ghost coded = { events_code };

    ghost view = { λ l. (mutex_guard_value l.state).trace };
}
