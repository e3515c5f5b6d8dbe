//! What was handed out of an engine: known to contracts, and kept nowhere.
ghost use Rattle.std.specs.Prelude.{◌≡◌, ◌++◌, ◌<◌, IfOk};
ghost use Rattle.am_latch_ties.specs.CallLogs.{CallLog, empty_log};
ghost use Rattle.am_latch_engine.specs.HandOuts.{view_with};

use am_latch_ties::{CallId, Events};
use am_record::{NoMemory, Reply, Step};
use atomic_table::{Play, Seat, Table, TableRule};
use std::alloc::Global;
use std::collections::LinkedList;
use std::marker::{Brand, Model, PhantomData};

/// The pairs and calls that were handed out. No value of it is made.
pub struct HandedView {
    pub trace: LinkedList<(Step, Reply)>,
    pub calls: LinkedList<CallId>,
}

pub struct AnyViews;

impl TableRule<u8, HandedView, ()> for AnyViews {
    ghost use Rattle.am_latch_engine.specs.HandOuts.{AreAny, no_view};

    ghost holds = { λ _. AreAny };

    ghost first = { λ _. no_view };
}

pub struct HandOut<E> {
    of: PhantomData<E>,
}

impl<E: Events> Play<u8, HandedView> for HandOut<E> {
    ghost use Rattle.am_latch_engine.specs.HandOuts.{HandsOut};

    ghost then = { HandsOut E.trace E.calls };
}

/// What was handed out of an engine. Contracts see it as the log that it is; it takes no memory.
#[derive(Drop)]
pub struct Handed {
    table: Table<u8, HandedView, (), AnyViews, Global>,
    token: Seat<u8, HandedView>,
}

impl Model for Handed {
    ghost use Rattle.am_latch_ties.specs.CallLogs.{call_log_code, CallLog};
    ghost use Rattle.am_latch_engine.specs.HandedFields.{IsHanded};
    ghost use Rattle.am_latch_engine.specs.HandOuts.{handed_log};

    ghost Value = { CallLog };

    ghost coded = { call_log_code };

    ghost view = { λ h. handed_log h.token.me.0 };

    ghost invariant = { IsHanded };
}

impl Handed {
    pub(crate) fn new(alloc: Global) -> Result<Handed, NoMemory>
        ensures { IfOk result (λ h. h ≡ empty_log) }
    {
        let Ok((table, token)) = Table::of_words(alloc, &[0], &()) else {
            return Err(NoMemory);
        };
        Ok(Handed { table, token })
    }

    /// Knows of these, too.
    pub(crate) fn add(&mut self, trace: &[(Step, Reply)], calls: &[CallId])
        ensures trace { self.new.trace ≡ self.old.trace ++ trace.now }
        ensures calls { self.new.calls ≡ self.old.calls ++ calls.now }
    {
        add_events::<Brand>(&self.table, &mut self.token, trace, calls);
    }
}

// The token knows of these, too.
fn add_events<E: Events>(
    table: &Table<u8, HandedView, (), AnyViews, Global>,
    token: &mut Seat<u8, HandedView>,
    trace: &[(Step, Reply)],
    calls: &[CallId],
)
    requires table { (token.old.table_id ≡ table.now.shared.table_id) × (0 < table.now.shared.table_id.words) }
    requires events { (trace.now ≡ E.trace) × (calls.now ≡ E.calls) }
    ensures same { token.new.table_id ≡ token.old.table_id }
    ensures token { token.new.me.0 ≡ view_with trace.now calls.now token.old.me.0 }
{
    table.shared.load::<HandOut<E>>(token, 0);
}
