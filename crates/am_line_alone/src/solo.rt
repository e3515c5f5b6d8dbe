//! A store as its only session sees it.

ghost use Rattle.am_record.specs.Limits.{max_runs};
ghost use Rattle.std.specs.Prelude.{◌≡◌, None, IfOk};
ghost use Rattle.am_law_sound.specs.StoreState.{empty_state};
ghost use Rattle.am_line_alone.specs.Solo.{solo_meaning};

use am_index_btree::BTree;
use am_line_dialogue::{EndAnswer, HoldAnswer, Standing, ToldSession, ToldSessions, active_behind};
use am_line_session::Backend;
use am_line_wire::WhichSessions;
use am_record::{HashKey, NoMemory, Reply, Step};
use am_store::Store;
use std::alloc::Global;
use std::marker::Model;
use std::rt::Clock;
use std::sync::Wait;

/// A store with one session, and the transaction that is active in it.
#[derive(Drop)]
pub(crate) struct SoloStore {
    store: Store<BTree>,
    active: Option<u64>,
}

impl Model for SoloStore {
    ghost use Rattle.am_line_alone.specs.Solo.{Solo, solo_code, IsOpen};

    ghost Value = { Solo };

    ghost coded = { solo_code };

    ghost view = { λ s. record { kept = s.store; active = s.active } };

    ghost invariant = { λ s. IsOpen s.store s.active };
}

impl SoloStore {
    pub(crate) fn new(alloc: Global, hash: HashKey) -> Result<SoloStore, NoMemory>
        ensures { IfOk result (λ solo. solo ≡ record { kept = empty_state max_runs; active = None }) }
    {
        let store = Store::open(alloc, BTree::new(alloc)?, hash)?;
        Ok(SoloStore {
            store,
            active: None,
        })
    }
}

impl Backend for SoloStore {
    ghost means = { solo_meaning };

    // Nobody else is there.
    ghost ended = { ⊥ };

    // Nobody is kept out.
    type Held = ();

    fn call<W: Wait>(&mut self, _rt: &W, _held: &mut Option<()>, step: Step) -> Reply {
        let reply = self.store.step(step);
        self.active = active_behind(self.active, &reply);
        reply
    }

    fn seen(&mut self) -> (u64, u64) {
        (0, self.store.commits())
    }

    fn hold<W: Wait + Clock>(&self, _rt: &W, _millis: u64) -> HoldAnswer {
        HoldAnswer::Granted
    }

    fn who<W: Wait + Clock>(
        &self,
        _rt: &W,
        alloc: Global,
        which: WhichSessions,
        _held: &Option<()>,
    ) -> Result<ToldSessions, NoMemory> {
        let mut sessions = Vec::new(alloc);
        if which == WhichSessions::All || self.active.is_some() {
            sessions.push(ToldSession {
                session: 0,
                tx: self.active,
                seconds: 0,
                standing: Standing::Free,
            })?;
        }
        Ok(ToldSessions::new(sessions))
    }

    fn end<W: Wait>(&self, _rt: &W, session: u64, _held: &Option<()>) -> EndAnswer {
        if session == 0 {
            EndAnswer::EndsItself
        } else {
            EndAnswer::NoSession
        }
    }

    fn is_ended(&self) -> bool {
        false
    }

    // Nobody waits for what it holds.
    fn may_lapse(&self) -> bool {
        false
    }

    fn await_turn<W: Wait + Clock>(&self, _rt: &W) {}

    fn await_ticket<W: Wait + Clock>(&self, _rt: &W) {}

    fn is_kept(&self) -> bool {
        false
    }

    fn end_turn<W: Wait>(&self, _rt: &W) {}

    fn end_session<W: Wait>(&self, _rt: &W) {}
}
