//! The audit of a trace, event by event.

ghost use Rattle.std.specs.Prelude.{◌≡◌, ◌==◌, ℕ, not, map, filter, [], None, Some, true, false, IfErr, IfOk, OnOk};
ghost use Rattle.am_record.specs.ByNumber.{RiseBy};
ghost use Rattle.am_record.specs.declared.step.Step.TheVariants.{Begin, Do, Commit, Abort, Merge, Clean};
ghost use Rattle.am_store_locks.specs.Table.{is_owner, without_owner};
ghost use Rattle.am_law_serial.specs.Machine.{due_early, is_full};
ghost use Rattle.am_audit_replies.specs.OwnAnswers.{listed, place_in};

use crate::verdict::verdict;
use am_audit_locks::HeldLocks;
use am_audit_replies::{
    Active, EventFault, OwnAnswer, forget, is_early, is_full, is_refusal, is_refused, keep_answer,
    may_abort, may_begin, may_clean, may_commit, may_merge, operation_count, own_answers, place_of,
    refusal, replay, runs_made,
};
use am_record::{NoMemory, Op, Range, Reply, Step};
use am_record_model::Plain;
use std::alloc::Global;

/// What the lines seen so far make.
#[derive(Drop)]
pub(crate) struct Checker {
    pub(crate) begun: u64,
    pub(crate) commits: u64,
    pub(crate) runs: u32,
    /// How many runs the store may have made in all.
    pub(crate) most_runs: u32,
    pub(crate) active: Vec<Active>,
    pub(crate) locks: HeldLocks,
    /// The map that the committed transactions leave.
    pub(crate) committed: Plain,
}

impl Checker {
    ghost use Rattle.am_audit_replies.specs.Refused.{early_of};
    ghost use Rattle.am_audit.specs.Progress.{Progress, progress_of, HasChecked, TakesEvent, IsEventFault};

    /// No line is seen.
    ///
    /// # Errors
    /// NoMemory, where memory was refused for the locks.
    pub(crate) fn new(alloc: Global, most_runs: u32) -> Result<Checker, NoMemory>
        ensures stands { IfOk result (λ checker. HasChecked checker (progress_of [])) }
        ensures most { IfOk result (λ checker. checker.most_runs ≡ most_runs) }
    {
        Ok(Checker {
            begun: 0,
            commits: 0,
            runs: 0,
            most_runs,
            active: Vec::new(alloc),
            locks: HeldLocks::new(alloc)?,
            committed: Plain::new(alloc),
        })
    }

    /// Judges the event that comes next in the trace, and takes it in.
    ///
    /// # Errors
    /// What is wrong with the event, after which the audit is no use.
    pub(crate) fn judge(
        &mut self,
        alloc: Global,
        position: usize,
        step: Step,
        reply: Reply,
    ) -> Result<(), EventFault>
        ghost here: { Progress }
        requires stands { HasChecked self.old here }
        requires position { position ≡ here.count }
        ensures takes { OnOk result (TakesEvent self.old.most_runs here step reply self.new) }
        ensures event_fault { IfErr result (IsEventFault self.old.most_runs here step reply) }
        ensures most { self.new.most_runs ≡ self.old.most_runs }
    {
        match step {
            Step::Begin => self.begin(alloc, &reply),
            Step::Do(tx, op) => self.operate(position, tx, op, reply),
            Step::Commit(tx) => self.commit(tx, &reply),
            Step::Abort(tx) => self.abort(tx, &reply),
            Step::Merge(limit) => self.merge(limit, &reply),
            Step::Clean(range, limit) => self.clean(range, limit, &reply),
        }
    }

    fn begin(&mut self, alloc: Global, reply: &Reply) -> Result<(), EventFault>
        ghost here: { Progress }
        requires { HasChecked self.old here }
        ensures takes { OnOk result (TakesEvent self.old.most_runs here Begin reply.now self.new) }
        ensures event_fault { IfErr result (IsEventFault self.old.most_runs here Begin reply.now) }
        ensures most { self.new.most_runs ≡ self.old.most_runs }
    {
        if !may_begin(self.begun, self.active.len(), reply) {
            return Err(EventFault::Form);
        }
        if let Reply::Begun(tx) = reply {
            let active = Active::new(alloc, *tx)?;
            self.active.push(active)?;
            self.locks.enter(*tx)?;
            self.begun = *tx;
        }
        Ok(())
    }

    fn abort(&mut self, tx: u64, reply: &Reply) -> Result<(), EventFault>
        ghost here: { Progress }
        requires { HasChecked self.old here }
        ensures takes { OnOk result (TakesEvent self.old.most_runs here (Abort tx) reply.now self.new) }
        ensures event_fault { IfErr result (IsEventFault self.old.most_runs here (Abort tx) reply.now) }
        ensures most { self.new.most_runs ≡ self.old.most_runs }
    {
        let place = place_of(&self.active, tx);
        if !may_abort(place.is_some(), tx, reply) {
            return Err(EventFault::Form);
        }
        if let Some(place) = place {
            end(&mut self.active, &mut self.locks, tx, place);
        }
        Ok(())
    }

    fn commit(&mut self, tx: u64, reply: &Reply) -> Result<(), EventFault>
        ghost here: { Progress }
        requires { HasChecked self.old here }
        ensures takes { OnOk result (TakesEvent self.old.most_runs here (Commit tx) reply.now self.new) }
        ensures event_fault { IfErr result (IsEventFault self.old.most_runs here (Commit tx) reply.now) }
        ensures most { self.new.most_runs ≡ self.old.most_runs }
    {
        let place = place_of(&self.active, tx);
        if !may_commit(place.is_some(), self.commits, tx, reply) {
            return Err(EventFault::Form);
        }
        let Reply::Committed(commit) = reply else {
            return Ok(());
        };
        let Some(place) = place else { unreachable!() };
        let own = own_answers(&self.active, place);
        if let Err(event_fault) = replay(&mut self.committed, own) {
            return Err(event_fault);
        }
        self.committed.forget_saved();
        end(&mut self.active, &mut self.locks, tx, place);
        self.commits = *commit;
        Ok(())
    }

    fn operate(&mut self, position: usize, tx: u64, op: Op, reply: Reply) -> Result<(), EventFault>
        ghost here: { Progress }
        requires stands { HasChecked self.old here }
        requires position { position ≡ here.count }
        ensures takes { OnOk result (TakesEvent self.old.most_runs here (Do tx op) reply self.new) }
        ensures event_fault { IfErr result (IsEventFault self.old.most_runs here (Do tx op) reply) }
        ensures most { self.new.most_runs ≡ self.old.most_runs }
    {
        let full = is_full(self.most_runs, self.runs, &reply);
        let place = place_of(&self.active, tx);
        if let Some(why) = refusal(operation_count(&self.active, place), full, tx, &op) {
            if !is_refused(&reply, why) {
                return Err(EventFault::Form);
            }
            return Ok(());
        }
        if is_early(&reply) {
            return Err(EventFault::Form);
        }
        let Some(place) = place else { unreachable!() };
        self.perform(position, tx, place, op, reply)
    }

    // The operation is one to which no early refusal is due.
    fn perform(
        &mut self,
        position: usize,
        tx: u64,
        place: usize,
        op: Op,
        reply: Reply,
    ) -> Result<(), EventFault>
        ghost at: { ℕ × Progress }
        requires stands { HasChecked self.old at.1 }
        requires position { position ≡ at.1.count }
        requires early { due_early (is_full at.0 at.1.state.runs reply) at.1.state tx op ≡ None }
        requires not_early { early_of reply ≡ false }
        requires most { self.old.most_runs ≡ at.0 }
        requires place { place_in self.old.active.items tx ≡ Some place }
        ensures takes { OnOk result (TakesEvent at.0 at.1 (Do tx op) reply self.new) }
        ensures event_fault { IfErr result (IsEventFault at.0 at.1 (Do tx op) reply) }
        ensures most { self.new.most_runs ≡ self.old.most_runs }
    {
        if is_refusal(&reply) {
            let asked = self.locks.look(tx, op.asked_lock());
            return verdict(asked, tx, &op, &reply);
        }
        let asked = self.locks.ask(tx, &op);
        if let Err(event_fault) = verdict(asked, tx, &op, &reply) {
            return Err(event_fault);
        }
        let own = own_answers(&self.active, place);
        let made = runs_made(&mut self.committed, own, &op, &reply)?;
        keep_answer(
            &mut self.active,
            place,
            OwnAnswer {
                position,
                op,
                reply,
            },
        )?;
        self.runs += made;
        Ok(())
    }

    fn merge(&mut self, limit: u64, reply: &Reply) -> Result<(), EventFault>
        ghost here: { Progress }
        requires { HasChecked self.old here }
        ensures takes { OnOk result (TakesEvent self.old.most_runs here (Merge limit) reply.now self.new) }
        ensures event_fault { IfErr result (IsEventFault self.old.most_runs here (Merge limit) reply.now) }
        ensures most { self.new.most_runs ≡ self.old.most_runs }
    {
        if !may_merge(self.runs, limit, reply) {
            return Err(EventFault::Form);
        }
        Ok(())
    }

    fn clean(&mut self, range: Range, limit: u64, reply: &Reply) -> Result<(), EventFault>
        ghost here: { Progress }
        requires { HasChecked self.old here }
        ensures takes { OnOk result (TakesEvent self.old.most_runs here (Clean range limit) reply.now self.new) }
        ensures event_fault { IfErr result (IsEventFault self.old.most_runs here (Clean range limit) reply.now) }
        ensures most { self.new.most_runs ≡ self.old.most_runs }
    {
        if !may_clean(range, limit, reply) {
            return Err(EventFault::Form);
        }
        Ok(())
    }
}

// Ends the transaction, which stands there: it is not active any more, and its locks are gone.
fn end(all: &mut Vec<Active>, locks: &mut HeldLocks, tx: u64, place: usize)
    requires owner { is_owner locks.old tx ≡ true }
    requires place { place_in all.old.items tx ≡ Some place }
    requires rising { RiseBy (λ x. x.0) (map listed all.old.items) }
    ensures active { map listed all.new.items ≡ filter (λ x. not (x.0 == tx)) (map listed all.old.items) }
    ensures locks { locks.new ≡ without_owner locks.old tx }
{
    locks.release(tx);
    forget(all, place);
}
