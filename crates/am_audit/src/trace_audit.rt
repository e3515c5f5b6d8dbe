//! Judging a trace.

ghost use Rattle.std.specs.Prelude.{◌≡◌, ℕ, ◌+◌, ◌<◌, ◌^◌, ◌++◌, ◌∷◌, [], length, IfOk, IfErr, OnOk};
ghost use Rattle.std.specs.FinMap.{entries};
ghost use Rattle.am_law_serial.specs.Trace.{Trace, effects, committers, committed};
ghost use Rattle.am_law_serial.specs.Legal.{IsLegal};
ghost use Rattle.am_audit.specs.Faults.{IsTrueFault};
ghost use Rattle.am_audit.specs.Progress.{fault_of, position_told};

use crate::checker::Checker;
use crate::fault::{Fault, FaultKind};
use am_audit_replies::EventFault;
use am_record::{Key, NoMemory, Reply, Step, Value};
use std::alloc::Global;

/// A trace that is judged as it comes, an event at a time. Of its events those alone are kept that belong to active
/// transactions.
pub struct Audit {
    checker: Checker,
    seen: usize,
    fault: Option<Fault>,
}

// By hand: a crate above then need not prove once more how an audit is dropped.
impl Drop for Audit {
    fn drop(self) {
        let Audit {
            checker,
            seen: _,
            fault,
        } = self;
        drop(checker);
        drop(fault);
    }
}

impl Audit {
    ghost use Rattle.am_audit.specs.AuditStates.{HasJudged, CanJudge};

    /// Nothing is judged, of a store that makes so many runs at most.
    ///
    /// # Errors
    /// NoMemory, where memory was refused for what is kept of the events.
    pub fn new(alloc: Global, most_runs: u32) -> Result<Audit, NoMemory>
        ensures { IfOk result (λ audit. HasJudged most_runs audit []) }
    {
        Ok(Audit {
            checker: Checker::new(alloc, most_runs)?,
            seen: 0,
            fault: None,
        })
    }

    /// Judges the event that comes next.
    pub fn judge(&mut self, alloc: Global, step: Step, reply: Reply)
        requires { CanJudge self.old }
        ensures { (most_runs : ℕ) (seen : Trace) → HasJudged most_runs self.old seen →
            HasJudged most_runs self.new (seen ++ (step, reply) ∷ []) }
    {
        am_law_serial::formed_traces_follow();
        if self.fault.is_none() {
            if let Err(event_fault) = self.checker.judge(alloc, self.seen, step, reply) {
                self.fault = Some(fault_of(self.seen, event_fault));
            }
        }
        self.seen += 1;
    }

    // Judges copies of these events, the first ones.
    fn judge_all(&mut self, alloc: Global, trace: &[(Step, Reply)]) -> Result<(), NoMemory>
        ghost most_runs: { ℕ }
        requires { HasJudged most_runs self.old [] }
        ensures { OnOk result (HasJudged most_runs self.new trace.now) }
    {
        for (step, reply) in trace {
            let step = step.copy(alloc)?;
            let reply = reply.copy(alloc)?;
            self.judge(alloc, step, reply);
        }
        Ok(())
    }

    /// What is to be said of the events that were judged: how many transactions they commit.
    ///
    /// # Errors
    /// Wrong, exactly where the trace isn't formed, right in its Busy answers and serial: the first fault
    /// and its line. NoMemory in place of any answer, where memory was refused.
    pub fn verdict(&self) -> Result<u64, Fault>
        ensures legal { IfOk result (λ commits. (most_runs : ℕ) (seen : Trace) →
            HasJudged most_runs self.now seen →
            IsLegal most_runs seen × (commits ≡ length (committers (effects seen)))) }
        ensures wrong { IfErr result (λ fault. (most_runs : ℕ) (seen : Trace) →
            HasJudged most_runs self.now seen → IsTrueFault most_runs seen fault) }
    {
        am_law_serial::formed_traces_follow();
        match self.fault {
            Some(fault) => Err(fault),
            None => Ok(self.checker.commits),
        }
    }

    /// The records that the committed transactions leave, by rising key, where the events that were judged have no
    /// fault.
    ///
    /// # Errors
    /// What `verdict` says of the events. NoMemory in place of any answer, where memory was refused.
    pub fn records(&self, alloc: Global) -> Result<Vec<(Key, Value)>, Fault>
        ensures legal { IfOk result (λ rows. (most_runs : ℕ) (seen : Trace) →
            HasJudged most_runs self.now seen →
            IsLegal most_runs seen × (rows.items ≡ entries (committed (effects seen)))) }
        ensures wrong { IfErr result (λ fault. (most_runs : ℕ) (seen : Trace) →
            HasJudged most_runs self.now seen → IsTrueFault most_runs seen fault) }
    {
        am_law_serial::formed_traces_follow();
        if let Some(fault) = self.fault {
            return Err(fault);
        }
        match self.checker.committed.records(alloc) {
            Ok(rows) => Ok(rows),
            Err(NoMemory) => Err(Fault::NoMemory),
        }
    }
}

/// Judges a trace of a store that makes so many runs at most, and answers how many transactions it commits.
///
/// # Errors
/// Wrong, exactly where the trace isn't formed, right in its Busy answers and serial: the first fault
/// and its line. NoMemory in place of any answer, where memory was refused.
#[inline(never)]
pub fn check(alloc: Global, most_runs: u32, trace: &[(Step, Reply)]) -> Result<u64, Fault>
    ensures legal { IfOk result (λ commits. IsLegal most_runs trace.now ×
        (commits ≡ length (committers (effects trace.now)))) }
    ensures wrong { IfErr result (IsTrueFault most_runs trace.now) }
{
    let Ok(mut audit) = Audit::new(alloc, most_runs) else {
        return Err(Fault::NoMemory);
    };
    let Ok(()) = audit.judge_all(alloc, trace) else {
        return Err(Fault::NoMemory);
    };
    audit.verdict()
}

// The fault by what is wrong with the event at that place. Lines count from 1, the header's included.
fn fault_of(position: usize, event_fault: EventFault) -> Fault
    requires { position_told position event_fault + 2 < 2 ^ 64 }
    ensures { result ≡ fault_of position event_fault }
{
    match event_fault {
        EventFault::Form => Fault::Wrong(position as u64 + 2, FaultKind::Form),
        EventFault::Busy => Fault::Wrong(position as u64 + 2, FaultKind::Busy),
        EventFault::Answer(position) => Fault::Wrong(position as u64 + 2, FaultKind::Answer),
        EventFault::NoMemory => Fault::NoMemory,
    }
}
