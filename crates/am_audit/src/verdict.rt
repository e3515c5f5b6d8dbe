//! The verdict on an operation's reply.

ghost use Rattle.std.specs.Prelude.{◌≡◌, ℕ, None, false, IfErr, OnOk};
ghost use Rattle.am_record.specs.Asks.{lock_of};
ghost use Rattle.am_record.specs.declared.step.Step.TheVariants.{Do};
ghost use Rattle.am_law_serial.specs.Machine.{State, due_early, is_full};
ghost use Rattle.am_audit_locks.specs.HeldLocks.{IsAnswerTo};
ghost use Rattle.am_audit_replies.specs.Refused.{early_of, refused_of};
ghost use Rattle.am_audit.specs.Progress.{IsRightOf, IsReplyFault};

use am_audit_replies::{EventFault, is_answer, is_busy, is_refused};
use am_record::{Op, Refusal, Reply};
use am_store_locks::Asked;

/// Judges the reply to an operation to which no early refusal is due, by what came of asking for its lock.
///
/// # Errors
/// Busy, then Form. NoMemory, where the lock wanted memory.
pub(crate) fn verdict(asked: Asked, tx: u64, op: &Op, reply: &Reply) -> Result<(), EventFault>
    ghost at: { ℕ × State }
    requires early { due_early (is_full at.0 at.1.runs reply.now) at.1 tx op.now ≡ None }
    requires not_early { early_of reply.now ≡ false }
    requires asked { IsAnswerTo at.1.active tx (lock_of op.now) asked }
    ensures right { OnOk result (IsRightOf at.0 at.1 (Do tx op.now) reply.now) }
    ensures granted { OnOk result (refused_of reply.now ≡ false → asked ≡ Asked.Granted) }
    ensures event_fault { IfErr result (IsReplyFault at.0 at.1 (Do tx op.now) reply.now) }
{
    match asked {
        Asked::NoMemory => Err(EventFault::NoMemory),
        Asked::Busy(holder) => {
            if !is_refused(reply, Refusal::Busy(holder)) {
                return Err(EventFault::Busy);
            }
            Ok(())
        }
        Asked::TooManyLocks => {
            if is_busy(reply) {
                return Err(EventFault::Busy);
            }
            if !is_refused(reply, Refusal::TooManyLocks) {
                return Err(EventFault::Form);
            }
            Ok(())
        }
        Asked::Granted => {
            if is_busy(reply) {
                return Err(EventFault::Busy);
            }
            if !is_refused(reply, Refusal::NoMemory) && !is_answer(op, reply) {
                return Err(EventFault::Form);
            }
            Ok(())
        }
    }
}
