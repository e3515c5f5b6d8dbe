//! A body that commits, applied again.

ghost use Rattle.std.specs.Prelude.{◌≡◌, ◌↔◌, map, IsTrue, IfErr, IfOk, OnOk};
ghost use Rattle.am_record.specs.Plain.{answer, draft_after};
ghost use Rattle.am_audit_replies.specs.OwnAnswers.{placed_answer, AreAnsweredOn, left_by_all, IsReplayFault};

use crate::active::OwnAnswer;
use crate::event_fault::EventFault;
use crate::replies::{is_read, is_same};
use am_record::{NoMemory, Op, Reply};
use am_record_model::Plain;

/// Applies the operations, up to the first whose recorded reply is wrong.
///
/// # Errors
/// Answer with the place of that one. NoMemory, where memory was refused.
pub fn replay(committed: &mut Plain, own: &[OwnAnswer]) -> Result<(), EventFault>
    ensures answers { OnOk result (AreAnsweredOn (map placed_answer own.now) committed.old) }
    ensures left { OnOk result (committed.new ≡ left_by_all (map placed_answer own.now) committed.old) }
    ensures wrong { IfErr result (IsReplayFault (map placed_answer own.now) committed.old) }
{
    for kept in own {
        let is_right = is_answered(committed, &kept.op, &kept.reply)?;
        if !is_right {
            return Err(EventFault::Answer(kept.position));
        }
    }
    Ok(())
}

// Applies the operation, and tells whether the reply is its own. A value that is read is compared where it stands.
fn is_answered(committed: &mut Plain, op: &Op, reply: &Reply) -> Result<bool, NoMemory>
    ensures answer { IfOk result (λ is_same. IsTrue is_same ↔ (answer op.now committed.old ≡ reply.now)) }
    ensures after { OnOk result (committed.new ≡ draft_after op.now committed.old) }
{
    if let Op::Get(key) = op {
        return Ok(is_read(committed.value(key), reply));
    }
    let answer = committed.answer(op)?;
    Ok(is_same(&answer, reply))
}
