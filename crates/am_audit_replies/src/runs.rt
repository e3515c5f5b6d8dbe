//! How many runs an operation made.

ghost use Rattle.std.specs.Prelude.{◌≡◌, ◌+◌, ◌≤◌, ◌<◌, ◌^◌, map, not, true, IfOk, OnOk, IsTrue};
ghost use Rattle.std.specs.FinMap.{contains_key};
ghost use Rattle.std.specs.List.{list_all};
ghost use Rattle.am_record.specs.Plain.{PlainMap, Draft, fresh, has_new, draft_after};
ghost use Rattle.am_record.specs.declared.step.Op.TheVariants.{Back};
ghost use Rattle.am_law_serial.specs.Trace.{runs_made};
ghost use Rattle.am_audit_replies.specs.OwnAnswers.{placed_answer, left_by_all};
ghost use Rattle.am_record.specs.declared.step.Reply.{Reply};
ghost use Rattle.am_audit_replies.specs.Trials.{above, backs, HasTried, is_apart, may_write_in};

use crate::active::OwnAnswer;
use am_record::{Key, Lock, NoMemory, Op, Range, Reply, Value};
use am_record_model::Plain;

/// How many runs the operation made, by what its transaction sees after these operations of its own. The committed map
/// stays as it is.
///
/// # Errors
/// NoMemory, where memory was refused. The map is then no use.
pub fn runs_made(
    committed: &mut Plain,
    own: &[OwnAnswer],
    op: &Op,
    reply: &Reply,
) -> Result<u32, NoMemory>
    requires { committed.old ≡ fresh committed.old.map }
    ensures made { IfOk result (λ n. n ≡ runs_made (left_by_all (map placed_answer own.now) committed.old).map
        op.now reply.now) }
    ensures same { OnOk result (committed.new ≡ committed.old) }
{
    match (op, reply) {
        (Op::Load(_), Reply::Done) => Ok(1),
        (Op::Put(records), Reply::Done) => {
            let is_new = if are_apart(own, op) {
                has_new(committed, records.as_slice())
            } else {
                leave_new(committed, own, records.as_slice())?
            };
            Ok(if is_new { 1 } else { 0 })
        }
        _ => Ok(0),
    }
}

// Whether none of the operations can have written a key that this one reads, which then finds what is committed.
fn are_apart(own: &[OwnAnswer], op: &Op) -> bool
    ensures { IsTrue result → (m : PlainMap) (reply : Reply) →
        runs_made (left_by_all (map placed_answer own.now) (fresh m)).map op.now reply ≡ runs_made m op.now reply }
{
    if !op.is_orderly() {
        return false;
    }
    match op.asked_lock() {
        Some(lock) => are_all_apart(own, &lock.range),
        None => false,
    }
}

fn are_all_apart(own: &[OwnAnswer], range: &Range) -> bool
    ensures { result ≡ list_all (λ kept. is_apart range.now kept.op) own.now }
{
    own.iter().all(|kept| is_apart(&kept.op, range))
}

fn is_apart(op: &Op, range: &Range) -> bool
    ensures { result ≡ is_apart range.now op.now }
{
    op.is_orderly() && !may_write_in(op.asked_lock(), range)
}

fn may_write_in(asked: Option<Lock>, range: &Range) -> bool
    ensures { result ≡ may_write_in range.now asked }
{
    match asked {
        Some(lock) => lock.mode.is_exclusive() && lock.range.meets(range),
        None => false,
    }
}

// Whether a key of the records is new after these operations. They are tried on the map, above a savepoint.
fn leave_new(
    committed: &mut Plain,
    own: &[OwnAnswer],
    records: &[(Key, Value)],
) -> Result<bool, NoMemory>
    requires { committed.old ≡ fresh committed.old.map }
    ensures new { IfOk result (λ is_new. is_new ≡ has_new records.now
        (left_by_all (map placed_answer own.now) committed.old).map) }
    ensures same { OnOk result (committed.new ≡ committed.old) }
{
    committed.answer(&Op::Mark)?;
    let marks = try_all(committed, own)?;
    let is_new = has_new(committed, records);
    go_back(committed, marks)?;
    Ok(is_new)
}

// Applies the operations above a savepoint, and tells how many of their own stand.
fn try_all(committed: &mut Plain, own: &[OwnAnswer]) -> Result<usize, NoMemory>
    ensures { IfOk result (λ marks. (m : PlainMap) → committed.old ≡ above (fresh m) m →
        HasTried committed.new marks (left_by_all (map placed_answer own.now) (fresh m)) m) }
{
    let mut marks = 0;
    for kept in own {
        marks = try_one(committed, marks, &kept.op)?;
    }
    Ok(marks)
}

// Applies an operation above so many savepoints of its transaction. Back goes to none but these.
fn try_one(committed: &mut Plain, marks: usize, op: &Op) -> Result<usize, NoMemory>
    requires { marks + 1 < 2 ^ 63 }
    ensures tried { IfOk result (λ now. (d : Draft) (m : PlainMap) → HasTried committed.old marks d m →
        HasTried committed.new now (draft_after op.now d) m) }
    ensures few { IfOk result (λ now. now ≤ marks + 1) }
{
    if marks == 0 && matches!(op, Op::Back) {
        return Ok(0);
    }
    committed.answer(op)?;
    Ok(match op {
        Op::Mark => marks + 1,
        Op::Back => marks - 1,
        _ => marks,
    })
}

// Goes back before so many savepoints, and before the one below them.
fn go_back(committed: &mut Plain, marks: usize) -> Result<(), NoMemory>
    ensures { OnOk result (committed.new ≡ draft_after Back (backs marks committed.old)) }
{
    for _ in 0..marks {
        committed.answer(&Op::Back)?;
    }
    committed.answer(&Op::Back)?;
    Ok(())
}

fn has_new(m: &Plain, records: &[(Key, Value)]) -> bool
    ensures { result ≡ has_new records.now m.now.map }
{
    records.iter().any(|pair| lacks(m, &pair.0))
}

fn lacks(m: &Plain, key: &Key) -> bool
    ensures { result ≡ not (contains_key m.now.map key.now) }
{
    m.value(key).is_none()
}
