//! Replies compared, and refusals among them.

ghost use Rattle.std.specs.Prelude.{◌≡◌, ◌↔◌, IsTrue, option_copied};
ghost use Rattle.am_record.specs.Plain.{found};
ghost use Rattle.am_record.specs.declared.step.Reply.TheVariants.{Refused};
ghost use Rattle.am_audit_replies.specs.Refused.{busy_of, refused_of};

use am_record::{Key, Records, Refusal, Reply, Value};

/// Whether the replies are the same.
pub(crate) fn is_same(a: &Reply, b: &Reply) -> bool
    ensures { IsTrue result ↔ (a.now ≡ b.now) }
{
    match (a, b) {
        (Reply::Begun(a), Reply::Begun(b)) => a == b,
        (Reply::Done, Reply::Done) => true,
        (Reply::Found(a), Reply::Found(b)) => is_same_value(a, b),
        (Reply::Absent, Reply::Absent) => true,
        (Reply::Rows(a), Reply::Rows(b)) => are_same_rows(a, b),
        (Reply::Exists(a), Reply::Exists(b)) => is_same_key(*a, *b),
        (Reply::Missing, Reply::Missing) => true,
        (Reply::Deleted(a), Reply::Deleted(b)) => a == b,
        (Reply::Committed(a), Reply::Committed(b)) => a == b,
        (Reply::Aborted, Reply::Aborted) => true,
        (Reply::Moved(n, run), Reply::Moved(m, other)) => n == m && run == other,
        (Reply::MergeDone, Reply::MergeDone) => true,
        (Reply::Ended(a, t), Reply::Ended(b, u)) => is_same_key(*a, *b) && t == u,
        (Reply::Idle, Reply::Idle) => true,
        (Reply::Cleaned(a), Reply::Cleaned(b)) => a == b,
        (Reply::NoMark, Reply::NoMark) => true,
        (Reply::Refused(a), Reply::Refused(b)) => is_same_refusal(*a, *b),
        _ => false,
    }
}

/// Whether the reply is that of a Get which reads this.
pub(crate) fn is_read(value: Option<&Value>, reply: &Reply) -> bool
    ensures { IsTrue result ↔ (found (option_copied value.entry) ≡ reply.now) }
{
    match (value, reply) {
        (Some(value), Reply::Found(found)) => is_same_value(value, found),
        (None, Reply::Absent) => true,
        _ => false,
    }
}

pub(crate) fn is_same_key(a: Key, b: Key) -> bool
    ensures { IsTrue result ↔ (a ≡ b) }
{
    a == b
}

fn is_same_value(a: &Value, b: &Value) -> bool
    ensures { IsTrue result ↔ (a.now ≡ b.now) }
{
    a.bytes() == b.bytes()
}

fn are_same_rows(a: &Records, b: &Records) -> bool
    ensures { IsTrue result ↔ (a.now ≡ b.now) }
{
    a == b
}

fn is_same_refusal(a: Refusal, b: Refusal) -> bool
    ensures { IsTrue result ↔ (a ≡ b) }
{
    a == b
}

/// Whether the reply is that refusal.
pub fn is_refused(reply: &Reply, why: Refusal) -> bool
    ensures { IsTrue result ↔ (reply.now ≡ Refused why) }
{
    match reply {
        Reply::Refused(refusal) => is_same_refusal(*refusal, why),
        _ => false,
    }
}

/// Whether the reply is Busy, whoever holds the lock.
pub fn is_busy(reply: &Reply) -> bool
    ensures { result ≡ busy_of reply.now }
{
    matches!(reply, Reply::Refused(Refusal::Busy(_)))
}

/// Whether the reply is a refusal.
pub fn is_refusal(reply: &Reply) -> bool
    ensures { result ≡ refused_of reply.now }
{
    matches!(reply, Reply::Refused(_))
}
