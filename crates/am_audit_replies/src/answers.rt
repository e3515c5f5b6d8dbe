//! The answers that an operation may have.

ghost use Rattle.std.specs.Prelude.{◌≡◌, ◌↔◌, IsTrue};
ghost use Rattle.am_record.specs.Plain.{is_key_of};
ghost use Rattle.am_law_serial.specs.Sound.{IsAnswerOf};

use crate::replies::is_same_key;
use am_record::{Key, Op, Reply, Value};

/// Whether the reply is one of the operation's answers.
pub fn is_answer(op: &Op, reply: &Reply) -> bool
    ensures { IsTrue result ↔ IsAnswerOf op.now reply.now }
{
    match op {
        Op::Get(_) => matches!(reply, Reply::Found(_) | Reply::Absent),
        Op::Scan(..) | Op::ScanBack(..) => matches!(reply, Reply::Rows(_)),
        Op::Insert(key, _) => match reply {
            Reply::Exists(named) => is_same_key(*named, *key),
            reply => matches!(reply, Reply::Done),
        },
        Op::Replace(..) | Op::Delete(_) => matches!(reply, Reply::Done | Reply::Missing),
        Op::DeleteRange(_, max) => match reply {
            Reply::Deleted(n) => n <= max,
            _ => false,
        },
        Op::Load(records) => match reply {
            Reply::Exists(named) => has_key(records.as_slice(), *named),
            reply => matches!(reply, Reply::Done),
        },
        Op::Set(..) | Op::Put(_) | Op::Lock(_) | Op::Mark => matches!(reply, Reply::Done),
        Op::Back => matches!(reply, Reply::Done | Reply::NoMark),
    }
}

fn has_key(records: &[(Key, Value)], key: Key) -> bool
    ensures { result ≡ is_key_of records.now key }
{
    records.iter().any(|pair| key == pair.0)
}
