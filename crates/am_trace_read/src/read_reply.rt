//! Replies as they are read.

ghost use Rattle.std.specs.Prelude.{◌≡◌, option_map};
ghost use Rattle.am_trace_text.specs.FieldReadings.{nothing_in, small_reply_in, reply_of, reply_in, IsReadAs};

use crate::shape::{
    next, of_three, read_counted_records, read_key, read_key_and_number, read_nothing, read_number,
    read_number_and_run, read_refusal, read_savepoint, read_value,
};
use crate::word::word_for;
use am_line_text::{Fields, ReplyWord};
use am_record::{Refusal, Reply};
use am_trace_text::{ReadFault, Version};
use std::alloc::Global;

/// A reply, by all its fields.
pub(crate) fn read_reply(
    alloc: Global,
    version: Version,
    mut fields: Fields<'_>,
) -> Result<Reply, ReadFault>
    ensures { IsReadAs (reply_in version fields.entry) result }
{
    let text = next(&mut fields).ok_or(ReadFault::Bad)?;
    let word = word_for(text).ok_or(ReadFault::Bad)?;
    read_reply_of(alloc, version, word, fields)
}

fn read_reply_of(
    alloc: Global,
    version: Version,
    word: ReplyWord,
    fields: Fields<'_>,
) -> Result<Reply, ReadFault>
    ensures { IsReadAs (reply_of version word fields.entry) result }
{
    match word {
        ReplyWord::Rows => Ok(Reply::Rows(read_counted_records(alloc, version, fields)?)),
        _ => read_small_reply(version, word, fields).ok_or(ReadFault::Bad),
    }
}

// A reply that takes no memory.
fn read_small_reply(version: Version, word: ReplyWord, fields: Fields<'_>) -> Option<Reply>
    ensures { result ≡ small_reply_in version word fields.entry }
{
    match word {
        ReplyWord::Begun => Some(Reply::Begun(read_number(fields)?)),
        ReplyWord::Found => Some(Reply::Found(read_value(fields)?)),
        ReplyWord::Exists => Some(Reply::Exists(read_key(version, fields)?)),
        ReplyWord::Committed => Some(Reply::Committed(read_number(fields)?)),
        ReplyWord::Moved => {
            let (n, run) = read_number_and_run(fields)?;
            Some(Reply::Moved(n, run))
        }
        ReplyWord::Ended => {
            let (key, holder) = read_key_and_number(version, fields)?;
            Some(Reply::Ended(key, holder))
        }
        ReplyWord::Deleted => Some(Reply::Deleted(of_three(version, read_number(fields))?)),
        ReplyWord::Cleaned => Some(Reply::Cleaned(read_number(fields)?)),
        ReplyWord::Busy => Some(Reply::Refused(Refusal::Busy(read_number(fields)?))),
        ReplyWord::Error => Some(Reply::Refused(read_refusal(fields)?)),
        ReplyWord::NoMark => {
            read_savepoint(version, fields)?;
            Some(Reply::NoMark)
        }
        ReplyWord::Done => bare(fields, Reply::Done),
        ReplyWord::Absent => bare(fields, Reply::Absent),
        ReplyWord::Missing => bare(fields, Reply::Missing),
        ReplyWord::Aborted => bare(fields, Reply::Aborted),
        ReplyWord::MergeDone => bare(fields, Reply::MergeDone),
        ReplyWord::Idle => bare(fields, Reply::Idle),
        ReplyWord::Rows => None,
    }
}

// The reply, where nothing stands after its word.
fn bare(fields: Fields<'_>, reply: Reply) -> Option<Reply>
    ensures { result ≡ option_map (λ _. reply) (nothing_in fields.entry) }
{
    read_nothing(fields)?;
    Some(reply)
}
