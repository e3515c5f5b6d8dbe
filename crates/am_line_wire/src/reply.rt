//! The texts of replies.

ghost use Rattle.std.specs.Prelude.{◌≡◌, ◌^◌, ◌<◌, ◌≤◌, length, true, OnOk, IfOk};
ghost use Rattle.am_record.specs.declared.step.Reply.{Reply};
ghost use Rattle.am_line_sink.specs.SinkWrites.{Wrote};
ghost use Rattle.am_line_wire.specs.Replies.{refusal_words, row_words, rows_words, head_of, text_of, TellsVisible};
ghost use Rattle.am_line_wire.specs.Replies.{IsOneLine};
ghost use Rattle.am_line_text.specs.ReplyWords.{spaced};

use am_line_sink::{Failed, Sink, StopSink, give_all};
use am_line_text::{ReplyWord, Text, refusal_code};
use am_record::{Key, NoMemory, Refusal, Reply, Value};
use std::alloc::Global;

// A word with a space after it.
fn spaced(word: ReplyWord) -> Text
    ensures words { result ≡ spaced word }
    ensures short { length result ≤ 10 }
{
    Text::new(word.text()).then(b" ")
}

fn refusal_words(refusal: Refusal) -> Text
    ensures words { result ≡ refusal_words refusal }
    ensures short { length result ≤ 127 }
{
    match refusal {
        Refusal::Busy(holder) => spaced(ReplyWord::Busy).then_number(holder),
        Refusal::NoSuchTx
        | Refusal::TooManyTx
        | Refusal::TooManyLocks
        | Refusal::TooManyOps
        | Refusal::TooManyRuns
        | Refusal::NotRising
        | Refusal::BadLimit
        | Refusal::NoMemory
        | Refusal::SeatFull => spaced(ReplyWord::Error).then(refusal_code(refusal)),
    }
}

// The reply before the end of its line; of rows their number alone.
fn head_of(reply: &Reply) -> Text
    ensures words { result ≡ head_of reply.now }
    ensures short { length result ≤ 127 }
{
    match reply {
        Reply::Begun(tx) => spaced(ReplyWord::Begun).then_number(*tx),
        Reply::Done => Text::new(ReplyWord::Done.text()),
        Reply::Found(value) => spaced(ReplyWord::Found).then(value.bytes()),
        Reply::Absent => Text::new(ReplyWord::Absent.text()),
        Reply::Rows(rows) => spaced(ReplyWord::Rows).then_number(rows.as_slice().len() as u64),
        Reply::Exists(key) => spaced(ReplyWord::Exists).then_key(*key),
        Reply::Missing => Text::new(ReplyWord::Missing.text()),
        Reply::Deleted(n) => spaced(ReplyWord::Deleted).then_number(*n),
        Reply::Committed(commit) => spaced(ReplyWord::Committed).then_number(*commit),
        Reply::Aborted => Text::new(ReplyWord::Aborted.text()),
        Reply::Moved(n, run) => spaced(ReplyWord::Moved)
            .then_number(*n)
            .then(b" ")
            .then_number(u64::from(*run)),
        Reply::MergeDone => Text::new(ReplyWord::MergeDone.text()),
        Reply::Ended(key, holder) => spaced(ReplyWord::Ended)
            .then_key(*key)
            .then(b" ")
            .then_number(*holder),
        Reply::Idle => Text::new(ReplyWord::Idle.text()),
        Reply::Cleaned(n) => spaced(ReplyWord::Cleaned).then_number(*n),
        Reply::NoMark => Text::new(ReplyWord::NoMark.text()),
        Reply::Refused(refusal) => refusal_words(*refusal),
    }
}

// One record of rows.
fn row_words(row: &(Key, Value)) -> Text
    ensures { result ≡ row_words row.now }
{
    Text::new(b" ")
        .then_key(row.0)
        .then(b"=")
        .then(row.1.bytes())
}

fn put_rows<K: Sink>(rows: &[(Key, Value)], sink: &mut K) -> Result<(), Failed>
    requires countable { K.failures sink.old < 2 ^ 63 }
    ensures { Wrote K.holds K.failures sink.old (rows_words rows.now) result sink.new }
{
    for row in rows {
        give_all(sink, row_words(row).as_slice())?;
    }
    Ok(())
}

/// Writes the text of a reply, in pieces of at most 128 bytes. It takes no memory of its own. At a failure a beginning
/// of the text went out.
#[inline(never)]
pub fn put_reply<K: Sink>(reply: &Reply, sink: &mut K) -> Result<(), Failed>
    requires countable { K.failures sink.old < 2 ^ 63 }
    ensures wrote { Wrote K.holds K.failures sink.old (text_of reply.now) result sink.new }
    ensures pending { OnOk result (K.pending sink.new ≡ true) }
{
    match reply {
        Reply::Rows(rows) => {
            give_all(sink, head_of(reply).as_slice())?;
            put_rows(rows.as_slice(), sink)?;
            give_all(sink, b"\n")
        }
        _ => give_all(sink, head_of(reply).then(b"\n").as_slice()),
    }
}

/// The text of a reply, the LF that ends its line included.
#[inline(never)]
pub fn reply_text(alloc: Global, reply: &Reply) -> Result<Vec<u8>, NoMemory>
    ensures { IfOk result (λ text. text.items ≡ text_of reply.now) }
{
    let mut text = StopSink::new(alloc, 0);
    match put_reply(reply, &mut text) {
        Ok(()) => Ok(text.into_bytes()),
        Err(Failed) => Err(NoMemory),
    }
}

/// The text of a reply is one line: its only LF is the last byte. Keys and values are to have visible bytes alone, as
/// all those that came on a line have.
pub fn replies_are_lines()
    ensures { (reply : Reply) → TellsVisible reply → IsOneLine (text_of reply) }
{}
