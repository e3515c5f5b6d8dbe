//! Lines as they are written.

ghost use Rattle.std.specs.Prelude.{◌≡◌, ◌≢◌, ◌++◌, [], ◌∷◌, map, OnOk};
ghost use Rattle.std.specs.List.{join_with_byte, flat_map};
ghost use Rattle.am_record.specs.declared.step.Refusal.TheVariants.{SeatFull as FullSeat};
ghost use Rattle.am_trace_text.specs.Bounds.{AreRecords};
ghost use Rattle.am_trace_text.specs.Words.{record_word};
ghost use Rattle.am_trace_text.specs.Replies.{IsRefusal, IsReply, refusal_fields};
ghost use Rattle.am_trace_text.specs.Lines.{reply_words, event_words, with_lf, IsEvent};

use crate::field::Field;
use am_line_text::{ReplyWord, refusal_code};
use am_record::{Key, NoMemory, Refusal, Reply, Step, Value};
use am_trace_text::Version;
use std::alloc::Global;
use std::marker::Model;

/// A text that is being written.
#[derive(Drop)]
pub(crate) struct Page {
    bytes: Vec<u8>,
}

impl Model for Page {
    ghost use Rattle.std.specs.Prelude.{ℕ, List};

    ghost Value = { List ℕ };

    ghost view = { λ p. p.bytes.items };
}

impl Page {
    /// A text with nothing in it.
    pub(crate) fn new(alloc: Global) -> Page
        ensures { result ≡ [] }
    {
        Page {
            bytes: Vec::new(alloc),
        }
    }

    /// Its bytes. Takes no memory.
    pub(crate) fn into_bytes(self) -> Vec<u8>
        ensures { result.items ≡ self }
    {
        self.bytes
    }

    /// Writes bytes.
    pub(crate) fn put(&mut self, bytes: &[u8]) -> Result<(), NoMemory>
        ensures { OnOk result (self.new ≡ self.old ++ bytes.now) }
    {
        self.bytes.extend_from_slice(bytes)?;
        Ok(())
    }

    // Writes fields, each after a space.
    fn put_further(&mut self, fields: &[Field]) -> Result<(), NoMemory>
        ensures { OnOk result (self.new ≡ self.old ++ flat_map (λ f. 32 ∷ f) fields.now) }
    {
        for field in fields {
            self.put(b" ")?;
            self.put(field.as_slice())?;
        }
        Ok(())
    }

    // Writes records, each after a space.
    fn put_records(&mut self, records: &[(Key, Value)]) -> Result<(), NoMemory>
        ensures text { OnOk result (self.new ≡
            self.old ++ flat_map (λ r. 32 ∷ record_word Version.Three r) records.now) }
        ensures records { OnOk result (AreRecords Version.Three records.now) }
    {
        for pair in records {
            self.put(b" ")?;
            self.put(Field::record(pair).as_slice())?;
        }
        Ok(())
    }

    /// Writes fields that a space parts, the first of them this word.
    pub(crate) fn put_fields(&mut self, word: &[u8], fields: &[Field]) -> Result<(), NoMemory>
        ensures { OnOk result (self.new ≡ self.old ++ join_with_byte 32 (word.now ∷ fields.now)) }
    {
        self.put(word)?;
        self.put_further(fields)
    }

    /// The same, with records after them.
    pub(crate) fn put_with_records(
        &mut self,
        word: &[u8],
        fields: &[Field],
        records: &[(Key, Value)],
    ) -> Result<(), NoMemory>
        ensures text { OnOk result (self.new ≡ self.old ++
            join_with_byte 32 (word.now ∷ (fields.now ++ map (record_word Version.Three) records.now))) }
        ensures records { OnOk result (AreRecords Version.Three records.now) }
    {
        self.put_fields(word, fields)?;
        self.put_records(records)
    }

    fn put_refusal(&mut self, refusal: Refusal) -> Result<(), NoMemory>
        ensures text { OnOk result (self.new ≡ self.old ++ join_with_byte 32 (refusal_fields refusal)) }
        ensures refusal { OnOk result (refusal ≢ FullSeat → IsRefusal refusal) }
    {
        match refusal {
            Refusal::Busy(holder) => {
                self.put_fields(ReplyWord::Busy.text(), &[Field::number(holder)])
            }
            Refusal::NoSuchTx
            | Refusal::TooManyTx
            | Refusal::TooManyLocks
            | Refusal::TooManyOps
            | Refusal::TooManyRuns
            | Refusal::NotRising
            | Refusal::BadLimit
            | Refusal::NoMemory
            | Refusal::SeatFull => {
                let code = Field::new(refusal_code(refusal));
                self.put_fields(ReplyWord::Error.text(), &[code])
            }
        }
    }

    /// Writes a reply.
    pub(crate) fn put_reply(&mut self, reply: &Reply) -> Result<(), NoMemory>
        ensures text { OnOk result (self.new ≡ self.old ++ reply_words Version.Three reply.now) }
        ensures reply { OnOk result (reply.now ≢ Reply.Refused FullSeat → IsReply Version.Three reply.now) }
    {
        match reply {
            Reply::Begun(tx) => self.put_fields(ReplyWord::Begun.text(), &[Field::number(*tx)]),
            Reply::Done => self.put(ReplyWord::Done.text()),
            Reply::Found(value) => self.put_fields(
                ReplyWord::Found.text(),
                &[Field::value(*value)],
            ),
            Reply::Absent => self.put(ReplyWord::Absent.text()),
            Reply::Rows(rows) => {
                let rows = rows.as_slice();
                let count = Field::number(rows.len() as u64);
                self.put_with_records(ReplyWord::Rows.text(), &[count], rows)
            }
            Reply::Exists(key) => self.put_fields(ReplyWord::Exists.text(), &[Field::key(*key)]),
            Reply::Missing => self.put(ReplyWord::Missing.text()),
            Reply::Deleted(n) => self.put_fields(ReplyWord::Deleted.text(), &[Field::number(*n)]),
            Reply::Committed(commit) => {
                self.put_fields(ReplyWord::Committed.text(), &[Field::number(*commit)])
            }
            Reply::Aborted => self.put(ReplyWord::Aborted.text()),
            Reply::Moved(n, run) => self.put_fields(
                ReplyWord::Moved.text(),
                &[Field::number(*n), Field::number(u64::from(*run))],
            ),
            Reply::MergeDone => self.put(ReplyWord::MergeDone.text()),
            Reply::Ended(key, holder) => self.put_fields(
                ReplyWord::Ended.text(),
                &[Field::key(*key), Field::number(*holder)],
            ),
            Reply::Idle => self.put(ReplyWord::Idle.text()),
            Reply::Cleaned(n) => self.put_fields(ReplyWord::Cleaned.text(), &[Field::number(*n)]),
            Reply::NoMark => self.put(ReplyWord::NoMark.text()),
            Reply::Refused(refusal) => self.put_refusal(*refusal),
        }
    }

    /// Writes a line: a step with its reply.
    pub(crate) fn put_event(&mut self, step: &Step, reply: &Reply) -> Result<(), NoMemory>
        ensures text { OnOk result (self.new ≡ self.old ++ with_lf (event_words Version.Three (step.now, reply.now))) }
        ensures event { OnOk result (reply.now ≢ Reply.Refused FullSeat → IsEvent Version.Three (step.now, reply.now)) }
    {
        self.put_step(step)?;
        self.put(b" | ")?;
        self.put_reply(reply)?;
        self.put(b"\n")
    }
}
