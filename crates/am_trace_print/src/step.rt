//! A step as a line writes it.

ghost use Rattle.std.specs.Prelude.{◌≡◌, ◌++◌, OnOk};
ghost use Rattle.std.specs.List.{join_with_byte};
ghost use Rattle.am_line_text.specs.Locks.{mode_word};
ghost use Rattle.am_trace_text.specs.Lines.{step_words};
ghost use Rattle.am_trace_text.specs.Steps.{IsStep, op_fields, verb_of};

use crate::field::Field;
use crate::print::Page;
use am_line_text::Verb;
use am_record::{Mode, NoMemory, Op, Step};
use am_trace_text::Version;

impl Page {
    fn put_op(&mut self, tx: u64, op: &Op) -> Result<(), NoMemory>
        ensures text { OnOk result (self.new ≡ self.old ++ join_with_byte 32 (op_fields Version.Three tx op.now)) }
        ensures op { OnOk result (IsStep Version.Three (Step.Do tx op.now)) }
    {
        let word = verb_of(op).word();
        let tx = Field::number(tx);
        match op {
            Op::Get(key) | Op::Delete(key) => self.put_fields(word, &[tx, Field::key(*key)]),
            Op::Scan(range, max) | Op::ScanBack(range, max) | Op::DeleteRange(range, max) =>
                self.put_fields(
                    word,
                    &[
                        tx,
                        Field::key(range.lo()),
                        Field::key(range.hi()),
                        Field::number(*max),
                    ],
                ),
            Op::Insert(key, value) | Op::Replace(key, value) | Op::Set(key, value) => {
                self.put_fields(word, &[tx, Field::key(*key), Field::value(*value)])
            }
            Op::Load(pairs) | Op::Put(pairs) => self.put_with_records(
                word,
                &[tx],
                pairs.as_slice(),
            ),
            Op::Lock(lock) => self.put_fields(
                word,
                &[
                    tx,
                    mode_field(lock.mode),
                    Field::key(lock.range.lo()),
                    Field::key(lock.range.hi()),
                ],
            ),
            Op::Mark | Op::Back => self.put_fields(word, &[tx]),
        }
    }

    /// Writes a step.
    pub(crate) fn put_step(&mut self, step: &Step) -> Result<(), NoMemory>
        ensures text { OnOk result (self.new ≡ self.old ++ step_words Version.Three step.now) }
        ensures step { OnOk result (IsStep Version.Three step.now) }
    {
        match step {
            Step::Begin => self.put_fields(Verb::Begin.word(), &[]),
            Step::Do(tx, op) => self.put_op(*tx, op),
            Step::Commit(tx) => self.put_fields(Verb::Commit.word(), &[Field::number(*tx)]),
            Step::Abort(tx) => self.put_fields(Verb::Abort.word(), &[Field::number(*tx)]),
            Step::Merge(limit) => self.put_fields(Verb::Merge.word(), &[Field::number(*limit)]),
            Step::Clean(range, limit) => self.put_fields(
                Verb::Clean.word(),
                &[
                    Field::key(range.lo()),
                    Field::key(range.hi()),
                    Field::number(*limit),
                ],
            ),
        }
    }
}

// The verb of an operation.
fn verb_of(op: &Op) -> Verb
    ensures { result ≡ verb_of op.now }
{
    match op {
        Op::Get(_) => Verb::Get,
        Op::Scan(_, _) => Verb::Scan,
        Op::ScanBack(_, _) => Verb::ScanBack,
        Op::Insert(_, _) => Verb::Insert,
        Op::Replace(_, _) => Verb::Replace,
        Op::Set(_, _) => Verb::Set,
        Op::Delete(_) => Verb::Delete,
        Op::DeleteRange(_, _) => Verb::DeleteRange,
        Op::Load(_) => Verb::Load,
        Op::Put(_) => Verb::Put,
        Op::Lock(_) => Verb::Lock,
        Op::Mark => Verb::Mark,
        Op::Back => Verb::Back,
    }
}

fn mode_field(mode: Mode) -> Field
    ensures { result ≡ mode_word mode }
{
    match mode {
        Mode::Shared => Field::new(b"S"),
        Mode::Exclusive => Field::new(b"X"),
    }
}
