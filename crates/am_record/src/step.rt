//! Operations, steps and replies; and what an operation is by itself: its form, the refusals that come before its lock,
//! and the lock that it asks for.

ghost use Rattle.std.specs.Prelude.{◌≡◌, true, IfOk, OnErr};
ghost use Rattle.am_record.specs.Asks.{lock_of, span};
ghost use Rattle.am_record.specs.Copies.{has_pairs, step_has_pairs, has_rows};
ghost use Rattle.am_record.specs.Plain.{is_orderly, is_rising};
ghost use Rattle.am_record.specs.Refusals.{is_bounded, is_limit, may_make_run, refusal_before_lock};

use crate::key::Key;
use crate::limits::{MAX_LIMIT, MAX_OPS, MAX_ROWS};
use crate::lock::Lock;
use crate::memory::NoMemory;
use crate::range::Range;
use crate::records::{Records, is_rising};
use crate::value::Value;
use std::alloc::Global;

/// What a transaction asks for.
#[derive(PartialEq, Eq, Drop)]
pub enum Op {
    /// The value under the key: [`Reply::Found`] or [`Reply::Absent`].
    Get(Key),
    /// The first records of the range by key, at most so many: [`Reply::Rows`].
    Scan(Range, u64),
    /// The last records of the range, from the highest key down, at most so many: [`Reply::Rows`].
    ScanBack(Range, u64),
    /// A new record: [`Reply::Done`], or [`Reply::Exists`] where the key has one.
    Insert(Key, Value),
    /// Another value for a record: [`Reply::Done`], or [`Reply::Missing`] where there is none.
    Replace(Key, Value),
    /// A record with this value, whether or not the key has one: [`Reply::Done`].
    Set(Key, Value),
    /// A record goes: [`Reply::Done`], or [`Reply::Missing`] where there is none.
    Delete(Key),
    /// The first records of the range go, at most so many: [`Reply::Deleted`].
    DeleteRange(Range, u64),
    /// New records, all of them or none: [`Reply::Done`], or [`Reply::Exists`] with the least key that has one.
    Load(Records),
    /// Records with these values, whether or not their keys have one: [`Reply::Done`]. Those that are new are one run.
    Put(Records),
    /// The lock alone: [`Reply::Done`].
    Lock(Lock),
    /// A savepoint: [`Reply::Done`].
    Mark,
    /// Back to the newest savepoint, which goes: [`Reply::Done`], or [`Reply::NoMark`] where none stands.
    Back,
}

/// What the store is asked to do. A transaction is named by its number.
#[derive(PartialEq, Eq, Drop)]
pub enum Step {
    Begin,
    Do(u64, Op),
    Commit(u64),
    Abort(u64),
    /// Records of the oldest range asked for go to the final partition, at most so many.
    Merge(u64),
    /// Ghosts of the range go, at most so many.
    Clean(Range, u64),
}

/// What the store replies.
#[derive(Debug, PartialEq, Eq, Drop)]
pub enum Reply {
    /// The number of the transaction that was begun: they rise by one from 1.
    Begun(u64),
    Done,
    Found(Value),
    Absent,
    Rows(Records),
    Exists(Key),
    Missing,
    /// So many records went.
    Deleted(u64),
    /// The number of the commit: they rise by one from 1.
    Committed(u64),
    Aborted,
    /// So many entries of this run were worked off.
    Moved(u64, u32),
    /// Nothing is left to merge for the oldest range asked for, which is forgotten.
    MergeDone,
    /// The key that is next is exclusively locked by this transaction: the range asked for is forgotten.
    Ended(Key, u64),
    /// No range is waiting to be merged.
    Idle,
    /// So many ghosts are gone.
    Cleaned(u64),
    /// No savepoint stands.
    NoMark,
    Refused(Refusal),
}

/// Why a step was refused. A refused step changed nothing.
#[derive(Clone, Copy, Debug, PartialEq, Eq)]
pub enum Refusal {
    /// The named transaction isn't active.
    NoSuchTx,
    /// The lock conflicts with one that this transaction holds, the least of those that hold one.
    Busy(u64),
    /// 64 transactions are active, or 2^63 were begun.
    TooManyTx,
    /// The transaction holds 256 locks, and this one would be added.
    TooManyLocks,
    /// 4,096 operations of the transaction were answered.
    TooManyOps,
    /// As many runs were made as may be, or 65,535 have entries.
    TooManyRuns,
    /// The records of a load or a put don't rise strictly by key, or there are none.
    NotRising,
    /// A limit is out of its range.
    BadLimit,
    /// Memory was refused.
    NoMemory,
    /// The seat holds as many receipts as it may.
    SeatFull,
}

impl Op {
    /// The same operation. Only the records of a load or a put take memory.
    pub fn copy(&self, alloc: Global) -> Result<Op, NoMemory>
        ensures same { IfOk result (λ op. op ≡ self.now) }
        ensures memory { OnErr result (has_pairs self.now ≡ true) }
    {
        Ok(match self {
            Op::Get(key) => Op::Get(*key),
            Op::Scan(range, max) => Op::Scan(*range, *max),
            Op::ScanBack(range, max) => Op::ScanBack(*range, *max),
            Op::Insert(key, value) => Op::Insert(*key, *value),
            Op::Replace(key, value) => Op::Replace(*key, *value),
            Op::Set(key, value) => Op::Set(*key, *value),
            Op::Delete(key) => Op::Delete(*key),
            Op::DeleteRange(range, max) => Op::DeleteRange(*range, *max),
            Op::Load(records) => Op::Load(records.copy(alloc)?),
            Op::Put(records) => Op::Put(records.copy(alloc)?),
            Op::Lock(lock) => Op::Lock(*lock),
            Op::Mark => Op::Mark,
            Op::Back => Op::Back,
        })
    }

    /// Whether the records of a load or a put rise strictly, and there is one. Any other operation is in order.
    pub fn is_orderly(&self) -> bool
        ensures { result ≡ is_orderly self.now }
    {
        match self {
            Op::Load(records) | Op::Put(records) => is_rising(records.as_slice()),
            _ => true,
        }
    }

    /// Whether a number of rows or of records to delete is from 1 to 1,000.
    pub fn is_bounded(&self) -> bool
        ensures { result ≡ is_bounded self.now }
    {
        match self {
            Op::Scan(_, max) | Op::ScanBack(_, max) | Op::DeleteRange(_, max) => {
                1 <= *max && *max <= MAX_ROWS
            }
            _ => true,
        }
    }

    /// Whether the operation makes a run on some map: a load does, and a put of a key that is new.
    pub fn may_make_run(&self) -> bool
        ensures { result ≡ may_make_run self.now }
    {
        matches!(self, Op::Load(_) | Op::Put(_))
    }

    /// The refusal that is due before the lock is asked for: by whether the transaction is active, how many operations
    /// it was answered, and whether no further run may be made.
    pub fn refusal(&self, is_active: bool, ops: u64, is_full: bool) -> Option<Refusal>
        ensures { result ≡ refusal_before_lock is_active ops is_full self.now }
    {
        if !is_active {
            return Some(Refusal::NoSuchTx);
        }
        if ops >= MAX_OPS {
            return Some(Refusal::TooManyOps);
        }
        if !self.is_orderly() {
            return Some(Refusal::NotRising);
        }
        if !self.is_bounded() {
            return Some(Refusal::BadLimit);
        }
        if self.may_make_run() && is_full {
            return Some(Refusal::TooManyRuns);
        }
        None
    }

    /// The lock that the operation asks for: a shared one to read, an exclusive one to write.
    pub fn asked_lock(&self) -> Option<Lock>
        requires { is_orderly self.now ≡ true }
        ensures { result ≡ lock_of self.now }
    {
        match self {
            Op::Get(key) => Some(Lock::shared(Range::point(*key))),
            Op::Scan(range, _) | Op::ScanBack(range, _) => Some(Lock::shared(*range)),
            Op::Insert(key, _) | Op::Replace(key, _) | Op::Set(key, _) | Op::Delete(key) => {
                Some(Lock::exclusive(Range::point(*key)))
            }
            Op::DeleteRange(range, _) => Some(Lock::exclusive(*range)),
            Op::Load(records) | Op::Put(records) => Some(Lock::exclusive(span(records.as_slice()))),
            Op::Lock(lock) => Some(*lock),
            Op::Mark | Op::Back => None,
        }
    }
}

impl Step {
    /// The same step. Only the records of a load or a put take memory.
    pub fn copy(&self, alloc: Global) -> Result<Step, NoMemory>
        ensures same { IfOk result (λ step. step ≡ self.now) }
        ensures memory { OnErr result (step_has_pairs self.now ≡ true) }
    {
        Ok(match self {
            Step::Begin => Step::Begin,
            Step::Do(tx, op) => Step::Do(*tx, op.copy(alloc)?),
            Step::Commit(tx) => Step::Commit(*tx),
            Step::Abort(tx) => Step::Abort(*tx),
            Step::Merge(limit) => Step::Merge(*limit),
            Step::Clean(range, limit) => Step::Clean(*range, *limit),
        })
    }
}

impl Reply {
    /// The same reply. Only a scan's rows take memory.
    pub fn copy(&self, alloc: Global) -> Result<Reply, NoMemory>
        ensures same { IfOk result (λ reply. reply ≡ self.now) }
        ensures memory { OnErr result (has_rows self.now ≡ true) }
    {
        Ok(match self {
            Reply::Begun(tx) => Reply::Begun(*tx),
            Reply::Done => Reply::Done,
            Reply::Found(value) => Reply::Found(*value),
            Reply::Absent => Reply::Absent,
            Reply::Rows(rows) => Reply::Rows(rows.copy(alloc)?),
            Reply::Exists(key) => Reply::Exists(*key),
            Reply::Missing => Reply::Missing,
            Reply::Deleted(n) => Reply::Deleted(*n),
            Reply::Committed(commit) => Reply::Committed(*commit),
            Reply::Aborted => Reply::Aborted,
            Reply::Moved(n, run) => Reply::Moved(*n, *run),
            Reply::MergeDone => Reply::MergeDone,
            Reply::Ended(key, tx) => Reply::Ended(*key, *tx),
            Reply::Idle => Reply::Idle,
            Reply::Cleaned(n) => Reply::Cleaned(*n),
            Reply::NoMark => Reply::NoMark,
            Reply::Refused(why) => Reply::Refused(*why),
        })
    }
}

/// Whether so many entries may be merged or cleaned at once: 1 to 64.
pub fn is_limit(limit: u64) -> bool
    ensures { result ≡ is_limit limit }
{
    1 <= limit && limit <= MAX_LIMIT
}

// The range from the first key of the records to the last.
fn span(records: &[(Key, Value)]) -> Range
    requires { is_rising records.now ≡ true }
    ensures { result ≡ span records.now }
{
    let (Some(first), Some(last)) = (records.first(), records.last()) else {
        unreachable!()
    };
    let Some(range) = Range::new(first.0, last.0) else {
        unreachable!()
    };
    range
}
