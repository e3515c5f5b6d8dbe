//! What a call answers C.

ghost use Rattle.std.specs.Prelude.{◌≡◌};
ghost use Rattle.am_c_steps.specs.Statuses.{status_code, reply_status, refusal_status, number_of, status, number};

use am_record::{Refusal, Reply};

/// How a call ended. `tiuvrokk.h` has the same under the same numbers, and says what each means.
#[derive(Clone, Copy)]
pub enum Status {
    Fine,
    Absent,
    Exists,
    Busy,
    NoTx,
    NoMark,
    Done,
    Idle,
    Ended,
    TooManyTx,
    TooManyLocks,
    TooManyOps,
    TooManyRuns,
    NotRising,
    BadLimit,
    NoMemory,
    /// No step of a store alone is refused so: it has no seats.
    SeatFull,
    NoStore,
    IsOpen,
    BadKey,
    BadValue,
    BadRange,
    BadMode,
    /// A key stands twice in what was given.
    Twice,
    /// A line of a text has no TAB.
    BadLine,
    /// A text is no entry of a replica's log.
    NoEntry,
    /// Records of a transaction wait for a load or a put.
    Staged,
    /// A floor of a replica's log doesn't follow the one that is known.
    WentBack,
    /// An entry of a replica's log counts, and not all of its pieces were told.
    PartsMissing,
    /// Blocks of a client were never handed over, and never will be.
    Unreachable,
    /// Blocks of a client were handed over, and what they came to isn't known.
    Unknown,
}

impl Status {
    /// The number of the header.
    #[inline(never)]
    pub fn code(self) -> u32
        ensures { result ≡ status_code self }
    {
        match self {
            Status::Fine => 0,
            Status::Absent => 1,
            Status::Exists => 2,
            Status::Busy => 3,
            Status::NoTx => 4,
            Status::NoMark => 5,
            Status::Done => 6,
            Status::Idle => 7,
            Status::Ended => 8,
            Status::TooManyTx => 9,
            Status::TooManyLocks => 10,
            Status::TooManyOps => 11,
            Status::TooManyRuns => 12,
            Status::NotRising => 13,
            Status::BadLimit => 14,
            Status::NoMemory => 15,
            Status::SeatFull => 16,
            Status::NoStore => 17,
            Status::IsOpen => 18,
            Status::BadKey => 19,
            Status::BadValue => 20,
            Status::BadRange => 21,
            Status::BadMode => 22,
            Status::Twice => 24,
            Status::BadLine => 25,
            Status::NoEntry => 26,
            Status::Staged => 27,
            Status::WentBack => 28,
            Status::PartsMissing => 29,
            Status::Unreachable => 30,
            Status::Unknown => 31,
        }
    }
}

// The status that tells of this reply.
fn status_of(reply: &Reply) -> Status
    ensures { result ≡ reply_status reply.now }
{
    match reply {
        Reply::Begun(_) => Status::Fine,
        Reply::Done => Status::Fine,
        Reply::Found(_) => Status::Fine,
        Reply::Absent => Status::Absent,
        Reply::Rows(_) => Status::Fine,
        Reply::Exists(_) => Status::Exists,
        Reply::Missing => Status::Absent,
        Reply::Deleted(_) => Status::Fine,
        Reply::Committed(_) => Status::Fine,
        Reply::Aborted => Status::Fine,
        Reply::Moved(_, _) => Status::Fine,
        Reply::MergeDone => Status::Done,
        Reply::Ended(_, _) => Status::Ended,
        Reply::Idle => Status::Idle,
        Reply::Cleaned(_) => Status::Fine,
        Reply::NoMark => Status::NoMark,
        Reply::Refused(why) => refusal_status(*why),
    }
}

fn refusal_status(why: Refusal) -> Status
    ensures { result ≡ refusal_status why }
{
    match why {
        Refusal::NoSuchTx => Status::NoTx,
        Refusal::Busy(_) => Status::Busy,
        Refusal::TooManyTx => Status::TooManyTx,
        Refusal::TooManyLocks => Status::TooManyLocks,
        Refusal::TooManyOps => Status::TooManyOps,
        Refusal::TooManyRuns => Status::TooManyRuns,
        Refusal::NotRising => Status::NotRising,
        Refusal::BadLimit => Status::BadLimit,
        Refusal::NoMemory => Status::NoMemory,
        Refusal::SeatFull => Status::SeatFull,
    }
}

// The number that goes with a reply: of the transaction that was begun, of the commit, of the transaction that is in
// the way, or how many entries were worked off or cleaned, or records deleted; else 0.
fn number_of(reply: &Reply) -> u64
    ensures { result ≡ number_of reply.now }
{
    match reply {
        Reply::Begun(tx) => *tx,
        Reply::Committed(commit) => *commit,
        Reply::Moved(entries, _) => *entries,
        Reply::Ended(_, tx) => *tx,
        Reply::Cleaned(ghosts) => *ghosts,
        Reply::Deleted(records) => *records,
        Reply::Refused(Refusal::Busy(tx)) => *tx,
        _ => 0,
    }
}

/// The status of an answer, as C is told it.
pub fn status_told(answer: &Result<Reply, Status>) -> u32
    ensures { result ≡ status answer.now }
{
    match answer {
        Ok(reply) => status_of(reply).code(),
        Err(why) => why.code(),
    }
}

/// The number of an answer, as C is told it.
pub fn number_told(answer: &Result<Reply, Status>) -> u64
    ensures { result ≡ number answer.now }
{
    match answer {
        Ok(reply) => number_of(reply),
        Err(_) => 0,
    }
}
