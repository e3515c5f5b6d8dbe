//! The words that replies begin with.

ghost use Rattle.std.specs.Prelude.{◌≡◌, ◌≤◌, length};
ghost use Rattle.am_line_text.specs.ReplyWords.{refusal_code, word_text};

use am_record::Refusal;

/// What a reply is, by its first word.
#[derive(Clone, Copy, PartialEq, Eq)]
pub enum ReplyWord {
    Begun,
    Done,
    Found,
    Absent,
    Rows,
    Exists,
    Missing,
    Deleted,
    Committed,
    Aborted,
    Moved,
    MergeDone,
    Ended,
    Idle,
    Cleaned,
    NoMark,
    Busy,
    Error,
}

impl ReplyWord {
    /// Its text.
    pub fn text(self) -> &'static [u8]
        ensures text { result.now ≡ word_text self }
        ensures short { length result.now ≤ 9 }
    {
        match self {
            ReplyWord::Begun => b"BEGUN",
            ReplyWord::Done => b"OK",
            ReplyWord::Found => b"VAL",
            ReplyWord::Absent => b"NONE",
            ReplyWord::Rows => b"ROWS",
            ReplyWord::Exists => b"EXISTS",
            ReplyWord::Missing => b"MISSING",
            ReplyWord::Deleted => b"DELETED",
            ReplyWord::Committed => b"COMMITTED",
            ReplyWord::Aborted => b"ABORTED",
            ReplyWord::Moved => b"MOVED",
            ReplyWord::MergeDone => b"DONE",
            ReplyWord::Ended => b"ENDED",
            ReplyWord::Idle => b"IDLE",
            ReplyWord::Cleaned => b"CLEANED",
            ReplyWord::NoMark => b"NOMARK",
            ReplyWord::Busy => b"BUSY",
            ReplyWord::Error => b"ERR",
        }
    }
}

/// What a refusal has after ERR. It is empty for a lock that conflicts, whose word is BUSY.
pub fn refusal_code(refusal: Refusal) -> &'static [u8]
    ensures code { result.now ≡ refusal_code refusal }
    ensures short { length result.now ≤ 6 }
{
    match refusal {
        Refusal::Busy(_) => b"",
        Refusal::NoSuchTx => b"NOTX",
        Refusal::TooManyTx => b"TXS",
        Refusal::TooManyLocks => b"LOCKS",
        Refusal::TooManyOps => b"OPS",
        Refusal::TooManyRuns => b"RUNS",
        Refusal::NotRising => b"ORDER",
        Refusal::BadLimit => b"LIMIT",
        Refusal::NoMemory => b"MEMORY",
        Refusal::SeatFull => b"FULL",
    }
}
