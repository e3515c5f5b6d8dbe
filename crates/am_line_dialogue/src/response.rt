//! What a session writes for a line.

ghost use Rattle.std.specs.Prelude.{◌≡◌, ◌≤◌, ◌^◌, ◌<◌, length, true, OnOk};
ghost use Rattle.am_line_sink.specs.SinkWrites.{Wrote};
ghost use Rattle.am_line_dialogue.specs.Responses.{response_text, fault_text, seen_text, hold_text, end_text};
ghost use Rattle.am_line_dialogue.specs.Responses.{ends_itself, standing_mark, told_words, sessions_words, who_text};
ghost use Rattle.am_line_dialogue.specs.Responses.{who_response};

use crate::told_sessions::{Standing, ToldSession, ToldSessions};
use am_line_sink::{Failed, Sink, give_all};
use am_line_text::{LineFault, Text};
use am_line_wire::put_reply;
use am_record::{NoMemory, Reply};

/// What a session hears that would have the store to itself for a while.
#[derive(Clone, Copy, PartialEq, Eq)]
pub enum HoldAnswer {
    /// It has.
    Granted,
    /// No such time may be asked for.
    OutOfBounds,
    /// It has not: this session holds already, or has a transaction that didn't end in time.
    HeldBy(u64),
}

/// What a session hears that would end one.
#[derive(Clone, Copy, PartialEq, Eq)]
pub enum EndAnswer {
    /// The session of that number ends.
    Ends,
    /// It is the session itself, which ends after the answer.
    EndsItself,
    /// No session has that number.
    NoSession,
}

/// What a session writes for a line: a fault of the line, or of its place in the session, the reply to its step, what
/// SEEN and WHO tell, what HOLD and END are answered, or that the line came too late.
#[derive(Drop)]
pub enum Response {
    TooLong,
    Faulty(LineFault),
    /// No transaction is active.
    NoTransaction,
    /// A transaction is active already.
    Active,
    /// The records of the line wait for the next load.
    Staged,
    /// More records would wait than may.
    TooManyStaged,
    /// Records wait, so there is no commit.
    StillStaged,
    Replied(Reply),
    /// The number of the session, and the number of commits that it sees.
    Seen(u64, u64),
    /// Whether the session holds.
    Hold(HoldAnswer),
    /// What is told of sessions.
    Who(ToldSessions),
    /// Whether a session ends.
    End(EndAnswer),
    /// No line came for too long, so the transaction was aborted. The line did nothing.
    Lapsed,
}

impl Response {
    /// The response to WHO, for which memory may be refused.
    pub fn of_who(answer: Result<ToldSessions, NoMemory>) -> Response
        ensures { result ≡ who_response answer }
    {
        match answer {
            Ok(sessions) => Response::Who(sessions),
            Err(NoMemory) => Response::Faulty(LineFault::NoMemory),
        }
    }

    /// Whether the session ends after it, since it ended itself.
    pub fn ends_itself(&self) -> bool
        ensures { result ≡ ends_itself self.now }
    {
        matches!(self, Response::End(EndAnswer::EndsItself))
    }
}

/// Writes the text of a response. It takes no memory. At an error a beginning of it went out.
pub fn put_response<K: Sink>(response: &Response, sink: &mut K) -> Result<(), Failed>
    requires countable { K.failures sink.old < 2 ^ 63 }
    ensures wrote { Wrote K.holds K.failures sink.old (response_text response.now) result sink.new }
    ensures pending { OnOk result (K.pending sink.new ≡ true) }
{
    match response {
        Response::TooLong => give_all(sink, b"ERR LONG\n"),
        Response::Faulty(fault) => give_all(sink, text_of_fault(*fault)),
        Response::NoTransaction => give_all(sink, b"ERR NOTX\n"),
        Response::Active => give_all(sink, b"ERR ACTIVE\n"),
        Response::Staged => give_all(sink, b"OK\n"),
        Response::TooManyStaged => give_all(sink, b"ERR LIMIT\n"),
        Response::StillStaged => give_all(sink, b"ERR STAGED\n"),
        Response::Replied(reply) => put_reply(reply, sink),
        Response::Seen(session, commits) => give_all(
            sink,
            text_of_seen(*session, *commits).as_slice(),
        ),
        Response::Hold(answer) => give_all(sink, text_of_hold(*answer).as_slice()),
        Response::Who(sessions) => put_who(sessions.as_slice(), sink),
        Response::End(answer) => give_all(sink, text_of_end(*answer)),
        Response::Lapsed => give_all(sink, b"ERR IDLE\n"),
    }
}

fn text_of_fault(fault: LineFault) -> &'static [u8]
    ensures { result.now ≡ fault_text fault }
{
    match fault {
        LineFault::Syntax => b"ERR SYNTAX\n",
        LineFault::Range => b"ERR RANGE\n",
        LineFault::NoMemory => b"ERR MEMORY\n",
    }
}

fn text_of_seen(session: u64, commits: u64) -> Text
    ensures { result ≡ seen_text session commits }
{
    Text::new(b"SEEN ")
        .then_number(session)
        .then(b" ")
        .then_number(commits)
        .then(b"\n")
}

fn text_of_hold(answer: HoldAnswer) -> Text
    ensures { result ≡ hold_text answer }
{
    match answer {
        HoldAnswer::Granted => Text::new(b"OK\n"),
        HoldAnswer::OutOfBounds => Text::new(b"ERR LIMIT\n"),
        HoldAnswer::HeldBy(session) => Text::new(b"ERR HELD ").then_number(session).then(b"\n"),
    }
}

fn text_of_end(answer: EndAnswer) -> &'static [u8]
    ensures { result.now ≡ end_text answer }
{
    match answer {
        EndAnswer::Ends | EndAnswer::EndsItself => b"OK\n",
        EndAnswer::NoSession => b"ERR SESSION\n",
    }
}

fn standing_mark(standing: Standing) -> &'static [u8]
    ensures mark { result.now ≡ standing_mark standing }
    ensures short { length result.now ≤ 2 }
{
    match standing {
        Standing::Free => b"",
        Standing::Holds => b":h",
        Standing::Waits => b":w",
    }
}

// One session. No transaction has the number 0.
fn told_words(told: &ToldSession) -> Text
    ensures { result ≡ told_words told.now }
{
    Text::new(b" ")
        .then_number(told.session)
        .then(b":")
        .then_number(told.tx.unwrap_or(0))
        .then(b":")
        .then_number(told.seconds)
        .then(standing_mark(told.standing))
}

fn put_all<K: Sink>(sessions: &[ToldSession], sink: &mut K) -> Result<(), Failed>
    requires countable { K.failures sink.old < 2 ^ 63 }
    ensures { Wrote K.holds K.failures sink.old (sessions_words sessions.now) result sink.new }
{
    for session in sessions {
        give_all(sink, told_words(session).as_slice())?;
    }
    Ok(())
}

// Piece by piece: the line may be longer than any other.
fn put_who<K: Sink>(sessions: &[ToldSession], sink: &mut K) -> Result<(), Failed>
    requires countable { K.failures sink.old < 2 ^ 63 }
    ensures wrote { Wrote K.holds K.failures sink.old (who_text sessions.now) result sink.new }
    ensures pending { OnOk result (K.pending sink.new ≡ true) }
{
    let head = Text::new(b"WHO ").then_number(sessions.len() as u64);
    give_all(sink, head.as_slice())?;
    put_all(sessions, sink)?;
    give_all(sink, b"\n")
}
