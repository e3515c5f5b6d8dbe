//! A session over any backend, to its end.

ghost use Rattle.am_record.specs.Limits.{max_limit};
ghost use Rattle.std.specs.Prelude.{◌≡◌, ◌+◌, ◌^◌, ◌<◌, ◌≤◌, [], false, Option, Some, None};
ghost use Rattle.am_line_session.specs.ServedSessions.{Served, read_failures, write_failures, IsSentOn};
ghost use Rattle.am_law_serial.specs.Trace.{Trace};
ghost use Rattle.am_line_dialogue.specs.Conversation.{Leaves};
ghost use Rattle.am_line_session.specs.Stops.{Talked, reads_failed, writes_failed, IsSentBy};

use crate::awaiting::next_line;
use crate::backend::Backend;
use crate::conversation::{answer, merge};
use crate::end::End;
use crate::heard::{Heard, hear};
use crate::parting_sink::PartingSink;
use crate::together::Together;
use am_line_dialogue::Session;
use am_line_sink::{Failed, Sink};
use am_line_source::{AnsweredSource, Input, LineBuffer};
use am_record::Step;
use std::alloc::Global;
use std::rt::Clock;
use std::sync::Wait;

/// Why no further line is answered.
#[derive(Clone, Copy)]
enum Stop {
    Quit,
    EndedItself,
    EndedByAnother,
    EndOfInput,
    ReadFailed,
    WriteFailed,
}

// Returns once the line may be answered. Who would hold hears at once where another does, and so does who looks for a
// session that is in the way, or would end it.
fn await_turn<W: Wait + Clock, B: Backend>(rt: &W, backend: &B, session: &Session, heard: &Heard)
    requires { B.means.active backend.now ≡ session.now.active }
{
    if session.active().is_none() && !heard.is_urgent() {
        backend.await_turn(rt);
    }
}

// Answers the lines of a source up to the first QUIT, or the END of the session itself, or until another ended it.
fn talk<W: Wait + Clock, K: Sink, S: AnsweredSource<K>, B: Backend>(
    rt: &W,
    alloc: Global,
    input: &mut Input,
    line: &mut LineBuffer,
    source: &mut S,
    sink: &mut K,
    backend: &mut B,
    session: &mut Session,
    auto: u64,
) -> Stop
    requires fresh { input.old ≡ [] }
    requires source_countable { S.failures source.old < 2 ^ 63 }
    requires sink_countable { K.failures sink.old < 2 ^ 63 }
    requires sent { K.pending sink.old ≡ false }
    requires active { B.means.active backend.old ≡ session.old.active }
    ensures active { B.means.active backend.new ≡ session.new.active }
    ensures talked { Talked S.comes K.holds B.means auto source.old sink.old
        (backend.old, session.old.staged) source.new sink.new (backend.new, session.new.staged) result }
    ensures sent { IsSentBy result (K.pending sink.new ≡ false) }
    ensures source_failures { S.failures source.new ≡ S.failures source.old + reads_failed result }
    ensures sink_failures { K.failures sink.new ≡ K.failures sink.old + writes_failed result }
    ensures ended { result ≡ Stop.EndedByAnother → B.ended }
{
    let mut together = Together::new();
    'lines: for _ in rt.forever() {
        let Ok(next) = next_line(rt, input, source, sink, line, backend, session) else {
            return Stop::ReadFailed;
        };
        let Some(read) = next else {
            return Stop::EndOfInput;
        };
        let found = read.found;
        let heard = hear(alloc, read.is_late, found.kind, line.as_slice());
        await_turn(rt, backend, session, &heard);
        if backend.is_ended() {
            return Stop::EndedByAnother;
        }
        if heard.is_quit() {
            return Stop::Quit;
        }
        let Ok(goes_on) = answer(
            rt,
            alloc,
            input,
            sink,
            backend,
            session,
            &mut together,
            heard,
        ) else {
            return Stop::WriteFailed;
        };
        merge(rt, backend, session, auto);
        if !goes_on {
            return Stop::EndedItself;
        }
        if !found.is_ended {
            return Stop::EndOfInput;
        }
    }
    unreachable!()
}

// Aborts the transaction that is active, if one is.
fn leave<W: Wait, B: Backend>(rt: &W, backend: &mut B, active: Option<u64>)
    requires { B.means.active backend.old ≡ active }
    ensures left { (events : Trace) × Leaves B.means active backend.old events backend.new }
    ensures none { B.means.active backend.new ≡ None }
{
    if let Some(tx) = active {
        let _ = backend.call(rt, &mut None, Step::Abort(tx));
    }
}

/// Answers the lines of a source up to the first QUIT or the END of the session itself, each by one line, merges once
/// after each answer where `auto` is above 0, and at the end aborts what is active. The sink has nothing that isn't
/// sent on. Where the source says that no line came in time, and the backend that its transactions may lapse, the one
/// that is active is aborted, and the line that comes then is told so, whatever it says, QUIT too. Where the backend
/// says that another session ended this one, no further line is taken, be it at hand or not.
///
/// The backend takes the steps of the lines, the merges and the last Abort; each line that is written is the text of a
/// line's fault, or of the reply to its step, however the source cuts its bytes. Nothing is unsent whenever the source
/// is asked ([`AnsweredSource`]). BYE is said after all answers, while nothing is active ([`PartingSink`]).
pub fn serve<W: Wait + Clock, K: PartingSink<B>, S: AnsweredSource<K>, B: Backend>(
    rt: &W,
    alloc: Global,
    source: &mut S,
    sink: &mut K,
    backend: &mut B,
    auto: u64,
) -> End
    requires source_countable { S.failures source.old < 2 ^ 63 }
    requires sink_countable { K.failures sink.old < 2 ^ 63 }
    requires sent { K.pending sink.old ≡ false }
    requires idle { B.means.active backend.old ≡ None }
    requires limit { auto ≤ max_limit }
    ensures served { Served S.comes K.holds K.parts B.means auto source.old sink.old backend.old source.new
        sink.new backend.new result }
    ensures idle { B.means.active backend.new ≡ None }
    ensures sent { IsSentOn result (K.pending sink.new ≡ false) }
    ensures source_failures { S.failures source.new ≡ S.failures source.old + read_failures result }
    ensures sink_failures { K.failures sink.new ≡ K.failures sink.old + write_failures result }
    ensures ended { result ≡ End.EndedByAnother → B.ended }
{
    let Ok(mut input) = Input::new(alloc) else {
        return End::NoMemory;
    };
    let Ok(mut line) = LineBuffer::new(alloc) else {
        return End::NoMemory;
    };
    let mut session = Session::new(alloc);
    let stop = talk(
        rt,
        alloc,
        &mut input,
        &mut line,
        source,
        sink,
        backend,
        &mut session,
        auto,
    );
    leave(rt, backend, session.active());
    backend.end_session(rt);
    match stop {
        Stop::EndedItself => End::EndedItself,
        Stop::EndedByAnother => End::EndedByAnother,
        Stop::EndOfInput => End::EndOfInput,
        Stop::ReadFailed => End::ReadFailed,
        Stop::WriteFailed => End::WriteFailed,
        Stop::Quit => match sink.say_bye(backend) {
            Ok(()) => End::Quit,
            Err(Failed) => End::WriteFailed,
        },
    }
}
