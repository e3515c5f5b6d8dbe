//! A session over any backend, line by line.

ghost use Rattle.std.specs.Prelude.{◌≡◌, ◌+◌, ◌^◌, ◌<◌, true, false, None, IfOk, OnOk, OnErr};
ghost use Rattle.am_record.specs.Sessions.{IsAllowed};
ghost use Rattle.am_line_sink.specs.SinkWrites.{Wrote};
ghost use Rattle.am_line_source.specs.Lines.{has_lf};
ghost use Rattle.am_line_dialogue.specs.Responses.{response_text};
ghost use Rattle.am_law_serial.specs.Trace.{Trace};
ghost use Rattle.am_line_dialogue.specs.Conversation.{AnswersParsed, MergesAfter};
ghost use Rattle.am_line_session.specs.OneAnswer.{RespondsTo, GivesAnswer, GivesTorn};

use crate::backend::Backend;
use crate::heard::Heard;
use crate::together::Together;
use am_line_dialogue::{Action, ParsedLine, Response, Session, put_response};
use am_line_sink::{Failed, Sink};
use am_line_source::Input;
use am_record::{Op, Step};
use std::alloc::Global;
use std::rt::Clock;
use std::sync::Wait;

// A session that would begin a transaction waits until it may.
fn await_ticket<W: Wait + Clock, B: Backend>(rt: &W, backend: &B, step: &Step)
    requires { IsAllowed (B.means.active backend.now) step.now }
{
    if let Step::Begin = step {
        backend.await_ticket(rt);
    }
}

// The records of a load or a put are copied before others' steps are kept out.
fn let_go_before<H: Drop>(held: &mut Option<H>, step: &Step) {
    if let Step::Do(_, Op::Load(_) | Op::Put(_)) = step {
        *held = None;
    }
}

// Takes the step that is due for a line, if one is.
fn respond<W: Wait + Clock, B: Backend>(
    rt: &W,
    alloc: Global,
    backend: &mut B,
    session: &mut Session,
    held: &mut Option<B::Held>,
    parsed: ParsedLine,
) -> Response
    requires { B.means.active backend.old ≡ session.old.active }
    ensures responds { (events : Trace) × AnswersParsed B.means (backend.old, session.old.staged) parsed result events
        (backend.new, session.new.staged) }
    ensures active { B.means.active backend.new ≡ session.new.active }
{
    match session.action(parsed) {
        Action::Answer(response) => response,
        Action::Take(step) => {
            await_ticket(rt, backend, &step);
            let_go_before(held, &step);
            let reply = backend.call(rt, held, step);
            session.reply(&reply);
            Response::Replied(reply)
        }
        Action::TellSeen => {
            let (session, commits) = backend.seen();
            Response::Seen(session, commits)
        }
        Action::AskHold(millis) => Response::Hold(backend.hold(rt, millis)),
        Action::TellWho(which) => {
            *held = None;
            Response::of_who(backend.who(rt, alloc, which, held))
        }
        Action::AskEnd(number) => {
            *held = None;
            Response::End(backend.end(rt, number, held))
        }
    }
}

// The session, which has no transaction active, has no turn any more. Whether it would wait for the next one.
fn gives_way<W: Wait, B: Backend>(rt: &W, backend: &B) -> bool
    requires { B.means.active backend.now ≡ None }
{
    backend.end_turn(rt);
    backend.is_kept()
}

// Writes a response, and sends on what was written, unless a whole line is at hand that is answered at once.
fn send<K: Sink>(
    sink: &mut K,
    input: &Input,
    response: &Response,
    is_kept: bool,
) -> Result<(), Failed>
    requires countable { K.failures sink.old < 2 ^ 63 }
    ensures wrote { Wrote K.holds K.failures sink.old (response_text response.now) result sink.new }
    ensures sent { OnOk result (has_lf input.now ≡ false → K.pending sink.new ≡ false) }
    ensures together { OnOk result (has_lf input.now ≡ true → is_kept ≡ false → K.pending sink.new ≡ true) }
    ensures kept { OnOk result (is_kept ≡ true → K.pending sink.new ≡ false) }
{
    put_response(response, sink)?;
    if input.has_line() && !is_kept {
        return Ok(());
    }
    sink.flush()
}

// What is due for what was heard.
fn respond_to<W: Wait + Clock, B: Backend>(
    rt: &W,
    alloc: Global,
    backend: &mut B,
    session: &mut Session,
    held: &mut Option<B::Held>,
    heard: Heard,
) -> Response
    requires { B.means.active backend.old ≡ session.old.active }
    ensures responds { (events : Trace) × RespondsTo B.means (backend.old, session.old.staged) heard result events
        (backend.new, session.new.staged) }
    ensures active { B.means.active backend.new ≡ session.new.active }
{
    match heard {
        Heard::Line(parsed) => respond(rt, alloc, backend, session, held, parsed),
        Heard::Late => Response::Lapsed,
    }
}

/// Answers what was heard, and sends the answers on, unless a whole line is at hand and is answered at once: answers to
/// lines that came together go out together. Others' steps may be kept out after it only where the session goes on at
/// once in its transaction. Whether the session goes on: after the END of itself it doesn't.
pub(crate) fn answer<W: Wait + Clock, K: Sink, B: Backend>(
    rt: &W,
    alloc: Global,
    input: &Input,
    sink: &mut K,
    backend: &mut B,
    session: &mut Session,
    together: &mut Together<B::Held>,
    heard: Heard,
) -> Result<bool, Failed>
    requires countable { K.failures sink.old < 2 ^ 63 }
    requires active { B.means.active backend.old ≡ session.old.active }
    ensures active { B.means.active backend.new ≡ session.new.active }
    ensures free { has_lf input.now ≡ false → together.new.held ≡ None }
    ensures idle { session.new.active ≡ None → together.new.held ≡ None }
    ensures answered { IfOk result (λ goes_on. GivesAnswer K.holds B.means sink.old
        (backend.old, session.old.staged) heard goes_on sink.new (backend.new, session.new.staged)) }
    ensures sent { OnOk result (has_lf input.now ≡ false → K.pending sink.new ≡ false) }
    ensures sent_last { IfOk result (λ goes_on. goes_on ≡ false → K.pending sink.new ≡ false) }
    ensures ok { OnOk result (K.failures sink.new ≡ K.failures sink.old) }
    ensures failed { OnErr result (K.failures sink.new ≡ K.failures sink.old + 1) }
    ensures torn { OnErr result (GivesTorn K.holds B.means sink.old
        (backend.old, session.old.staged) heard sink.new (backend.new, session.new.staged)) }
{
    let response = respond_to(rt, alloc, backend, session, &mut together.held, heard);
    let is_last = response.ends_itself();
    let goes_on = session.active().is_some() && input.has_line() && !is_last;
    together.note(&response, goes_on);
    let is_kept = session.active().is_none() && gives_way(rt, backend);
    if is_last || is_kept || !input.has_line() {
        together.send();
    }
    send(sink, input, &response, is_last || is_kept)?;
    Ok(!is_last)
}

/// Merges once, unless `auto` is 0.
pub(crate) fn merge<W: Wait, B: Backend>(rt: &W, backend: &mut B, session: &mut Session, auto: u64)
    requires { B.means.active backend.old ≡ session.old.active }
    ensures merged { (events : Trace) × MergesAfter B.means auto (backend.old, session.old.staged) events
        (backend.new, session.new.staged) }
    ensures active { B.means.active backend.new ≡ session.new.active }
{
    if auto != 0 {
        let reply = backend.call(rt, &mut None, Step::Merge(auto));
        session.reply(&reply);
    }
}
