//! How a session waits for its next line.

ghost use Rattle.std.specs.Prelude.{◌≡◌, ℕ, ◌+◌, ◌^◌, ◌<◌, List, [], Bool, true, false, Some, None, OnOk, OnErr, IfOk};
ghost use Rattle.std.specs.Prelude.{IfSome, IfNone};
ghost use Rattle.am_law_serial.specs.Trace.{Trace};
ghost use Rattle.am_line_source.specs.Lines.{has_lf, IsReading, TookLine, TookPart};
ghost use Rattle.am_line_source.specs.LineAnswers.{line_by};
ghost use Rattle.am_line_source.specs.SourceReads.{TookAhead, IsAtEnd};
ghost use Rattle.am_line_dialogue.specs.Conversation.{Lapses};
ghost use Rattle.am_line_session.specs.Waits.{Waits, MayWait};

use crate::backend::Backend;
use am_line_dialogue::Session;
use am_line_sink::{Failed, Sink};
use am_line_source::{AnsweredSource, Coming, FoundLine, Input, LineBuffer, read_line};
use am_record::Step;
use std::rt::Clock;
use std::sync::Wait;

/// A line that a session waited for.
#[derive(Clone, Copy, PartialEq, Eq)]
pub(crate) struct NextLine {
    pub(crate) found: FoundLine,
    /// Whether the session's transaction has lapsed meanwhile.
    pub(crate) is_late: bool,
}

/// Takes the next line. The source is asked only where no whole line is at hand, and then nothing is unsent. Where a
/// transaction is active and nothing comes in time, it lapses: it is aborted, and the line that comes then is late.
pub(crate) fn next_line<W: Wait + Clock, K: Sink, S: AnsweredSource<K>, B: Backend>(
    rt: &W,
    input: &mut Input,
    source: &mut S,
    sink: &K,
    line: &mut LineBuffer,
    backend: &mut B,
    session: &mut Session,
) -> Result<Option<NextLine>, Failed>
    requires countable { S.failures source.old < 2 ^ 63 }
    requires sent { has_lf input.old ≡ false → K.pending sink.now ≡ false }
    requires active { B.means.active backend.old ≡ session.old.active }
    ensures line { IfOk result (λ next. IfSome next (λ n.
        TookLine S.comes input.old source.old (line_by n.found.kind line.new) n.found.is_ended input.new source.new)) }
    ensures waited { IfOk result (λ next. IfSome next (λ n. (events : Trace) × Waits B.means n.is_late
        (backend.old, session.old.staged) events (backend.new, session.new.staged))) }
    ensures end { IfOk result (λ next. IfNone next
        (TookAhead S.comes input.old source.old [] input.new source.new × IsAtEnd S.comes input.new source.new)) }
    ensures lapsed_at_end { IfOk result (λ next. IfNone next (MayWait B.means
        (backend.old, session.old.staged) (backend.new, session.new.staged))) }
    ensures lapsed_at_failure { OnErr result (MayWait B.means
        (backend.old, session.old.staged) (backend.new, session.new.staged)) }
    ensures active { B.means.active backend.new ≡ session.new.active }
    ensures ok { OnOk result (S.failures source.new ≡ S.failures source.old) }
    ensures failed { OnErr result (S.failures source.new ≡ S.failures source.old + 1) }
    ensures part { OnErr result (TookPart S.comes input.old source.old input.new source.new) }
    ensures empty { OnErr result (input.new ≡ []) }
    ensures sent_at_end { IfOk result (λ next. IfNone next (K.pending sink.now ≡ false)) }
    ensures sent_at_failure { OnErr result (K.pending sink.now ≡ false) }
{
    if let Some(found) = input.take_line(line) {
        return Ok(Some(NextLine {
            found,
            is_late: false,
        }));
    }
    line.clear();
    match session.active() {
        Some(tx) if backend.may_lapse() => {
            next_in_time(rt, input, source, sink, line, backend, session, tx)
        }
        _ => read_on(rt, input, source, sink, line, false),
    }
}

// Reads on in a line, of which some bytes may stand in the buffer, however long it takes.
fn read_on<W: Wait, K: Sink, S: AnsweredSource<K>>(
    rt: &W,
    input: &mut Input,
    source: &mut S,
    sink: &K,
    line: &mut LineBuffer,
    is_late: bool,
) -> Result<Option<NextLine>, Failed>
    requires countable { S.failures source.old < 2 ^ 63 }
    requires sent { K.pending sink.now ≡ false }
    ensures line { (before : List ℕ) (first : S) → IsReading S.comes before first line.old input.old source.old →
        IfOk result (λ next. IfSome next (λ n.
        TookLine S.comes before first (line_by n.found.kind line.new) n.found.is_ended input.new source.new)) }
    ensures late { IfOk result (λ next. IfSome next (λ n. n.is_late ≡ is_late)) }
    ensures end { (before : List ℕ) (first : S) → IsReading S.comes before first line.old input.old source.old →
        IfOk result (λ next. IfNone next
        (TookAhead S.comes before first [] input.new source.new × IsAtEnd S.comes input.new source.new)) }
    ensures part { (before : List ℕ) (first : S) → IsReading S.comes before first line.old input.old source.old →
        OnErr result (TookPart S.comes before first input.new source.new) }
    ensures ok { OnOk result (S.failures source.new ≡ S.failures source.old) }
    ensures failed { OnErr result (S.failures source.new ≡ S.failures source.old + 1) }
    ensures empty { OnErr result (input.new ≡ []) }
{
    match read_line(rt, input, source, sink, line, false)? {
        Coming::Line(found) => Ok(Some(NextLine { found, is_late })),
        Coming::End => Ok(None),
        Coming::Late => unreachable!(),
    }
}

// Waits for a line while this transaction is active, which lapses where nothing comes in time.
fn next_in_time<W: Wait, K: Sink, S: AnsweredSource<K>, B: Backend>(
    rt: &W,
    input: &mut Input,
    source: &mut S,
    sink: &K,
    line: &mut LineBuffer,
    backend: &mut B,
    session: &mut Session,
    tx: u64,
) -> Result<Option<NextLine>, Failed>
    requires countable { S.failures source.old < 2 ^ 63 }
    requires sent { K.pending sink.now ≡ false }
    requires active { B.means.active backend.old ≡ session.old.active }
    requires its { session.old.active ≡ Some tx }
    requires lapses { B.means.lapses }
    ensures line { (before : List ℕ) (first : S) → IsReading S.comes before first line.old input.old source.old →
        IfOk result (λ next. IfSome next (λ n.
        TookLine S.comes before first (line_by n.found.kind line.new) n.found.is_ended input.new source.new)) }
    ensures waited { IfOk result (λ next. IfSome next (λ n. (events : Trace) × Waits B.means n.is_late
        (backend.old, session.old.staged) events (backend.new, session.new.staged))) }
    ensures end { (before : List ℕ) (first : S) → IsReading S.comes before first line.old input.old source.old →
        IfOk result (λ next. IfNone next
        (TookAhead S.comes before first [] input.new source.new × IsAtEnd S.comes input.new source.new)) }
    ensures lapsed_at_end { IfOk result (λ next. IfNone next (MayWait B.means
        (backend.old, session.old.staged) (backend.new, session.new.staged))) }
    ensures lapsed_at_failure { OnErr result (MayWait B.means
        (backend.old, session.old.staged) (backend.new, session.new.staged)) }
    ensures active { B.means.active backend.new ≡ session.new.active }
    ensures ok { OnOk result (S.failures source.new ≡ S.failures source.old) }
    ensures failed { OnErr result (S.failures source.new ≡ S.failures source.old + 1) }
    ensures part { (before : List ℕ) (first : S) → IsReading S.comes before first line.old input.old source.old →
        OnErr result (TookPart S.comes before first input.new source.new) }
    ensures empty { OnErr result (input.new ≡ []) }
{
    match read_line(rt, input, source, sink, line, true)? {
        Coming::Line(found) => Ok(Some(NextLine {
            found,
            is_late: false,
        })),
        Coming::End => Ok(None),
        Coming::Late => {
            lapse(rt, backend, session, tx);
            read_on(rt, input, source, sink, line, true)
        }
    }
}

// Nothing came in time: the transaction is aborted.
fn lapse<W: Wait, B: Backend>(rt: &W, backend: &mut B, session: &mut Session, tx: u64)
    requires active { B.means.active backend.old ≡ session.old.active }
    requires its { session.old.active ≡ Some tx }
    requires lapses { B.means.lapses }
    ensures waited { (events : Trace) × Waits B.means true (backend.old, session.old.staged) events
        (backend.new, session.new.staged) }
    ensures active { B.means.active backend.new ≡ session.new.active }
{
    let reply = backend.call(rt, &mut None, Step::Abort(tx));
    session.reply(&reply);
    backend.end_turn(rt);
}
