//! A session on a store of its own.

ghost use Rattle.am_record.specs.Limits.{max_limit};
ghost use Rattle.std.specs.Prelude.{◌≡◌, ◌≢◌, ◌+◌, ◌^◌, ◌<◌, ◌≤◌, false};
ghost use Rattle.am_line_session.specs.ServedSessions.{read_failures, write_failures, IsSentOn};
ghost use Rattle.am_line_alone.specs.StoreSessions.{Spoke, WroteFor};

use crate::solo::SoloStore;
use am_line_session::{End, serve};
use am_line_sink::{Sink, StopSink};
use am_line_source::{AnsweredSource, PieceSource};
use am_record::HashKey;
use std::alloc::Global;
use std::rt::Clock;
use std::sync::Wait;

/// Answers the lines of a source up to the first QUIT or END 0, each by one line, on a store that begins with no
/// records, and merges once after each answer where `auto` is above 0. The sink has nothing that isn't sent on.
///
/// There is one sound trace whose steps are those of the lines, the merges and the last abort, and each response is one
/// line, the text of what was answered there. All answers but those to MERGE and CLEAN are those of the plain map,
/// where memory was found; a line that was refused memory is answered ERR MEMORY and did nothing. Each merge and clean
/// of the trace is right, and whoever judges the trace finds nothing wrong in it.
pub fn serve_alone<W: Wait + Clock, K: Sink, S: AnsweredSource<K>>(
    rt: &W,
    alloc: Global,
    source: &mut S,
    sink: &mut K,
    auto: u64,
    hash: HashKey,
) -> End
    requires source_countable { S.failures source.old < 2 ^ 63 }
    requires sink_countable { K.failures sink.old < 2 ^ 63 }
    requires sent { K.pending sink.old ≡ false }
    requires limit { auto ≤ max_limit }
    ensures spoke { Spoke S.comes K.holds auto source.old sink.old source.new sink.new result }
    ensures sent { IsSentOn result (K.pending sink.new ≡ false) }
    ensures source_failures { S.failures source.new ≡ S.failures source.old + read_failures result }
    ensures sink_failures { K.failures sink.new ≡ K.failures sink.old + write_failures result }
    ensures unended { result ≢ End.EndedByAnother }
{
    am_law_sound::steps_lift();
    am_law_serial::sound_traces_are_legal();
    am_line_dialogue::sound_dialogues_say();
    am_line_dialogue::answers_are_lines();
    let Ok(mut store) = SoloStore::new(alloc, hash) else {
        return End::NoMemory;
    };
    serve(rt, alloc, source, sink, &mut store, auto)
}

/// The same over bytes in memory, of which contracts know all: so what is written is known byte for byte.
pub fn serve_in_memory<W: Wait + Clock>(
    rt: &W,
    alloc: Global,
    source: &mut PieceSource<'_>,
    sink: &mut StopSink,
    auto: u64,
    hash: HashKey,
) -> End
    requires source_countable { source.old.failures < 2 ^ 63 }
    requires sink_countable { sink.old.failures < 2 ^ 63 }
    requires sent { sink.old.pending ≡ false }
    requires limit { auto ≤ max_limit }
    ensures wrote { WroteFor auto source.old.rest source.new.rest sink.old.bytes sink.new.bytes result }
    ensures sent { IsSentOn result (sink.new.pending ≡ false) }
    ensures source_failures { source.new.failures ≡ source.old.failures + read_failures result }
    ensures sink_failures { sink.new.failures ≡ sink.old.failures + write_failures result }
{
    serve_alone(rt, alloc, source, sink, auto, hash)
}
