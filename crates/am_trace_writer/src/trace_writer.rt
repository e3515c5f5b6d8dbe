//! A trace that is written while its server runs.

ghost use Rattle.std.specs.Prelude.{◌≡◌, ◌≢◌, ◌+◌, ◌^◌, ◌<◌, false, MatchBool, if◌then◌else◌};
ghost use Rattle.am_line_sink.specs.SinkWrites.{Gave, GaveBeginning};
ghost use Rattle.am_trace_text.specs.Headers.{line_version};
ghost use Rattle.am_trace_text.specs.Lines.{header_line};
ghost use Rattle.std.specs.List.{list_any};
ghost use Rattle.am_trace_text.specs.Versions.{needs_three};
ghost use Rattle.am_trace_writer.specs.Writers.{TookLines};

use crate::pieces::PieceTaker;
use am_line_sink::{Sink, give_all};
use am_record::{Reply, Step};
use am_trace_print::event_lines;
use am_trace_text::{Header, Version, needs_three};
use std::alloc::Global;

/// How many events are written at once: some 1 MB, where they have no long lists of records.
const EVENTS_AT_ONCE: usize = 16_384;

/// Writes a trace to a sink: at first the line that names its version, 2 or 3, or its store's limits, and then the
/// lines of its events as they come, which both versions have alike as far as both have them. Where the sink fails, or
/// memory is refused, the trace is cut there: nothing more is written.
#[derive(Drop)]
pub struct TraceWriter<K: Sink + Drop> {
    sink: K,
    is_cut: bool,
    // Whether version 3 alone writes what was taken.
    needs_three: bool,
    alloc: Global,
    ghost countable: { is_cut ≡ false → K.failures sink < 2 ^ 63 },
}

impl<K: Sink + Drop> TraceWriter<K> {
    /// Writes the first line. Where the sink fails, the trace is cut there.
    pub fn begin(alloc: Global, sink: K, header: Header) -> TraceWriter<K>
        requires countable { K.failures sink < 2 ^ 63 }
        requires written { line_version header ≢ Version.One }
        ensures begun { MatchBool result.is_cut (GaveBeginning K.holds sink (header_line header) result.sink)
            (Gave K.holds sink (header_line header) result.sink) }
        ensures taken { result.needs_three ≡ false }
        ensures cut { K.failures result.sink ≡ (if result.is_cut then K.failures sink + 1 else K.failures sink) }
    {
        let mut sink = sink;
        let is_cut = give_all(&mut sink, header.line().as_slice()).is_err();
        TraceWriter {
            sink,
            is_cut,
            needs_three: false,
            alloc,
        }
    }

    /// The sink, with what it was given.
    pub fn into_sink(self) -> K
        ensures { result ≡ self.sink }
    {
        self.sink
    }

    // Writes the lines of these events.
    fn write(&mut self, events: &[(Step, Reply)])
        requires whole { self.old.is_cut ≡ false }
        ensures took { TookLines K.holds self.old.sink self.old.is_cut events.now self.new.sink self.new.is_cut }
        ensures needs { self.new.needs_three ≡ self.old.needs_three }
    {
        let Ok(text) = event_lines(self.alloc, events) else {
            self.is_cut = true;
            return;
        };
        if give_all(&mut self.sink, &text).is_err() {
            self.is_cut = true;
        }
    }

    // Writes the lines of these events, some at once, until the trace is cut.
    fn write_all(&mut self, events: &[(Step, Reply)])
        ensures took { TookLines K.holds self.old.sink self.old.is_cut events.now self.new.sink self.new.is_cut }
        ensures needs { self.new.needs_three ≡ self.old.needs_three }
    {
        let mut rest = events;
        'chunks: while !rest.is_empty() && !self.is_cut {
            let (first, further) = rest.split_at(rest.len().min(EVENTS_AT_ONCE));
            self.write(first);
            rest = further;
        }
    }
}

// Whether version 3 alone writes some of these events.
fn any_needs_three(events: &[(Step, Reply)]) -> bool
    ensures { result ≡ list_any needs_three events.now }
{
    events.iter().any(|event| needs_three(event))
}

impl<K: Sink + Drop> PieceTaker for TraceWriter<K> {
    ghost use Rattle.std.specs.Prelude.{◌≡◌};
    ghost use Rattle.am_trace_writer.specs.Writers.{TookLines, needs_three_with};
    ghost use Rattle.am_trace_writer.specs.WriterLaws.{took_no_lines, took_lines_of_both};
    ghost use Rattle.am_trace_writer.specs.WriterLaws.{needs_no_more, needs_of_both};

    ghost took = { λ a events b. TookLines K.holds a.sink a.is_cut events b.sink b.is_cut ×
        (b.needs_three ≡ needs_three_with a.needs_three events) };

    ghost has_lost = { λ a. a.is_cut };

    ghost needs = { λ a. a.needs_three };

    fn take(&mut self, piece: &[(Step, Reply)]) {
        self.needs_three = self.needs_three || any_needs_three(piece);
        self.write_all(piece);
    }

    fn is_cut(&self) -> bool {
        self.is_cut
    }

    fn needs_three(&self) -> bool {
        self.needs_three
    }

    ghost took_none = { λ a. (took_no_lines K.holds a.sink a.is_cut, needs_no_more a.needs_three) };

    ghost took_both = { λ a b c x y f h. (
      took_lines_of_both K.holds a.sink b.sink c.sink a.is_cut b.is_cut c.is_cut x y f.0 h.0,
      needs_of_both a.needs_three b.needs_three c.needs_three x y f.1 h.1,
    ) };
}
