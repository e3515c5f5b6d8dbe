//! A source beside the sink of the same peer.

ghost use Rattle.std.specs.Prelude.{◌≡◌, ℕ, ◌+◌, ◌^◌, ◌<◌, ◌≤◌, List, [], length, take, false, OnOk, OnErr, IfOk};
ghost use Rattle.am_line_source.specs.SourceReads.{Took};

use crate::source::Source;
use am_line_sink::{Failed, Sink};

/// A source that is asked for more only while nothing that the sink was given is unsent: whoever asks it shows the
/// sink. Every source is one beside every sink. Code over any such source has no other way to ask it.
pub trait AnsweredSource<K: Sink> {
    // The bytes that may still come.
    ghost comes: { Self → List ℕ → Type 0 };

    // How often it has failed.
    ghost failures: { Self → ℕ };

    /// As [`Source::take`], with nothing unsent.
    fn take_answered(&mut self, into: &mut [u8], sink: &K) -> Result<usize, Failed>
        requires countable { failures self.old < 2 ^ 63 }
        requires sent { K.pending sink.now ≡ false }
        ensures fits { IfOk result (λ n. n ≤ length into.new) }
        ensures taken { IfOk result (λ n. Took comes self.old (take n into.new) self.new) }
        ensures end { IfOk result (λ n. n ≡ 0 → 0 < length into.new → comes self.new []) }
        ensures ok { OnOk result (failures self.new ≡ failures self.old) }
        ensures failed { OnErr result (failures self.new ≡ failures self.old + 1) }
        ensures kept { OnErr result (Took comes self.old [] self.new) };

    /// As [`Source::await_more`], with nothing unsent.
    fn await_more_answered(&mut self, sink: &K) -> bool
        requires sent { K.pending sink.now ≡ false }
        ensures kept { Took comes self.old [] self.new }
        ensures same { failures self.new ≡ failures self.old };
}

impl<K: Sink, S: Source> AnsweredSource<K> for S {
    ghost comes = { S.comes };

    ghost failures = { S.failures };

    fn take_answered(&mut self, into: &mut [u8], _sink: &K) -> Result<usize, Failed> {
        self.take(into)
    }

    fn await_more_answered(&mut self, _sink: &K) -> bool {
        self.await_more()
    }
}
