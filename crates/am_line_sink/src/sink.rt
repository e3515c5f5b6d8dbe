//! Where bytes go.

ghost use Rattle.std.specs.Prelude.{◌≡◌, ℕ, ◌+◌, ◌-◌, ◌^◌, ◌<◌, ◌≤◌, ◌↔◌, List, [], ◌++◌, length, take, OnOk, OnErr};
ghost use Rattle.std.specs.Prelude.{IfOk, IsErr, Option, Some, Bool, false, ◌||◌, nat_lt};
ghost use Rattle.am_line_sink.specs.SinkWrites.{Gave, Outgoing, Wrote};

use crate::failed::{Failed, falls_due};
use std::alloc::Global;
use std::marker::Model;

/// A stream that bytes are written to.
pub trait Sink {
    // The bytes that it holds, where they are known.
    ghost holds: { Self → Option (List ℕ) };

    // How often it has failed.
    ghost failures: { Self → ℕ };

    // Whether bytes were given to it that it has not sent on yet.
    ghost pending: { Self → Bool };

    /// Writes some bytes at the front of a piece, at least one unless the piece is empty, and says how many. At a
    /// failure nothing was written.
    fn give(&mut self, piece: &[u8]) -> Result<usize, Failed>
        requires countable { failures self.old < 2 ^ 63 }
        ensures fits { IfOk result (λ n. n ≤ length piece.now) }
        ensures given { IfOk result (λ n. Gave holds self.old (take n piece.now) self.new) }
        ensures some { IfOk result (λ n. 0 < length piece.now → 0 < n) }
        ensures pending { IfOk result (λ n. pending self.new ≡ (pending self.old || nat_lt 0 n)) }
        ensures ok { OnOk result (failures self.new ≡ failures self.old) }
        ensures failed { OnErr result (failures self.new ≡ failures self.old + 1) }
        ensures kept { OnErr result (Gave holds self.old [] self.new) }
        ensures same { OnErr result (pending self.new ≡ pending self.old) };

    /// Sends on all that was written.
    fn flush(&mut self) -> Result<(), Failed>
        requires countable { failures self.old < 2 ^ 63 }
        ensures kept { Gave holds self.old [] self.new }
        ensures sent { OnOk result (pending self.new ≡ false) }
        ensures ok { OnOk result (failures self.new ≡ failures self.old) }
        ensures failed { OnErr result (failures self.new ≡ failures self.old + 1) }
        ensures same { OnErr result (pending self.new ≡ pending self.old) };
}

/// Writes a whole piece. At a failure a beginning of it went out.
pub fn give_all<K: Sink>(sink: &mut K, piece: &[u8]) -> Result<(), Failed>
    requires countable { K.failures sink.old < 2 ^ 63 }
    ensures wrote { Wrote K.holds K.failures sink.old piece.now result sink.new }
    ensures pending { OnOk result
        (K.pending sink.new ≡ (K.pending sink.old || nat_lt 0 (length piece.now))) }
{
    let mut done = 0;
    while done < piece.len() {
        done += sink.give(&piece[done..])?;
    }
    Ok(())
}

/// A sink over memory, which keeps what it is given, and can be made to fail once.
#[derive(Drop)]
pub struct StopSink {
    kept: Vec<u8>,
    is_pending: bool,
    calls_to_failure: u64,
    failures: u64,
}

impl Model for StopSink {
    ghost use Rattle.am_line_sink.specs.SinkWrites.{Outgoing};

    ghost Value = { Outgoing };

    ghost view = { λ s. record {
      bytes = s.kept.items;
      pending = s.is_pending;
      calls_to_failure = s.calls_to_failure;
      failures = s.failures;
    } };
}

impl StopSink {
    /// A sink that keeps nothing yet. Call number `fail_at` of its `give` and `flush` fails, the first being 1; 0 means
    /// that none does. A `give` for which memory is refused fails too.
    pub fn new(alloc: Global, fail_at: u64) -> Self
        ensures { result ≡ record { bytes = []; pending = false; calls_to_failure = fail_at; failures = 0 } }
    {
        StopSink {
            kept: Vec::new(alloc),
            is_pending: false,
            calls_to_failure: fail_at,
            failures: 0,
        }
    }

    /// The bytes that it was given, in order.
    pub fn bytes(&self) -> &[u8]
        ensures { result.now ≡ self.now.bytes }
    {
        self.kept.as_slice()
    }

    /// The same, given away. Takes no memory.
    pub fn into_bytes(self) -> Vec<u8>
        ensures { result.items ≡ self.bytes }
    {
        self.kept
    }
}

impl Sink for StopSink {
    ghost use Rattle.std.specs.Prelude.{Some};

    ghost holds = { λ s. Some s.bytes };

    ghost failures = { λ s. s.failures };

    ghost pending = { λ s. s.pending };

    fn give(&mut self, piece: &[u8]) -> Result<usize, Failed>
        requires countable { self.old.failures < 2 ^ 63 }
        ensures fits { IfOk result (λ n. n ≤ length piece.now) }
        ensures given { IfOk result (λ n. self.new.bytes ≡ self.old.bytes ++ take n piece.now) }
        ensures some { IfOk result (λ n. 0 < length piece.now → 0 < n) }
        ensures ok { OnOk result (self.new.failures ≡ self.old.failures) }
        ensures failed { OnErr result (self.new.failures ≡ self.old.failures + 1) }
        ensures kept { OnErr result (self.new.bytes ≡ self.old.bytes ++ []) }
        ensures pending { IfOk result (λ n. self.new.pending ≡ (self.old.pending || nat_lt 0 n)) }
        ensures same { OnErr result (self.new.pending ≡ self.old.pending) }

        // A piece is kept whole; want of memory apart, only the one call fails.
        ensures whole { IfOk result (λ n. n ≡ length piece.now) }
        ensures due { self.old.calls_to_failure ≡ 1 → IsErr result }
        ensures counted { self.new.calls_to_failure ≡ self.old.calls_to_failure - 1 }
    {
        if falls_due(&mut self.calls_to_failure) || self.kept.extend_from_slice(piece).is_err() {
            self.failures += 1;
            return Err(Failed);
        }
        self.is_pending = self.is_pending || !piece.is_empty();
        Ok(piece.len())
    }

    fn flush(&mut self) -> Result<(), Failed>
        requires countable { self.old.failures < 2 ^ 63 }
        ensures kept { self.new.bytes ≡ self.old.bytes ++ [] }
        ensures sent { OnOk result (self.new.pending ≡ false) }
        ensures same { OnErr result (self.new.pending ≡ self.old.pending) }
        ensures ok { OnOk result (self.new.failures ≡ self.old.failures) }
        ensures failed { OnErr result (self.new.failures ≡ self.old.failures + 1) }
        ensures due { IsErr result ↔ (self.old.calls_to_failure ≡ 1) }
        ensures counted { self.new.calls_to_failure ≡ self.old.calls_to_failure - 1 }
    {
        if falls_due(&mut self.calls_to_failure) {
            self.failures += 1;
            return Err(Failed);
        }
        self.is_pending = false;
        Ok(())
    }
}
