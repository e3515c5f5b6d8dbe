//! A sink that tells how many answers were sent on.

ghost use Rattle.std.specs.Prelude.{◌≡◌, ◌==◌, ◌||◌, ◌+◌, ◌^◌, ◌<◌, ◌≤◌, false, [], length, take, min, count_by};
ghost use Rattle.std.specs.Prelude.{nat_lt, OnOk, OnErr, IfOk};
ghost use Rattle.am_line_sink.specs.SinkWrites.{Gave};

use crate::pacer::{MergePacer, TurnGiver};
use am_line_sink::{Failed, Sink};
use std::thread;

/// A sink of a session, each of whose answers lets a worker have a turn once it was sent on.
#[derive(Drop)]
pub struct CountingSink<'a, K: Sink + Drop> {
    sink: K,
    turns: TurnGiver<'a>,
    // How many answers were written and not sent on yet.
    unsent: u64,
}

// How many answers end in the piece: each is a line.
fn answers_in(piece: &[u8]) -> u64
    ensures { result ≡ count_by (λ byte. byte == 10) piece.now }
{
    piece.iter().filter(|byte| **byte == b'\n').count() as u64
}

impl<'a, K: Sink + Drop> CountingSink<'a, K> {
    /// Over a sink; no answer was written yet.
    pub fn new(sink: K, pacer: &'a MergePacer) -> CountingSink<'a, K>
        ensures sink { result.sink ≡ sink }
        ensures none { (result.turns.given ≡ 0) × (result.unsent ≡ 0) }
    {
        CountingSink {
            sink,
            turns: TurnGiver::new(pacer),
            unsent: 0,
        }
    }
}

impl<'a, K: Sink + Drop> Sink for CountingSink<'a, K> {
    ghost holds = { λ s. K.holds s.sink };

    ghost failures = { λ s. K.failures s.sink };

    ghost pending = { λ s. K.pending s.sink };

    fn give(&mut self, piece: &[u8]) -> Result<usize, Failed>
        requires countable { K.failures self.old.sink < 2 ^ 63 }
        ensures fits { IfOk result (λ n. n ≤ length piece.now) }
        ensures given { IfOk result (λ n. Gave K.holds self.old.sink (take n piece.now) self.new.sink) }
        ensures some { IfOk result (λ n. 0 < length piece.now → 0 < n) }
        ensures pending { IfOk result (λ n. K.pending self.new.sink ≡ (K.pending self.old.sink || nat_lt 0 n)) }
        ensures ok { OnOk result (K.failures self.new.sink ≡ K.failures self.old.sink) }
        ensures failed { OnErr result (K.failures self.new.sink ≡ K.failures self.old.sink + 1) }
        ensures kept { OnErr result (Gave K.holds self.old.sink [] self.new.sink) }
        ensures same { OnErr result (K.pending self.new.sink ≡ K.pending self.old.sink) }

        // Of a piece that is written in part, the answers of that part are counted.
        ensures counted { IfOk result (λ n. self.new.unsent ≡
            min 18446744073709551615 (self.old.unsent + count_by (λ byte. byte == 10) (take n piece.now))) }
        ensures uncounted { OnErr result (self.new.unsent ≡ self.old.unsent) }
        ensures turns { self.new.turns.given ≡ self.old.turns.given }
    {
        let len = self.sink.give(piece)?;
        self.unsent = self.unsent.saturating_add(answers_in(&piece[..len]));
        Ok(len)
    }

    fn flush(&mut self) -> Result<(), Failed>
        requires countable { K.failures self.old.sink < 2 ^ 63 }
        ensures kept { Gave K.holds self.old.sink [] self.new.sink }
        ensures sent { OnOk result (K.pending self.new.sink ≡ false) }
        ensures ok { OnOk result (K.failures self.new.sink ≡ K.failures self.old.sink) }
        ensures failed { OnErr result (K.failures self.new.sink ≡ K.failures self.old.sink + 1) }
        ensures same { OnErr result (K.pending self.new.sink ≡ K.pending self.old.sink) }

        // Each answer that was sent on gives one turn, and is counted once.
        ensures turns { OnOk result (self.new.turns.given ≡
            min 18446744073709551615 (self.old.turns.given + self.old.unsent)) }
        ensures counted { OnOk result (self.new.unsent ≡ 0) }
        ensures none { OnErr result (self.new.turns.given ≡ self.old.turns.given) }
        ensures uncounted { OnErr result (self.new.unsent ≡ self.old.unsent) }
    {
        self.sink.flush()?;
        self.turns.give(self.unsent);
        self.unsent = 0;
        // Others may wait for a processor. A session and its client that always find one another awake would keep
        // theirs, and answers to the others would be late by milliseconds.
        thread::yield_now();
        Ok(())
    }
}
