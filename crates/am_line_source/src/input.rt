//! Lines of a source.

ghost use Rattle.std.specs.Prelude.{◌≡◌, ℕ, ◌+◌, ◌-◌, ◌^◌, ◌<◌, ◌≤◌, List, [], ◌∷◌, ◌++◌, length, take, true, false};
ghost use Rattle.std.specs.Prelude.{◌↔◌, drop, is_some, OnOk, OnErr, IfOk, IfSome, IfNone, IsTrue, vec_len};
ghost use Rattle.am_line_source.specs.SourceReads.{Took, TookAhead};
ghost use Rattle.am_line_source.specs.Lines.{HasNoLf, has_lf, CutsLine, IsReading, TookPart, UsedPiece};
ghost use Rattle.am_line_source.specs.LineAnswers.{line_by, is_late, CameOf};

use crate::line::{Coming, FoundLine, LineBuffer};
use crate::peer_source::AnsweredSource;
use am_line_sink::{Failed, Sink};
use std::alloc::{AllocError, Global};
use std::marker::Model;
use std::sync::Wait;

/// How many bytes are taken from a source at once, at most.
const PIECE_LEN: usize = 4096;

/// Bytes that were taken from a source and wait to be used.
pub struct Input {
    buffer: Vec<u8>,
    start: usize,
    end: usize,
}

// By hand: a crate above then need not prove once more how an input is dropped.
impl Drop for Input {
    fn drop(self) {
        let Input {
            buffer,
            start: _,
            end: _,
        } = self;
        drop(buffer);
    }
}

impl Model for Input {
    ghost use Rattle.std.specs.Prelude.{◌≡◌, ◌≤◌, ℕ, List, take, drop, vec_len};

    ghost Value = { List ℕ };

    ghost view = { λ i. drop i.start (take i.end i.buffer.items) };

    ghost invariant = { λ i. (i.start ≤ i.end) × (i.end ≤ 4096) × (vec_len i.buffer ≡ 4096) };
}

/// Takes bytes into a buffer with room, and says how many of them there are. None means the end of the source.
fn fill<K: Sink, S: AnsweredSource<K>>(
    source: &mut S,
    sink: &K,
    buffer: &mut Vec<u8>,
) -> Result<usize, Failed>
    requires countable { S.failures source.old < 2 ^ 63 }
    requires sent { K.pending sink.now ≡ false }
    requires room { vec_len buffer.old ≡ 4096 }
    ensures len { vec_len buffer.new ≡ 4096 }
    ensures fits { IfOk result (λ n. n ≤ 4096) }
    ensures taken { IfOk result (λ n. TookAhead S.comes [] source.old [] (take n buffer.new.items) source.new) }
    ensures end { IfOk result (λ n. n ≡ 0 → S.comes source.new []) }
    ensures ok { OnOk result (S.failures source.new ≡ S.failures source.old) }
    ensures failed { OnErr result (S.failures source.new ≡ S.failures source.old + 1) }
    ensures kept { OnErr result (TookAhead S.comes [] source.old [] [] source.new) }
{
    source.take_answered(buffer.as_mut_slice(), sink)
}

// The first line of these bytes, without its LF, where a whole one is there.
fn first_line(bytes: &[u8]) -> Option<&[u8]>
    ensures line { IfSome result (λ l. bytes.now ≡ l.now ++ 10 ∷ drop (length l.now + 1) bytes.now) }
    ensures one { IfSome result (λ l. HasNoLf l.now) }
    ensures exact { is_some result ≡ has_lf bytes.now }
{
    let end = bytes.iter().position(|byte| *byte == b'\n')?;
    Some(&bytes[..end])
}

impl Input {
    /// An input in which no byte waits. It gets all the memory that it will ever use.
    ///
    /// # Errors
    /// Memory was refused.
    pub fn new(alloc: Global) -> Result<Self, AllocError>
        ensures { IfOk result (λ i. i ≡ []) }
    {
        Ok(Input {
            buffer: vec![in alloc; 0; PIECE_LEN]?,
            start: 0,
            end: 0,
        })
    }

    // The bytes that wait.
    fn waiting(&self) -> &[u8]
        ensures bytes { result.now ≡ self.now }
        ensures most { length result.now ≤ 4096 }
    {
        &self.buffer[self.start..self.end]
    }

    // Whether no byte waits.
    fn is_empty(&self) -> bool
        ensures { IsTrue result ↔ (self.now ≡ []) }
    {
        self.waiting().is_empty()
    }

    /// Whether a whole line waits, its LF with it.
    pub fn has_line(&self) -> bool
        ensures { result ≡ has_lf self.now }
    {
        first_line(self.waiting()).is_some()
    }

    /// Takes the next line, where a whole one waits, and asks no source. Its bytes stand in `line`.
    pub fn take_line(&mut self, line: &mut LineBuffer) -> Option<FoundLine>
        ensures line { IfSome result (λ f. CutsLine self.old (line_by f.kind line.new) self.new) }
        ensures ended { IfSome result (λ f. f.is_ended ≡ true) }
        ensures none { IfNone result (has_lf self.old ≡ false) }
        ensures same { IfNone result (self.new ≡ self.old) }
    {
        let found = first_line(self.waiting())?;
        line.set(found);
        self.start += found.len() + 1;
        Some(FoundLine {
            kind: line.finish(),
            is_ended: true,
        })
    }

    /// Takes more bytes, where none wait. None come at the end of the source.
    fn refill<K: Sink, S: AnsweredSource<K>>(
        &mut self,
        source: &mut S,
        sink: &K,
    ) -> Result<(), Failed>
        requires countable { S.failures source.old < 2 ^ 63 }
        requires sent { K.pending sink.now ≡ false }
        requires empty { self.old ≡ [] }
        ensures taken { OnOk result (TookAhead S.comes self.old source.old [] self.new source.new) }
        ensures end { OnOk result (self.new ≡ [] → S.comes source.new []) }
        ensures ok { OnOk result (S.failures source.new ≡ S.failures source.old) }
        ensures failed { OnErr result (S.failures source.new ≡ S.failures source.old + 1) }
        ensures kept { OnErr result (TookAhead S.comes self.old source.old [] self.new source.new) }
        ensures empty { OnErr result (self.new ≡ []) }
    {
        self.start = 0;
        self.end = 0;
        self.end = fill(source, sink, &mut self.buffer)?;
        Ok(())
    }

    /// Takes more bytes, unless some wait. None wait then at the end of the source.
    fn refill_empty<K: Sink, S: AnsweredSource<K>>(
        &mut self,
        source: &mut S,
        sink: &K,
    ) -> Result<(), Failed>
        requires countable { S.failures source.old < 2 ^ 63 }
        requires sent { K.pending sink.now ≡ false }
        ensures taken { OnOk result (TookAhead S.comes self.old source.old [] self.new source.new) }
        ensures end { OnOk result (self.new ≡ [] → S.comes source.new []) }
        ensures ok { OnOk result (S.failures source.new ≡ S.failures source.old) }
        ensures failed { OnErr result (S.failures source.new ≡ S.failures source.old + 1) }
        ensures kept { OnErr result (TookAhead S.comes self.old source.old [] self.new source.new) }
        ensures empty { OnErr result (self.new ≡ []) }
    {
        if self.is_empty() {
            self.refill(source, sink)?;
        }
        Ok(())
    }

    // Uses the bytes that wait up to the first LF, and that too, or all where no LF is among them. They go onto the
    // line. Whether an LF was.
    fn use_piece(&mut self, line: &mut LineBuffer) -> bool
        ensures { UsedPiece result self.old line.old self.new line.new }
    {
        if let Some(found) = first_line(self.waiting()) {
            line.add(found);
            self.start += found.len() + 1;
            return true;
        }
        line.add(self.waiting());
        self.start = self.end;
        false
    }
}

// Returns once there is something to read, or nothing more comes, or the source fails. Whether that was so in time,
// where the wait is timed.
fn await_bytes<K: Sink, S: AnsweredSource<K>>(
    input: &Input,
    source: &mut S,
    sink: &K,
    is_timed: bool,
) -> bool
    requires sent { K.pending sink.now ≡ false }
    ensures kept { Took S.comes source.old [] source.new }
    ensures same { S.failures source.new ≡ S.failures source.old }
    ensures timed { result ≡ false → is_timed ≡ true }
{
    if !is_timed || !input.is_empty() {
        return true;
    }
    source.await_more_answered(sink)
}

/// Reads on in a line of which some bytes may stand in `line`, however the source cuts its bytes. Its bytes stand there
/// then; of a line that is too long the rest up to the LF is passed over. Where the wait is timed it ends once the
/// source says that nothing came in time, and one may read on. After a failure what was read of a line that isn't ended
/// is lost. The source is asked with nothing unsent in the sink.
pub fn read_line<R: Wait, K: Sink, S: AnsweredSource<K>>(
    rt: &R,
    input: &mut Input,
    source: &mut S,
    sink: &K,
    line: &mut LineBuffer,
    is_timed: bool,
) -> Result<Coming, Failed>
    requires countable { S.failures source.old < 2 ^ 63 }
    requires sent { K.pending sink.now ≡ false }
    ensures came { (before : List ℕ) (first : S) → IsReading S.comes before first line.old input.old source.old →
        IfOk result (λ coming. CameOf S.comes before first coming line.new input.new source.new) }
    ensures part { (before : List ℕ) (first : S) → IsReading S.comes before first line.old input.old source.old →
        OnErr result (TookPart S.comes before first input.new source.new) }
    ensures timed { IfOk result (λ coming. is_late coming ≡ true → is_timed ≡ true) }
    ensures ok { OnOk result (S.failures source.new ≡ S.failures source.old) }
    ensures failed { OnErr result (S.failures source.new ≡ S.failures source.old + 1) }
    ensures empty { OnErr result (input.new ≡ []) }
{
    'pieces: for _ in rt.forever() {
        if !await_bytes(input, source, sink, is_timed) {
            return Ok(Coming::Late);
        }
        input.refill_empty(source, sink)?;
        if input.is_empty() {
            if line.is_empty() {
                return Ok(Coming::End);
            }
            let kind = line.finish();
            return Ok(Coming::Line(FoundLine {
                kind,
                is_ended: false,
            }));
        }
        if input.use_piece(line) {
            let kind = line.finish();
            return Ok(Coming::Line(FoundLine {
                kind,
                is_ended: true,
            }));
        }
    }
    unreachable!()
}
