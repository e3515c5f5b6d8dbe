//! Sources over std's readers.

ghost use Rattle.std.specs.Prelude.{◌≡◌, ℕ, List, ◌↔◌, IfSome};
ghost use Rattle.am_line_source.specs.OverReader.{reader_of, failed_reads};
ghost use Rattle.am_line_source.specs.declared.reading.Reading.{Reading};
ghost use Rattle.am_line_sink.specs.OverWriter.{writer_of};
ghost use Rattle.am_line_sink.specs.declared.writing.Writing.{Writing};

use crate::source::Source;
use am_line_sink::{Failed, Sink, Writing, or_failed};
use std::io::{Read, Write};

/// A source over a reader, of which each error is a failure.
#[derive(Drop)]
pub struct Reading<R> {
    reader: R,
    failures: u64,
}

impl<R> Reading<R> {
    /// The source over the reader, which has not failed yet.
    pub fn new(reader: R) -> Self
        ensures reader { reader_of result ≡ reader }
        ensures failures { failed_reads result ≡ 0 }
    {
        Reading {
            reader,
            failures: 0,
        }
    }
}

impl<R: Read> Source for Reading<R> {
    ghost comes = { λ s bytes. IfSome (R.remaining (reader_of s)) (λ rest. bytes ≡ rest) };

    ghost failures = { failed_reads };

    fn take(&mut self, into: &mut [u8]) -> Result<usize, Failed> {
        or_failed(self.reader.read(into), &mut self.failures)
    }

    fn await_more(&mut self) -> bool {
        true
    }
}

/// What comes from a source over a reader is what the reader has left, and what a sink over a writer holds is what the
/// writer holds.
pub fn streams_are_those_of_std<R: Read, W: Write>()
    ensures read { (s : Reading R) (bytes : List ℕ) →
        ⟦<Reading<R> as Source>⟧.comes s bytes ↔ IfSome (R.remaining (reader_of s)) (λ rest. bytes ≡ rest) }
    ensures written { (s : Writing W) →
        ⟦<Writing<W> as Sink>⟧.holds s ≡ W.contents (writer_of s) }
{}
