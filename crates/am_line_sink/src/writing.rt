//! Sinks over std's writers.

ghost use Rattle.std.specs.Prelude.{◌≡◌, ◌^◌, ◌<◌, false, IfOk, IfErr};
ghost use Rattle.am_line_sink.specs.OverWriter.{writer_of, failed_writes, is_unsent};
ghost use Rattle.am_line_sink.specs.Failures.{IsAnswered, IsCounted};

use crate::failed::{Failed, or_failed};
use crate::sink::Sink;
use std::io::{self, Write};

// The answer to a write of a piece of so many bytes. Nothing written of a piece that isn't empty is a failure too.
fn judge_write(answer: io::Result<usize>, len: usize, failures: &mut u64) -> Result<usize, Failed>
    requires countable { failures.old < 2 ^ 63 }
    ensures some { IfOk answer (λ n. 0 < n → IsAnswered result n failures.old failures.new) }
    ensures empty { IfOk answer (λ n. len ≡ 0 → IsAnswered result n failures.old failures.new) }
    ensures none { IfOk answer (λ n.
        n ≡ 0 → 0 < len → IsCounted result failures.old failures.new) }
    ensures error { IfErr answer (λ _. IsCounted result failures.old failures.new) }
{
    let n = or_failed(answer, failures)?;
    if n == 0 && len > 0 {
        *failures += 1;
        return Err(Failed);
    }
    Ok(n)
}

/// A sink over a writer, of which each error is a failure, and each write of no byte of a piece that isn't empty.
#[derive(Drop)]
pub struct Writing<W> {
    writer: W,
    is_pending: bool,
    failures: u64,
}

impl<W> Writing<W> {
    /// The sink over the writer, which has not failed yet, and was given nothing.
    pub fn new(writer: W) -> Self
        ensures writer { writer_of result ≡ writer }
        ensures failures { failed_writes result ≡ 0 }
        ensures pending { is_unsent result ≡ false }
    {
        Writing {
            writer,
            is_pending: false,
            failures: 0,
        }
    }
}

impl<W: Write> Sink for Writing<W> {
    ghost holds = { λ s. W.contents (writer_of s) };

    ghost failures = { failed_writes };

    ghost pending = { is_unsent };

    fn give(&mut self, piece: &[u8]) -> Result<usize, Failed> {
        let n = judge_write(self.writer.write(piece), piece.len(), &mut self.failures)?;
        self.is_pending = self.is_pending || n > 0;
        Ok(n)
    }

    fn flush(&mut self) -> Result<(), Failed> {
        or_failed(self.writer.flush(), &mut self.failures)?;
        self.is_pending = false;
        Ok(())
    }
}
