//! Standard output, of which it's said why it can't be written.

ghost use Rattle.std.specs.Prelude.{◌≡◌};

use std::io::{self, Write};

/// A writer to standard output. Where it fails, standard error is told why.
#[derive(Drop)]
pub(crate) struct Output<'a, R, W> {
    rt: &'a R,
    writer: W,
}

impl<'a, R, W> Output<'a, R, W> {
    /// Over that writer.
    pub(crate) fn new(rt: &'a R, writer: W) -> Output<'a, R, W>
        ensures { result.writer ≡ writer }
    {
        Output { rt, writer }
    }
}

// Tells why an answer of standard output is an error, where it is one.
fn told<R: Eprint, T: Drop>(rt: &R, answer: io::Result<T>) -> io::Result<T>
    ensures { result ≡ answer }
{
    if let Err(why) = &answer {
        let _ = eprintln!(rt; "amaudit: standard output: {why}");
    }
    answer
}

impl<'a, R: Eprint, W: Write> Write for Output<'a, R, W> {
    ghost contents = { λ output. W.contents output.writer };

    fn write(&mut self, piece: &[u8]) -> io::Result<usize> {
        told(self.rt, self.writer.write(piece))
    }

    fn flush(&mut self) -> io::Result<()> {
        told(self.rt, self.writer.flush())
    }
}
