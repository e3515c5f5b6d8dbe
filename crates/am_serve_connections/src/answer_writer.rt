//! How answers go out over a connection.

ghost use Rattle.std.specs.Prelude.{◌≡◌, true, false, None, IfErr, IsErr};
ghost use Rattle.std.specs.Io.{WritesAtMost};
ghost use Rattle.std.specs.IoError.{error_kind};
ghost use Rattle.std.specs.Io.KnownBytes.{WriteAppends};

use crate::client::Client;
use std::io::{self, ErrorKind, Write};
use std::rt::Clock;
use std::sync::Wait;

/// Writes to a client. Once it has taken nothing for too long all writes fail, and none waits again, not even the one
/// of what is left at the end.
#[derive(Drop)]
pub struct AnswerWriter<'c, 'a, R> {
    client: &'c Client<'a, R>,
    is_over: bool,
}

impl<'c, 'a, R: Wait + Clock> AnswerWriter<'c, 'a, R> {
    /// Over a client, which was waited for in vain by nobody yet.
    pub fn new(client: &'c Client<'a, R>) -> AnswerWriter<'c, 'a, R>
        ensures { result.is_over ≡ false }
    {
        AnswerWriter {
            client,
            is_over: false,
        }
    }
}

impl<'c, 'a, R: Wait + Clock> Write for AnswerWriter<'c, 'a, R> {
    fn write(&mut self, piece: &[u8]) -> io::Result<usize>
        ensures bound { WritesAtMost result piece.now }
        ensures bytes { WriteAppends None None result piece.now }
        ensures over { self.old.is_over ≡ true → IsErr result }
        ensures ended { IfErr result (λ e. error_kind e ≡ ErrorKind.TimedOut → self.new.is_over ≡ true) }
    {
        if self.is_over {
            return Err(io::Error::from(ErrorKind::TimedOut));
        }
        let answer = self.client.send(piece);
        if let Err(fault) = &answer {
            self.is_over = fault.kind() == ErrorKind::TimedOut;
        }
        answer
    }

    fn flush(&mut self) -> io::Result<()> {
        self.client.send_on()
    }
}
