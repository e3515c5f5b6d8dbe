//! What comes from a client.

ghost use Rattle.std.specs.Prelude.{◌≡◌};

use crate::client::{Client, Due};
use am_line_sink::{Failed, or_failed};
use am_line_source::Source;
use std::rt::Clock;
use std::sync::Wait;

/// The bytes of a connection. While a transaction is active they are waited for as long as one may be whose session
/// sends no line, and as long as nothing may come.
#[derive(Drop)]
pub struct ClientBytes<'c, 'a, R> {
    client: &'c Client<'a, R>,
    // Whether nothing came for as long as nothing may.
    is_over: bool,
    failures: u64,
}

impl<'c, 'a, R: Wait + Clock> ClientBytes<'c, 'a, R> {
    /// The bytes of a client.
    pub fn new(client: &'c Client<'a, R>) -> ClientBytes<'c, 'a, R>
        ensures { result.failures ≡ 0 }
    {
        ClientBytes {
            client,
            is_over: false,
            failures: 0,
        }
    }
}

impl<'c, 'a, R: Wait + Clock> Source for ClientBytes<'c, 'a, R> {
    ghost comes = { λ _ _. Unit {0} };

    ghost failures = { λ s. s.failures };

    fn take(&mut self, into: &mut [u8]) -> Result<usize, Failed> {
        if self.is_over {
            self.failures += 1;
            return Err(Failed);
        }
        or_failed(self.client.receive(into), &mut self.failures)
    }

    fn await_more(&mut self) -> bool {
        let due = self.client.await_more();
        self.is_over = due == Some(Due::End);
        due != Some(Due::Lapse)
    }
}
