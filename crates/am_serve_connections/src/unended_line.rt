//! A line that has not ended.

ghost use Rattle.std.specs.Prelude.{◌≡◌, ◌≤◌, ◌++◌, [], take, vec_len, vec_capacity, IfOk};
ghost use Rattle.am_serve_connections.specs.Http.{is_of_http};

use crate::http::is_of_http;
use std::alloc::{AllocError, Global};

/// So many bytes of a line are kept: one more than it may have, to know that it has too many.
const KEPT_LEN: usize = 4097;

/// How a line began that has not ended: its bytes, the first 4,097 of them.
#[derive(Drop)]
pub(crate) struct UnendedLine {
    bytes: Vec<u8>,
    ghost room: { 4097 ≤ vec_capacity bytes },
    ghost few: { vec_len bytes ≤ 4097 },
}

impl UnendedLine {
    /// A line that has not begun. All the room that it ever needs is got here.
    pub(crate) fn new(alloc: Global) -> Result<UnendedLine, AllocError>
        ensures { IfOk result (λ line. line.bytes.items ≡ []) }
    {
        Ok(UnendedLine {
            bytes: Vec::with_capacity(alloc, KEPT_LEN)?,
        })
    }

    /// More of the line has come.
    pub(crate) fn add(&mut self, bytes: &[u8])
        ensures { self.new.bytes.items ≡ take 4097 (self.old.bytes.items ++ bytes.now) }
    {
        let room = KEPT_LEN - self.bytes.len();
        let Ok(()) = self
            .bytes
            .extend_from_slice(&bytes[..room.min(bytes.len())])
        else {
            unreachable!()
        };
    }

    /// Whether the line as it stands is one of HTTP.
    pub(crate) fn is_of_http(&self) -> bool
        ensures { result ≡ is_of_http self.now.bytes.items }
    {
        is_of_http(self.bytes.as_slice())
    }

    /// The line ends after these bytes, and a next one begins. Whether it is one of HTTP.
    pub(crate) fn end(&mut self, bytes: &[u8]) -> bool
        ensures http { result ≡ is_of_http (self.old.bytes.items ++ bytes.now) }
        ensures next { self.new.bytes.items ≡ [] }
    {
        if self.bytes.is_empty() {
            return is_of_http(bytes);
        }
        self.add(bytes);
        let is_of_http = self.is_of_http();
        self.bytes.clear();
        is_of_http
    }
}
