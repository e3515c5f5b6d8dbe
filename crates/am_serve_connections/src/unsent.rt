//! Answers that the system has not taken yet.

ghost use Rattle.std.specs.Prelude.{◌≡◌, ◌≢◌, ◌≤◌, ◌-◌, ◌++◌, ◌↔◌, IsTrue, [], drop, length, min, take};

use std::alloc::Global;

/// So many bytes of answers are kept at most, for a client that reads none of them yet: of lines that stage records it
/// may send 87,381 before it does, which is more than wait for one load.
const MOST_UNSENT: usize = 262_144;

/// Answers that wait until the system takes them. They take memory once there are some.
#[derive(Drop)]
pub(crate) struct Unsent {
    bytes: Vec<u8>,
}

impl Unsent {
    /// None waits.
    pub(crate) fn new(alloc: Global) -> Unsent
        ensures { result.bytes.items ≡ [] }
    {
        Unsent {
            bytes: Vec::new(alloc),
        }
    }

    pub(crate) fn is_empty(&self) -> bool
        ensures { IsTrue result ↔ (self.now.bytes.items ≡ []) }
    {
        self.bytes.is_empty()
    }

    /// What waits, in its order.
    pub(crate) fn as_slice(&self) -> &[u8]
        ensures { result.now ≡ self.now.bytes.items }
    {
        self.bytes.as_slice()
    }

    /// A piece waits too, behind the others, as far as there is room, or not at all where memory is refused. How many
    /// bytes of it do.
    pub(crate) fn keep(&mut self, piece: &[u8]) -> usize
        ensures fits { result ≤ length piece.now }
        ensures all { result ≢ 0 → result ≡ min (262144 - length self.old.bytes.items) (length piece.now) }
        ensures kept { self.new.bytes.items ≡ self.old.bytes.items ++ take result piece.now }
    {
        let room = MOST_UNSENT.saturating_sub(self.bytes.len());
        let len = room.min(piece.len());
        match self.bytes.extend_from_slice(&piece[..len]) {
            Ok(()) => len,
            Err(_) => 0,
        }
    }

    /// The first ones were sent, so many bytes of them.
    pub(crate) fn send(&mut self, count: usize)
        requires { count ≤ length self.old.bytes.items }
        ensures { self.new.bytes.items ≡ drop count self.old.bytes.items }
    {
        drop(self.bytes.drain(..count));
    }
}
