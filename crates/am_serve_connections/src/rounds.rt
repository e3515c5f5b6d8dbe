//! When the drain has its rounds.

ghost use Rattle.std.specs.Prelude.{◌≡◌};
ghost use Rattle.am_serve_connections.specs.Acceptors.{ends_round};

use std::sync::Wait;
use std::sync::atomic::{AtomicU64, Ordering};
use std::time::Duration;

const ROUND_MILLIS: u64 = 100;

/// So many steps end a round, so that what is kept of them stays small.
const STEPS: u64 = 1024;

/// How long a round is, where nothing ends it.
pub(crate) fn round_length() -> Duration {
    Duration::from_millis(ROUND_MILLIS)
}

/// Whether a round ends where so many steps come after others.
pub(crate) fn ends_round(before: u64, steps: u64) -> bool
    ensures { result ≡ ends_round before steps }
{
    before / STEPS < before.saturating_add(steps) / STEPS
}

/// Rounds one after another: each ends after a tenth of a second, or where many lines were answered or turns taken.
#[derive(Drop)]
pub(crate) struct Rounds {
    // Only rises, so that the drain, which waits at the value it has seen, misses no end.
    ended: AtomicU64,
    seen: AtomicU64,
}

impl Rounds {
    pub(crate) fn new() -> Rounds {
        Rounds {
            ended: AtomicU64::new(0),
            seen: AtomicU64::new(0),
        }
    }

    /// So many lines were answered, or turns taken, and before them so many.
    pub(crate) fn count(&self, before: u64, steps: u64) {
        if ends_round(before, steps) {
            self.end();
        }
    }

    /// The round ends.
    pub(crate) fn end(&self) {
        self.ended.fetch_add(1, Ordering::SeqCst);
        self.ended.wake_all();
    }

    /// Returns at the end of the round. One thread alone waits so.
    pub(crate) fn await_end<R: Wait>(&self, rt: &R) {
        let seen = self.seen.load(Ordering::SeqCst);
        self.ended
            .park_timeout(rt, (seen % (1 << 32)) as u32, round_length());
        self.seen
            .store(self.ended.load(Ordering::SeqCst), Ordering::SeqCst);
    }
}
