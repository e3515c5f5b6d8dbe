//! How many sessions there were, and how many connections the system refused.

ghost use Rattle.am_serve_connections.specs.Countings.{IsToldOf};

use std::sync::atomic::{AtomicI32, AtomicU64, Ordering};

/// A count that many threads add to.
#[derive(Drop)]
pub struct Count(AtomicU64);

impl Count {
    fn new() -> Count {
        Count(AtomicU64::new(0))
    }

    /// One more.
    pub fn add(&self) {
        self.0.fetch_add(1, Ordering::SeqCst);
    }

    fn get(&self) -> u64 {
        self.0.load(Ordering::SeqCst)
    }
}

/// What the threads of a server count.
#[derive(Drop)]
pub struct SessionCounters {
    /// Sessions that began.
    pub begun: Count,
    /// Sessions that ended.
    pub ended: Count,
    refused_by_system: Count,
    // The number that the system gave with the first refusal, or 0.
    first_refusal: AtomicI32,
}

/// How many sessions a server had, and how many connections the system refused.
#[derive(Clone, Copy, PartialEq, Eq)]
pub struct SessionCounts {
    /// How many sessions began.
    pub begun: u64,
    /// How many of them have not ended.
    pub open: u64,
    /// How often the system refused to accept a connection.
    pub refused_by_system: u64,
    /// The number that the system gave with the first of these, where it gave one.
    pub first_refusal: Option<i32>,
}

// What is told where so many sessions began and ended, and so many connections were refused, the first of them with
// this number.
fn counts_of(begun: u64, ended: u64, refused: u64, first_refusal: i32) -> SessionCounts
    ensures { IsToldOf begun ended refused first_refusal result }
{
    SessionCounts {
        begun,
        open: begun.saturating_sub(ended),
        refused_by_system: refused,
        first_refusal: match first_refusal {
            0 => None,
            number => Some(number),
        },
    }
}

impl SessionCounters {
    pub(crate) fn new() -> SessionCounters {
        SessionCounters {
            begun: Count::new(),
            ended: Count::new(),
            refused_by_system: Count::new(),
            first_refusal: AtomicI32::new(0),
        }
    }

    /// The system refused to accept a connection, with this number of its own.
    pub(crate) fn note_refusal(&self, number: Option<i32>) {
        let _ = self
            .first_refusal
            .compare_exchange(0, number.unwrap_or(0), Ordering::SeqCst, Ordering::SeqCst);
        self.refused_by_system.add();
    }

    /// Whether no connection was refused by the system.
    pub fn accepted_all(&self) -> bool {
        self.refused_by_system.get() == 0
    }

    /// The counts as they are.
    pub fn counts(&self) -> SessionCounts {
        let ended = self.ended.get();
        let begun = self.begun.get();
        let refused = self.refused_by_system.get();
        counts_of(
            begun,
            ended,
            refused,
            self.first_refusal.load(Ordering::SeqCst),
        )
    }
}
