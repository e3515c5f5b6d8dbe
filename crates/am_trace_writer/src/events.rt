//! How many events of a trace were commits, and how many were refused.

ghost use Rattle.std.specs.Prelude.{◌≡◌, []};
ghost use Rattle.am_trace_writer.specs.Events.{is_commit, is_busy, is_too_many, is_wrong, count_events, add_count};
ghost use Rattle.am_trace_writer.specs.Events.{AreEventCountsOf};

use am_record::{Refusal, Reply, Step};

/// How many events of a trace were commits, and how many were refused, by why.
#[derive(Clone, Copy, PartialEq, Eq)]
pub struct EventCounts {
    /// Transactions that committed.
    pub commits: u64,
    /// Where a lock of another transaction was in the way.
    pub busy: u64,
    /// Where a limit of transactions, locks, operations or runs was reached.
    pub too_many: u64,
    /// Where a step asked for what isn't to be had: of a transaction that isn't active, of pairs that don't rise, of a
    /// limit.
    pub wrong: u64,
}

/// What a server's trace is made of.
#[derive(Clone, Copy, PartialEq, Eq)]
pub struct TraceCounts {
    /// How many events it has.
    pub events: u64,
    /// How many of them were kept until they were taken just now.
    pub kept: u64,
    /// What they were.
    pub of: EventCounts,
}

impl EventCounts {
    /// Of no events.
    pub fn new() -> EventCounts
        ensures { AreEventCountsOf [] result }
    {
        EventCounts {
            commits: 0,
            busy: 0,
            too_many: 0,
            wrong: 0,
        }
    }

    /// Counts these events too.
    pub fn add(&mut self, events: &[(Step, Reply)])
        ensures commits { self.new.commits ≡ add_count self.old.commits (count_events is_commit events.now) }
        ensures busy { self.new.busy ≡ add_count self.old.busy (count_events is_busy events.now) }
        ensures too_many { self.new.too_many ≡ add_count self.old.too_many (count_events is_too_many events.now) }
        ensures wrong { self.new.wrong ≡ add_count self.old.wrong (count_events is_wrong events.now) }
    {
        let commits = events.iter().filter(|event| is_commit(&event.1)).count();
        let busy = events.iter().filter(|event| is_busy(&event.1)).count();
        let too_many = events.iter().filter(|event| is_too_many(&event.1)).count();
        let wrong = events.iter().filter(|event| is_wrong(&event.1)).count();
        self.commits = self.commits.saturating_add(commits as u64);
        self.busy = self.busy.saturating_add(busy as u64);
        self.too_many = self.too_many.saturating_add(too_many as u64);
        self.wrong = self.wrong.saturating_add(wrong as u64);
    }
}

fn is_commit(reply: &Reply) -> bool
    ensures { result ≡ is_commit reply.now }
{
    matches!(reply, Reply::Committed(_))
}

fn is_busy(reply: &Reply) -> bool
    ensures { result ≡ is_busy reply.now }
{
    matches!(reply, Reply::Refused(Refusal::Busy(_)))
}

fn is_too_many(reply: &Reply) -> bool
    ensures { result ≡ is_too_many reply.now }
{
    matches!(
        reply,
        Reply::Refused(
            Refusal::TooManyTx | Refusal::TooManyLocks | Refusal::TooManyOps | Refusal::TooManyRuns
        )
    )
}

fn is_wrong(reply: &Reply) -> bool
    ensures { result ≡ is_wrong reply.now }
{
    matches!(
        reply,
        Reply::Refused(Refusal::NoSuchTx | Refusal::NotRising | Refusal::BadLimit)
    )
}
