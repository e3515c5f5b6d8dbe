//! What a step with its reply does to the transactions, and what is told of it.

ghost use Rattle.std.specs.Prelude.{◌≡◌};
ghost use Rattle.am_latch_engine.specs.Changes.{change, end_of, is_begin, is_refused, is_stored};

use am_record::{Refusal, Reply, Step};

/// What a step with its reply does to the transactions.
#[derive(Clone, Copy, PartialEq, Eq)]
pub enum Change {
    Begins(u64),
    Ends(u64),
    Nothing,
}

/// What came of a step: its reply, and where the two are stored, what is told of them.
#[derive(Drop)]
pub struct Outcome {
    pub reply: Reply,
    pub stored: Option<Stored>,
}

/// What a stored step did to the transactions, and where it stands in the trace.
#[derive(Clone, Copy, PartialEq, Eq)]
pub struct Stored {
    pub change: Change,
    pub position: u64,
}

/// What the step with this reply does to the transactions.
pub(crate) fn change_by(step: &Step, reply: &Reply) -> Change
    ensures { result ≡ change step.now reply.now }
{
    match (step, reply) {
        (Step::Begin, Reply::Begun(tx)) => Change::Begins(*tx),
        (Step::Commit(tx), Reply::Committed(_)) => Change::Ends(*tx),
        (Step::Abort(tx), Reply::Aborted) => Change::Ends(*tx),
        _ => Change::Nothing,
    }
}

/// The transaction that the step is to end.
pub fn tx_to_end(step: &Step) -> Option<u64>
    ensures { result ≡ end_of step.now }
{
    match step {
        Step::Commit(tx) | Step::Abort(tx) => Some(*tx),
        _ => None,
    }
}

/// Whether it is to begin one.
pub(crate) fn starts_tx(step: &Step) -> bool
    ensures { result ≡ is_begin step.now }
{
    matches!(step, Step::Begin)
}

/// Whether the reply stands in the trace: all do but NoMemory and SeatFull.
pub(crate) fn was_stored(reply: &Reply) -> bool
    ensures { result ≡ is_stored reply.now }
{
    !matches!(
        reply,
        Reply::Refused(Refusal::NoMemory) | Reply::Refused(Refusal::SeatFull)
    )
}

/// Whether the step was refused, and so changed nothing.
pub fn was_refused(reply: &Reply) -> bool
    ensures { result ≡ is_refused reply.now }
{
    matches!(reply, Reply::Refused(_))
}
