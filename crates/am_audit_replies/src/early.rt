//! The refusals that are tested before a lock is asked for.

ghost use Rattle.std.specs.Prelude.{◌≡◌, length, IfNone, IfSome, true, false};
ghost use Rattle.am_law_serial.specs.Machine.{State, is_open, body_in, due_early, is_full, says_full};
ghost use Rattle.am_audit_replies.specs.Refused.{early_of};

use am_record::{MAX_RUNS, Op, Refusal, Reply};

/// The early refusal that is due to an operation of a transaction that is active with so many operations, if it is, by
/// whether no further run may be made.
pub fn refusal(done: Option<usize>, full: bool, tx: u64, op: &Op) -> Option<Refusal>
    ghost s: { State }
    requires active { IfSome done (λ n. (is_open s.active tx ≡ true) × (n ≡ length (body_in s.active tx))) }
    requires inactive { IfNone done (is_open s.active tx ≡ false) }
    ensures { result ≡ due_early full s tx op.now }
{
    let ops = done.unwrap_or(0) as u64;
    op.refusal(done.is_some(), ops, full)
}

/// Whether no further run may be made, of so many in all, where so many were made and this was replied.
pub fn is_full(most_runs: u32, runs: u32, reply: &Reply) -> bool
    ensures { result ≡ is_full most_runs runs reply.now }
{
    runs >= most_runs || runs >= MAX_RUNS && says_full(reply)
}

// Whether the reply says that none may be made.
fn says_full(reply: &Reply) -> bool
    ensures { result ≡ says_full reply.now }
{
    matches!(reply, Reply::Refused(Refusal::TooManyRuns))
}

/// Whether the reply is one of these refusals.
pub fn is_early(reply: &Reply) -> bool
    ensures { result ≡ early_of reply.now }
{
    matches!(
        reply,
        Reply::Refused(
            Refusal::NoSuchTx
                | Refusal::TooManyOps
                | Refusal::NotRising
                | Refusal::BadLimit
                | Refusal::TooManyRuns
        )
    )
}
