//! The form of replies, by what the lines before make.

ghost use Rattle.std.specs.Prelude.{◌≡◌, ◌↔◌, ℕ, length, IsTrue};
ghost use Rattle.am_record.specs.declared.step.Step.TheVariants.{Begin, Commit, Abort, Merge, Clean};
ghost use Rattle.am_law_serial.specs.Machine.{State, May, is_open};

use am_record::{MAX_ACTIVE, MAX_BEGUN, Range, Refusal, Reply, is_limit};

/// Whether the reply may be that of a Begin, where so many were begun and are active.
pub fn may_begin(begun: u64, active: usize, reply: &Reply) -> bool
    ghost s: { State }
    requires begun { begun ≡ s.begun }
    requires active { active ≡ length s.active }
    ensures { (most_runs : ℕ) → IsTrue result ↔ May most_runs s Begin reply.now }
{
    let is_full = active >= MAX_ACTIVE || begun >= MAX_BEGUN;
    match reply {
        Reply::Begun(tx) => !is_full && tx.checked_sub(1) == Some(begun),
        Reply::Refused(Refusal::TooManyTx) => is_full,
        _ => false,
    }
}

/// Whether the reply may be that of a Commit, where so many committed.
pub fn may_commit(is_active: bool, commits: u64, tx: u64, reply: &Reply) -> bool
    ghost s: { State }
    requires active { is_active ≡ is_open s.active tx }
    requires commits { commits ≡ s.commits }
    ensures { (most_runs : ℕ) → IsTrue result ↔ May most_runs s (Commit tx) reply.now }
{
    match reply {
        Reply::Committed(commit) => is_active && commit.checked_sub(1) == Some(commits),
        Reply::Refused(Refusal::NoSuchTx) => !is_active,
        _ => false,
    }
}

/// Whether the reply may be that of an Abort.
pub fn may_abort(is_active: bool, tx: u64, reply: &Reply) -> bool
    ghost s: { State }
    requires { is_active ≡ is_open s.active tx }
    ensures { (most_runs : ℕ) → IsTrue result ↔ May most_runs s (Abort tx) reply.now }
{
    match reply {
        Reply::Aborted => is_active,
        Reply::Refused(Refusal::NoSuchTx) => !is_active,
        _ => false,
    }
}

/// Whether the reply may be that of a Merge, where so many runs were made.
pub fn may_merge(runs: u32, limit: u64, reply: &Reply) -> bool
    ghost s: { State }
    requires { runs ≡ s.runs }
    ensures { (most_runs : ℕ) → IsTrue result ↔ May most_runs s (Merge limit) reply.now }
{
    match reply {
        Reply::Moved(n, run) => {
            is_limit(limit) && 1 <= *n && *n <= limit && 1 <= *run && *run <= runs
        }
        Reply::MergeDone | Reply::Ended(..) | Reply::Idle => is_limit(limit),
        Reply::Refused(Refusal::BadLimit) => !is_limit(limit),
        Reply::Refused(Refusal::NoMemory) => is_limit(limit),
        _ => false,
    }
}

/// Whether the reply may be that of a Clean.
pub fn may_clean(range: Range, limit: u64, reply: &Reply) -> bool
    ghost s: { State }
    ensures { (most_runs : ℕ) → IsTrue result ↔ May most_runs s (Clean range limit) reply.now }
{
    let _range = range;
    match reply {
        Reply::Cleaned(n) => is_limit(limit) && *n <= limit,
        Reply::Refused(Refusal::BadLimit) => !is_limit(limit),
        Reply::Refused(Refusal::NoMemory) => is_limit(limit),
        _ => false,
    }
}
