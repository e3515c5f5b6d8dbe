//! The replies of a trace: which of them a step may have, and whether those of a body are the ones that it gets alone.
#![tactic(auto)]

mod active;
mod answers;
mod body_replay;
mod early;
mod event_fault;
mod forms;
mod replies;
mod runs;

pub use active::{Active, OwnAnswer, forget, keep_answer, operation_count, own_answers, place_of};
pub use answers::is_answer;
pub use body_replay::replay;
pub use early::{is_early, is_full, refusal};
pub use event_fault::EventFault;
pub use forms::{may_abort, may_begin, may_clean, may_commit, may_merge};
pub use replies::{is_busy, is_refusal, is_refused};
pub use runs::runs_made;
