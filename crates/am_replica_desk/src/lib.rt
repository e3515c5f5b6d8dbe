//! A replica as one thread uses it, by texts alone: entries of the log go in, and so do the lines of transactions. What
//! is told of each stands in its answer until the next call.
//!
//! - [`Desk`]: the replica, over a store of its own, and its answer.
//! - [`Fault`]: why a call has none. Where memory is refused the replica ends, since it may differ from the others.
#![tactic(auto)]

mod desk;
mod fault;

pub use desk::Desk;
pub use fault::Fault;
