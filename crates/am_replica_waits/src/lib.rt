//! What a replica's clients wait for: that their blocks are in the log, or that what they read is the log's end.
//!
//! - [`Queue`]: which blocks wait, and which are on their way to the log.
//! - [`Expired`]: what a client is told whose time is over before it is told what its blocks came to.
//! - [`Ends`]: at which moment's end of the log the replica stands.
//! - [`Waits`]: both.
//! - [`unreachable_was_never_handed_over`], [`each_is_told_once`], [`handed_over_in_order`],
//!   [`others_were_handed_over`]: of every queue.
//! - [`what_is_known_was_asked`], [`reads_by_the_log_see_all_before`]: of all ends.
#![tactic(auto)]

mod ends;
mod laws;
mod queue;
mod waits;

pub use ends::{Ends, Question};
pub use laws::{
    each_is_told_once, handed_over_in_order, others_were_handed_over,
    reads_by_the_log_see_all_before, unreachable_was_never_handed_over, what_is_known_was_asked,
};
pub use queue::{Expired, Queue, Waiting};
pub use waits::Waits;
