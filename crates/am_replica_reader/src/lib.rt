//! A reader of the log as one thread uses it: it is told of each change, and the text of the entry that a change ends
//! stands in it until the next one.
//!
//! - [`Reader`]: a [`am_replica_log::Log`], and the text of the entry that came last.
//! - [`Came`]: what a change came to. Where memory is refused, or the cluster went back, the reader is over.
#![tactic(auto)]

mod came;
mod reader;

pub use came::Came;
pub use reader::Reader;
