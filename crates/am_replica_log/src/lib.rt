//! The log that replicas read: entries in one order, each counted once, and the snapshots beside it.
//!
//! - [`Event`]: what a reader is told, one [`Name`] and [`Part`] or one [`Floor`] at a time.
//! - [`Log`]: where a reader stands. [`Log::take`] says whether an event ends an entry that counts, and gives its text.
//! - [`Deletion`]: what the writer of a snapshot lets go.
//! - [`entries_count_once`]: whatever late puts the cluster takes.
//! - [`named_snapshots_stay`], [`snapshot_readers_follow`]: whoever begins by a snapshot is where one that read all is.
#![tactic(auto)]

mod deletion;
mod event;
mod laws;
mod log;
mod pieces;
mod text;

pub use deletion::Deletion;
pub use event::{Event, Floor, Name, Part, Snapshot};
pub use laws::{entries_count_once, named_snapshots_stay, snapshot_readers_follow};
pub use log::{Log, LogFault};
pub use pieces::Entry;
pub use text::Text;
