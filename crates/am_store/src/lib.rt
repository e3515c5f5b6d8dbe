//! The store: every step of every transaction over a partitioned index.
//!
//! A [`Store`] takes steps one after another: Begin, operations, Commit, Abort, and the system's own Merge and Clean.
//! An operation first asks for its lock. Granted, it changes the index at once and notes what it did; Commit lets the
//! locks go, and Abort takes back what was noted, the newest first. A step that is refused changes nothing.
//!
//! Of every list of steps it is proved that the committed transactions' answers and writes are those of a serial run
//! in the order of commit ([`run`]; am_law_sound has what a sound trace is). Values of a store are no borrowed data: a
//! reply owns its rows. A store is used by one thread at a time; am_latch has one under a latch.
#![tactic(auto)]

mod admission;
mod asked_operation;
mod entries;
mod inner;
mod maintenance;
mod operation;
mod step_lists;
mod store;
mod transactions;

pub use step_lists::run;
pub use store::Store;
