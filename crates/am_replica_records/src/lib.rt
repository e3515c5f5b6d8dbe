//! The records of a replica's store, by its [`Machine`](am_replica::Machine) alone: as a snapshot, and loaded again.
//!
//! - [`page`], [`records`]: the records that the store has committed, in pages of 1,000, and all of them.
//! - [`load_records`]: records into a store that has none, a run of at most 65,536 in a transaction of its own.
//! - [`records_are_the_map`]: such a store then has the map whose records they are.
//! - [`renewed`]: a fresh store with another's records, to take its place before that one is out of runs.
#![tactic(auto)]

mod laws;
mod loading;
mod pages;
mod renewing;

pub use laws::records_are_the_map;
pub use loading::load_records;
pub use pages::{page, records};
pub use renewing::renewed;
