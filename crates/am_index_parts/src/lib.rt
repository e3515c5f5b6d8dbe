//! The partitions of one index: every change keeps each key live in at most one of them.
//!
//! [`Parts`] has the runs that were loaded and the final partition, in one index, and beside them:
//! - the catalog: which runs have entries, and how many. A run leaves it with its last entry.
//! - the filters ([`am_index_filter`]) of runs: they say of a key that it is in no run, or in which runs it may be. So
//!   a load looks for few of its keys, and a read descends in few runs.
//! - the merged ranges: once a merge step finds nothing left in a range, no run has an entry there, and only loads
//!   make new runs. So a range is kept with the first run that may have an entry in it, and scans and merge steps
//!   begin at that run. Two that meet become one; of more than 4,096 those of the highest keys go. What is known is
//!   right, and never needed.
#![tactic(auto)]

mod apart_runs;
mod catalog;
mod fault;
mod key_look;
mod merged_ranges;
mod parts;
mod parts_in;
mod run_entry;
mod run_filters;
mod run_keys;
mod run_numbers;
mod way_home;

pub use fault::RunFault;
pub use parts::{Parts, Vacancy};
