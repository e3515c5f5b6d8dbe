//! The plain map that every store is measured by: operations applied one after another, with nothing between.
//!
//! [`Plain`] is a sorted vector. It notes what changes since a mark, so that Back takes it back.
#![tactic(auto)]

mod log;
mod note;
mod plain;
mod sorted_records;

pub use plain::{Plain, alone};
