//! Runs: records that rise by key, and cutting records in any order into them.
//!
//! Records are sorted by the first eight bytes of their keys, as numbers, each with its record's place, and stay where
//! they lie. Keys are compared only where two of these numbers are equal.
#![tactic(auto)]

mod arrange;
mod cut;
mod fault;
mod fronts;
mod ordered;
mod record_order;
mod run;
mod ties;

pub use am_index::RecordSource;
pub use arrange::Arrange;
pub use cut::{Cut, cut_runs, cut_source};
pub use fault::LoadFault;
pub use ordered::Ordered;
pub use record_order::Spot;
pub use run::Run;
