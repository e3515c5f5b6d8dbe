//! Loading a run into the partitions, all of it or none.
//!
//! The records are read where they lie. The final partition is walked through beside them. Where none of their keys is
//! live there, the partitions append them, unless one is live in a run. The least live key is looked for only then.
#![tactic(auto)]

mod look;
mod run_load;
mod walk;

pub use run_load::load;
