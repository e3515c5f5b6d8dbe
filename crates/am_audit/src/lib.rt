//! The auditor: whether a trace is one that a store may have made.
//!
//! [`Audit`] takes the events of a trace in their order, and keeps the committed records, the locks that are held
//! and, of each active transaction, its answered operations. These are taken again on the committed map when it
//! commits, alone. The first fault is a fact of the trace and not of the walk ([`first_faults_exclude`]).
#![tactic(auto)]

mod checker;
mod exclusion;
mod fault;
mod trace_audit;
mod verdict;

pub use exclusion::first_faults_exclude;
pub use fault::{Fault, FaultKind};
pub use trace_audit::{Audit, check};
