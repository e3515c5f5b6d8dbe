//! The locks that the active transactions of a trace hold, as its events come.
#![tactic(auto)]

mod asked_locks;
mod held_locks;
mod lock_requests;

pub use held_locks::HeldLocks;
