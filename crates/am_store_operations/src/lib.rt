//! Operations of transactions: what each does to the partitions and to its transaction's log, once its lock is
//! granted.
//!
//! Each gets all the room that it needs first, and then changes anything. [`carry_out`] is the way in, and
//! [`load_records`] that of a load whose records stand elsewhere.
#![tactic(auto)]

mod delete_range;
mod loads;
mod operation;
mod puts;
mod reads;
mod savepoints;
mod writes;

pub use loads::load_records;
pub use operation::carry_out;
