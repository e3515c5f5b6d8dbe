//! The active transactions: their numbers, counts of operations, undo notes and locks.
#![tactic(auto)]

mod transaction;
mod tx_table;

pub use tx_table::TxTable;
