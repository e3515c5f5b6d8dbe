//! A replica for C (`c/tiuvrokk_replica.h`), the transactions that are tried on it, the log that it reads, and those
//! that wait for it.
#![tactic(auto)]

mod ends;
mod log_handle;
mod logs;
mod replica;
mod replica_handle;
mod transaction_handle;
mod transactions;
mod waits;
mod waits_handle;
