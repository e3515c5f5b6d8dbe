//! A replica's core: the log's blocks, into a store, one after another; and the trials of transactions.
//!
//! - [`Machine`]: the store, and [`Digest`], the digest of answers: what a replica needs of them.
//! - [`Replica`]: commits a block or refuses it, by the answers that its lines get now.
//! - [`Transaction`]: lines that are answered before they are a block, all by one state.
//! - [`committed_blocks_are_serial`], [`told_answers_are_one_states`], [`reads_leave_the_map`]: what comes of it.
#![tactic(auto)]

mod block;
mod laws;
mod machine;
mod replica;
mod transaction;

pub use block::{Block, Outcome};
pub use laws::{committed_blocks_are_serial, reads_leave_the_map, told_answers_are_one_states};
pub use machine::{Digest, Machine};
pub use replica::Replica;
pub use transaction::{Transaction, TrialFault};
