//! A replica's store: am_store's store over a B-tree, with one transaction at a time.
//!
//! - [`ReplicaStore`]: a [`Machine`](am_replica::Machine). Its committed records are what is left where the notes of
//!   the active transaction are taken back, as an abort does.
#![tactic(auto)]

mod store;

pub use store::ReplicaStore;
