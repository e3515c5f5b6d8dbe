//! The table of range locks: who holds which, and what is granted.
//!
//! An owner is an active transaction; no two owners hold conflicting locks ([`owners_never_conflict`]). Whether
//! anybody is in the way is asked in steps, each of which mostly ends the question:
//! - one table counts the locks of all owners by the key's bucket, so a lock of one key that meets nobody costs two
//!   looks, however many locks its owner has;
//! - the locks of an owner are chained by their buckets, so what an owner has at a key costs a look at the few locks of
//!   one chain, and at those of more keys than one;
//! - what is asked of more keys than one is held against an owner's locks one by one.
#![tactic(auto)]

mod chains;
mod count;
mod invariant;
mod key_counts;
mod lock_answers;
mod owner;
mod table;

pub use invariant::{owners_never_conflict, uncounted_keys_are_free};
pub use lock_answers::Asked;
pub use table::LockTable;
