//! A replica from the texts of the log's entries on: each block's lines are read, and applied in their order.
//!
//! - [`apply_entry`], [`apply_text`]: take an entry, or its text, into a replica, whole or not at all.
//! - [`texts_have_one_outcome`]: what an entry comes to is a function of its text and of where the replica stands.
//!
//! A text that is no entry, or of which a line is none of a block's, does nothing at any replica: no writer puts one.
#![tactic(auto)]

mod apply;
mod blocks;
mod laws;

pub use apply::{EntryOutcome, apply_entry, apply_text};
pub use laws::texts_have_one_outcome;
