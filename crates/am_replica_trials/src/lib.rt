//! A transaction over texts, as a client's session has it before it is a block of the log.
//!
//! - [`LineTransaction`]: its lines are tried one after another, each answered by the state of the moment. They are
//!   kept as the bytes of its block, which a replica reads as the same operations ([`LineTransaction::into_block`]).
//! - [`OpenTrial`]: a transaction's trial, which stays open in the store until something else comes.
//! - [`TrialAnswer`]: what a line is answered.
//! - [`blocks_stand_where_trials_do`]: the block commits where all answers come again.
//! - [`answers_are_no_longer`]: what a line needs of the room for answers.
#![tactic(auto)]

mod answer;
mod laws;
mod open;
mod transaction;

pub use answer::TrialAnswer;
pub use laws::{answers_are_no_longer, blocks_stand_where_trials_do};
pub use open::OpenTrial;
pub use transaction::LineTransaction;
