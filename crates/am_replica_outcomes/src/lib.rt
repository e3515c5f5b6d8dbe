//! What the clients of a replica are told: texts.
//!
//! - [`take_text`]: takes the text of an entry in its turn, and tells the clients of its blocks what they came to.
//! - [`outcome_text`]: one of them: the answers that it hasn't yet, and the number of the commit; or to each line that
//!   it has no answer to that the block doesn't stand, and did nothing.
//! - [`trial_text`]: what a line is answered before there is a block.
#![tactic(auto)]

mod entry;
mod outcome;
mod trial;

pub use entry::take_text;
pub use outcome::outcome_text;
pub use trial::trial_text;
