//! Merging runs where reads asked for it (adaptive merging: Graefe and Kuno, EDBT 2010), and cleaning ghosts away.
//! - [`Wishes`]: the ranges that reads asked for, the oldest first, 64 at most.
//! - [`merge_step`]: moves entries of the oldest wish's range into the final partition, by rising keys of one run
//!   after another, stretches of neighbours at a time. A record that somebody has locked stays.
//! - [`next_in_runs`]: the next piece of a range to merge where nobody asked.
//! - [`clean_step`]: takes ghosts out that nobody has locked, and goes from ghost to ghost.
#![tactic(auto)]

mod clean;
mod laws;
mod merge;
mod unasked;
mod walk;
mod wishes;

pub use clean::clean_step;
pub use laws::holders_are_known;
pub use merge::merge_step;
pub use unasked::next_in_runs;
pub use wishes::Wishes;
