//! Two indexes to test by: one sorted vector, with which others are compared, and one that stands for a machine that is
//! short of memory.
#![tactic(auto)]

mod list_index;
mod tight;

pub use list_index::ListIndex;
pub use tight::Tight;
