//! What an index over partitions is: it is seen as one sorted list of entries, however it keeps them.
#![tactic(auto)]

mod batch;
mod figures;
mod hint;
mod laws;
mod part_index;
mod record_source;

pub use batch::Batch;
pub use figures::Figures;
pub use hint::{Hint, PLACES_AT_ONCE, STEPS};
pub use laws::{
    content_follows, edits_follow, reads_follow, rows_follow, runs_follow, walks_follow,
};
pub use part_index::PartIndex;
pub use record_source::{Listed, RecordSource};
