//! What each step does to the list of entries.
#![tactic(auto)]

mod laws;

pub use laws::{
    aborts_take_back, backs_take_back, edits_are_known, keys_are_written, maintenance_keeps,
    taking_back_is_known,
};
