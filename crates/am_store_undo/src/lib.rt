//! What a transaction changed, noted so that it can be taken back.
#![tactic(auto)]

mod laws;
mod note;
mod undo_log;

pub use laws::{marks_follow, undo_follows};
pub use note::Note;
pub use undo_log::UndoLog;
