//! What a session answers: what each line says, what is due for it, and what a session on a store of its own says.
//!
//! A line is parsed to an [`Action`], which becomes a step or is answered as it is. Records that are staged wait in
//! the [`Session`] until `LOAD`. What a session says is a list of responses, one for each line, and its text is
//! theirs.
#![tactic(auto)]

mod action;
mod laws;
mod lines;
mod response;
mod session;
mod told_sessions;

pub use action::Action;
pub use laws::{answers_are_lines, found_memory_is_said, sound_dialogues_say, staging_is_loading};
pub use lines::{ParsedLine, parse};
pub use response::{EndAnswer, HoldAnswer, Response, put_response};
pub use session::{Session, active_behind};
pub use told_sessions::{Standing, ToldSession, ToldSessions};
