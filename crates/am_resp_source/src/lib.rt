//! Requests of redis's protocol, cut from bytes that come in pieces.
#![tactic(auto)]

mod heard;
mod line;
mod reader;
mod stage;

pub use heard::{Heard, HeardWord, HeardWords, OwnBytes};
pub use reader::RequestReader;
