//! Where bytes come from, and the lines cut from them.
#![tactic(auto)]

mod input;
mod line;
mod peer_source;
mod reading;
mod source;

pub use input::{Input, read_line};
pub use line::{Coming, FoundLine, LineBuffer, LineKind, MAX_LINE_LEN};
pub use peer_source::AnsweredSource;
pub use reading::{Reading, streams_are_those_of_std};
pub use source::{PieceSource, Source};
