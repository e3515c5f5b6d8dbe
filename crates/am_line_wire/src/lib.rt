//! What the lines of a session ask for, and the texts of replies.
#![tactic(auto)]

mod grammar;
mod load;
mod parse;
mod reply;
mod request;
mod shape;

pub use grammar::one_reading;
pub use parse::parse_line;
pub use reply::{put_reply, replies_are_lines, reply_text};
pub use request::{Request, WhichSessions};
