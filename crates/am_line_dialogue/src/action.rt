//! What is due for a line.

use crate::response::Response;
use am_line_wire::WhichSessions;
use am_record::Step;

/// What is due for a line.
#[derive(Drop)]
pub enum Action {
    /// A response at once.
    Answer(Response),
    /// A step of the store, whose reply is the response.
    Take(Step),
    /// What SEEN tells.
    TellSeen,
    /// What the backend answers who would hold it for so many milliseconds.
    AskHold(u64),
    /// Which sessions there are, of these, as the backend tells.
    TellWho(WhichSessions),
    /// What the backend answers who would end the session of this number.
    AskEnd(u64),
}
