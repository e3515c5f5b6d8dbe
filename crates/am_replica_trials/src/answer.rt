//! Answers of trials.

use am_line_dialogue::Response;
use am_record::Reply;

/// What a line is answered.
#[derive(Drop)]
pub enum TrialAnswer {
    /// The answer to its operation.
    Reply(Reply),
    /// Whether its records wait.
    Stage(Response),
    /// An earlier answer no longer comes. Each further line is answered so.
    Conflict,
    /// The block would be too large, or its answers might be. The line did nothing.
    Limit,
    /// What is wrong with the line, which did nothing.
    Faulty(Response),
    /// It is none of a transaction's lines, and did nothing: the session answers it.
    Other,
}
