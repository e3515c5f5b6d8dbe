//! What a seat knows of a call.

use am_record::{Reply, Step};

/// One call of a seat: the step and its reply, and where the pair stands in the trace. No value of it is made: the pair
/// is stored in the trace alone, and a seat keeps the position.
pub struct Receipt {
    pub seat: u64,
    /// The calls of a seat are numbered from 0.
    pub call: u64,
    pub step: Step,
    pub reply: Reply,
    pub position: u64,
}
