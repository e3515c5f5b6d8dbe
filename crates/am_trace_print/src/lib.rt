//! How events are written as lines of a stored trace.
#![tactic(auto)]

mod field;
mod print;
mod step;
mod text;

pub use text::{event_lines, trace_text};
