//! How a text from a stranger is read as a stored trace.
//!
//! - [`read_trace`], [`read_header`], [`read_line`]: a text, its first line, and one line of an event.
//! - [`front_event`]: how the lines that come most often are read, eight and sixteen bytes at a time.
//! - [`read_by_fields`]: how any line is read, by its fields.
#![tactic(auto)]

mod cut;
mod event;
mod front;
mod header;
mod lanes;
mod line;
mod read_reply;
mod read_step;
mod shape;
mod text;
mod word;

pub use front::front_event;
pub use header::read_header;
pub use line::read_by_fields;
pub use text::{TraceFault, read_line, read_trace};
