//! A trace that is taken piece by piece while its server runs.
//!
//! - [`PieceTaker`]: who takes the pieces. [`LetGo`] lets them go, [`TraceWriter`] writes their lines to a sink.
//! - [`EventCounts`], [`TraceCounts`]: what their events were.
#![tactic(auto)]

mod events;
mod pieces;
mod trace_writer;

pub use events::{EventCounts, TraceCounts};
pub use pieces::{LetGo, PieceTaker};
pub use trace_writer::TraceWriter;
