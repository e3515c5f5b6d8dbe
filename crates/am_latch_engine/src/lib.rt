//! A store with the trace of its calls, each with whose it is.
//!
//! - [`Engine`]: takes steps, and stores each with its reply and whose it is. The end of an active transaction finds
//!   its room.
//! - [`Outcome`]: what came of a step.
//! - [`Piece`]: what an engine hands out of its trace.
//! - [`StepCopy`]: what the trace is to keep of a step, made before the step is taken.
//! - [`Change`]: what a step with its reply does to the transactions. `take_step` takes one, of a store over any index,
//!   that stands where a trace leaves it, and the trace goes on.
#![tactic(auto)]

mod change;
mod engine;
mod figures;
mod hand_outs;
mod room;
mod step;

pub use change::{Change, Outcome, Stored, tx_to_end, was_refused};
pub use engine::{Engine, Piece};
pub use figures::empty_figures;
pub use room::StepCopy;
