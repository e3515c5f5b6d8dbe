//! A session alone: lines in, one answer line for each, on a store of its own.
#![tactic(auto)]

mod alone;
mod solo;

pub use alone::{serve_alone, serve_in_memory};
