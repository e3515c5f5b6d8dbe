//! Two shared counters: the next number, which threads draw, and the watch, the greatest commit number published.
//!
//! - [`Counters`]: the two counters, on which each step is one atomic exchange.
//! - [`CounterSeat`]: what one thread drew, saw and published.
#![tactic(auto)]

mod counters;
mod rule;

pub use counters::{CounterSeat, Counters, CountersFault};
