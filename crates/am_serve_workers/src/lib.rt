//! Threads that merge, clean and read on the seats of a latch, by turns.
//!
//! - [`run_workers`]: one thread for each seat, each with its turns.
//! - [`WorkerSeats`]: the seats as their workers left them, and how many entries were moved.
#![tactic(auto)]

mod clean_turn;
mod read_turn;
mod turns;
mod workers;

pub use workers::{WorkerSeats, run_workers};
