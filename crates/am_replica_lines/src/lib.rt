//! A block of an entry, as a replica takes it: what its lines ask for, each as the session of a store takes it.
//!
//! - [`read_block`]: the block of am_replica, with its operations, or why it is none ([`BlockFault`]).
//! - [`cut_line`], [`parse_cut`], [`take_along`] and [`stage`]: what it does line by line.
//!
//! Lines are those of am_line_source, read by am_line_dialogue. A line may ask for an operation, or have records wait
//! for the next load or put; what they come to between BEGIN and COMMIT is am_replica_blocks' theorem.
#![tactic(auto)]

mod fault;
mod line;
mod reading;

pub use fault::BlockFault;
pub use line::{cut_line, parse_cut, stage, take_along};
pub use reading::read_block;
