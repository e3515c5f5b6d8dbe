//! A store under one latch, whose calls stand in one trace, and seats that keep a receipt for each call.
//!
//! - [`Blank`], [`Latch`]: an [`am_latch_engine::Engine`] under a lock, and its seats.
//! - [`Seat`]: calls through the latch, with a receipt for each; [`CommitReceipt`] says that a commit stands.
//! - [`Locked`]: the latch, held from one call to the next.
//! - [`Taker`]: who takes what the latch hands out of its trace.
//! - [`close`]: when the threads have ended, receipts and trace are the same.
//!
//! A rule over views ties the receipts to the trace, so that what is open in a seat is one of the
//! store's active transactions, and its end always finds its room.
#![tactic(auto)]

mod latch;
mod latch_end;
mod latch_name;
mod locked;
mod receipt;
mod seat;
mod state;
mod taker;

pub use latch::{Blank, Latch, LatchFault, MAX_SEATS};
pub use latch_end::{Closed, Missing, close};
pub use latch_name::LatchName;
pub use locked::Locked;
pub use receipt::CommitReceipt;
pub use seat::Seat;
pub use taker::Taker;
