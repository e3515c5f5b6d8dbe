//! What a session of the server stands on: a seat of the latch, with a seat of the two shared counters.
//!
//! - [`SessionSeat`]: the two seats as the backend of a session. A commit is published before it is answered.
//! - [`assign_seats`], [`take_seats`]: seats of the latch become those of sessions and of workers, and are taken back.
//! - [`sessions_have_receipts`]: whatever a session is answered, its seat has the receipts.
#![tactic(auto)]

mod laws;
mod seats;
mod session_seat;
mod told;

pub use laws::sessions_have_receipts;
pub use seats::{assign_seats, take_seats};
pub use session_seat::SessionSeat;
