//! What ties receipts, and what was handed out, to one trace: tables of one word, which never change, under rules over
//! the views of tokens.
//!
//! - [`CallId`], [`Events`]: whose call a pair of the trace is, and what is handed out of it.
//! - [`Receipt`]: what a seat knows of a call.
//! - [`ViewTable`], [`Token`], [`View`]: a token knows the trace, and that of each seat just the receipts of its calls
//!   in it.
//! - [`TakenTable`], [`TakenToken`], [`TakenView`]: a taker's token knows just what was handed out.
//!
//! What a token knows stands in contracts alone: it takes no memory.
#![tactic(auto)]

mod call_id;
mod events;
mod receipt;
mod taker_tie;
mod view_steps;
mod views;

pub use call_id::CallId;
pub use events::Events;
pub use receipt::Receipt;
pub use taker_tie::{TakenTable, TakenToken, TakenView, hand_over, split_taker};
pub use view_steps::{append_call, compare_receipts, end_minting, mint_seat};
pub use views::{Token, View, ViewTable};
