//! The entries of the log that replicas read, as bytes: whole transactions, their lines, and what they were told.
//!
//! - [`Block`]: a transaction, and [`Told`], what it was told before it was put.
//! - [`entry_text`], [`read_entry`]: an entry's text, and the entry of a text, or the first [`Fault`] in it.
//! - [`texts_are_apart`]: no two entries have one text.
//!
//! A text is a byte that names its form, the number of its blocks, and the blocks. A block is the length of its lines,
//! the lines, and a byte 0; or a byte 1, how many lines were answered, and the digest of the answers. Numbers have four
//! bytes, the highest first. The form is 1. Another one may be of entries that are compressed; no form is a digit, with
//! which entries began before they had forms.
#![tactic(auto)]

mod block;
mod fault;
mod laws;
mod reading;
mod writing;

pub use block::{Block, Told};
pub use fault::{Fault, ReadError};
pub use laws::texts_are_apart;
pub use reading::read_entry;
pub use writing::entry_text;
