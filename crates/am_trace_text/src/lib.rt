//! What the text of a stored trace is: its first line, and the lines of its events.
//!
//! - [`Header`]: what the first line says, which is a [`Version`] of the lines or the [`StoreLimits`] of the store.
//! - [`Version`], [`needs_three`]: which events a version can write.
//! - [`traces_are_texts`], [`lines_are_alike`], [`needed_version_writes`]: laws.
#![tactic(auto)]

mod digits;
mod header;
mod laws;
mod read;
mod store_limits;
mod version;

pub use digits::{byte_of, digit_of};
pub use header::Header;
pub use laws::{lines_are_alike, needed_version_writes, traces_are_texts};
pub use read::ReadFault;
pub use store_limits::StoreLimits;
pub use version::{Version, needs_three};
