//! Scans: the records of a range of keys, over all partitions of an index, by rising key or from the highest key down.
//!
//! A run that stands apart is opened only where its range meets what is read. Where runs that lie in a piece of the
//! range have enough records, the piece alone is read: the rows of a piece that begins where the range does are the
//! first ones of the range.
//!
//! A [`Cursor`] has a head for each partition that may have rows: some rows, copied by one descent, about the
//! partition's share of what is asked for. A heap gives the head whose key is read first. At its rows' end a head reads
//! on from its last record, into the same room. Where one partition alone has rows they are copied from its leaves,
//! without a heap. The direction is a parameter of the types.
#![tactic(auto)]

mod cursor;
mod direction;
mod head;
mod heads;
mod laws;
mod scans;

pub use cursor::Cursor;
pub use laws::{scans_back_fall, scans_rise};
pub use scans::{scan, scan_back};
