//! Filters: whether a key may be in a run.
//!
//! A [`Filter`] is a table of words with four numbers a word, sixteen bits each. A number, the hash of a key, names a
//! word by its upper 32 bits and five bits of that word by its lower 30. These are set when it is entered, and never
//! cleared. So whatever was entered is said to be maybe there, and of what was not, less than one in two hundred is
//! (Putze, Sanders and Singler, Cache-, Hash- and Space-Efficient Bloom Filters, 2007).
#![tactic(auto)]

mod filter;

pub use filter::Filter;
