//! A store for C.
#![tactic(auto)]

mod loads;
mod puts;
mod ranges;
mod records;
mod store;
mod transactions;
