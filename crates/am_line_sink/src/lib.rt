//! Where bytes go: [`Sink`], over memory ([`StopSink`]) and over a writer of std ([`Writing`]).
#![tactic(auto)]

mod failed;
mod sink;
mod writing;

pub use failed::{Failed, falls_due, or_failed};
pub use sink::{Sink, StopSink, give_all};
pub use writing::Writing;
