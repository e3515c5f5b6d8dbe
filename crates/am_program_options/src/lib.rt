//! The command line of `amserve`: what its words ask for ([`options`]).
#![tactic(auto)]

mod amserve;
mod choice;

pub use amserve::options;
pub use choice::{Listening, Options, Place};
