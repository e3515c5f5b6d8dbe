//! A value behind a pointer that may be null, as C holds it.
#![tactic(auto)]

mod held;
mod loose;

pub use held::Held;
