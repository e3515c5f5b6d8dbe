//! A store behind a handle of C: it is opened and closed, takes steps and loads, and tells its figures and
//! what is left to merge.
#![tactic(auto)]

mod figures;
mod fronts;
mod handle;
mod runs;
mod store;
mod store_steps;

pub use figures::{StoreFigures, tell_figures};
pub use fronts::tell_next_in_runs;
pub use handle::Handle;
pub use runs::tell_runs;
pub use store::{close_store, open_store, tell_commits, tell_entries};
pub use store_steps::{take_step, tell};
