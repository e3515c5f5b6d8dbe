//! Sessions: lines in, one answer line for each, over any backend.
#![tactic(auto)]

mod awaiting;
mod backend;
mod conversation;
mod end;
mod heard;
mod parting_sink;
mod session;
mod together;

pub use backend::Backend;
pub use end::End;
pub use parting_sink::PartingSink;
pub use session::serve;
