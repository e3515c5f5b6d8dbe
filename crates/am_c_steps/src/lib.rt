//! What a call of C asks for, as a step of the store, and what C is told of the answer.
#![tactic(auto)]

mod answers;
mod asked_steps;
mod bringing;
mod given_records;
mod lines;
mod load_answers;
mod status;
mod structs;
mod structs_copy;
mod text;

pub use answers::{tell_key, tell_rows, tell_rows_behind, tell_value};
pub use asked_steps::{
    clean_asked, delete_asked, delete_range_asked, get_asked, insert_asked, lock_asked,
    records_asked, replace_asked, scan_asked, scan_back_asked, set_asked,
};
pub use bringing::Bringing;
pub use given_records::GivenRecords;
pub use lines::GivenLines;
pub use load_answers::{LoadFailure, failure_of, tell_load_key, without_key};
pub use status::{Status, number_told, status_told};
pub use structs::{Layout, Structs, structs_asked};
pub use text::{KeyText, Record, ValueText, range_given};
