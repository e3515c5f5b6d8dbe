//! Entries that are put in parts: what a writer puts, and that readers join just that.
//!
//! - [`pieces_before_head`], [`part_at`]: an entry's text, cut.
//! - [`Writer`]: which part of an entry is put now, and under which generation.
//! - [`parts_are_the_text`]: the parts, one after another.
//! - [`entries_are_handed_over`]: each entry that counts has the text that its writer handed over.
//! - [`heads_let_go_of_their_own`]: which pieces a reader lets go.
//! - [`writers_stay_on_way`]: what is put may also be done late.
//! - [`writers_keep_to_the_premise`]: so the laws of the log hold where writers put each part.
#![tactic(auto)]

mod cut;
mod laws;
mod writer;

pub use cut::{part_at, pieces_before_head};
pub use laws::{
    entries_are_handed_over, heads_let_go_of_their_own, parts_are_the_text,
    writers_keep_to_the_premise, writers_stay_on_way,
};
pub use writer::Writer;
