//! The texts of replies.

use crate::fault::{Fault, expect};
use crate::numbers::pairs_of;
use am_line_wire::reply_text;
use am_record::{NoMemory, Records, Reply};
use std::alloc::Global;

fn text(alloc: Global, reply: &Reply) -> Result<Vec<u8>, NoMemory> {
    match reply_text(alloc, reply) {
        Err(NoMemory) => reply_text(alloc, reply),
        outcome => outcome,
    }
}

/// The text of a reply of rows.
pub(crate) fn replies(alloc: Global) -> Result<(), Fault> {
    let rows = Reply::Rows(Records::new(pairs_of(alloc, 0, 0)?));
    expect(text(alloc, &rows)?.as_slice() == b"ROWS 0\n".as_slice())
}
