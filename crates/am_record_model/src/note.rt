//! Notes of what changes overwrote.

use am_record::{Key, Value};

/// What stands under a key in memory: a value, or the place of a record that is deleted, which can be filled again
/// without memory.
pub(crate) type Slot = Option<Value>;

/// What stood under a key before it was changed, a slot or nothing.
#[derive(Clone, Copy)]
pub(crate) struct Note {
    pub(crate) key: Key,
    pub(crate) before: Option<Slot>,
}
