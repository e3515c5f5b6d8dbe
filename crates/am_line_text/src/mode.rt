//! Modes of locks in lines.

ghost use Rattle.std.specs.Prelude.{◌≡◌};
ghost use Rattle.am_line_text.specs.Locks.{mode_for};

use am_record::Mode;

/// The mode of a field.
pub fn parse_mode(field: &[u8]) -> Option<Mode>
    ensures { result ≡ mode_for field.now }
{
    if field == b"S".as_slice() {
        Some(Mode::Shared)
    } else if field == b"X".as_slice() {
        Some(Mode::Exclusive)
    } else {
        None
    }
}
