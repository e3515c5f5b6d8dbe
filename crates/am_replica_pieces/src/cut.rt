//! The parts of an entry's text.

ghost use Rattle.std.specs.Prelude.{◌≡◌, ◌≤◌, ◌<◌, length};
ghost use Rattle.am_replica_pieces.specs.Cut.{before_head, part_at, bytes_at};

use am_replica_log::Part;

/// How many pieces are put before the head, where no part may have more than so many bytes.
pub fn pieces_before_head(most: usize, text: &[u8]) -> u64
    requires { 0 < most }
    ensures { result ≡ before_head most text.now }
{
    (text.len().saturating_sub(1) / most) as u64
}

/// The part of a number, and its bytes. It is put once all parts before it were put under the same generation.
pub fn part_at(most: usize, text: &[u8], number: u64) -> (Part, &[u8])
    requires most { 0 < most }
    requires here { number ≤ before_head most text.now }
    ensures part { result.0 ≡ part_at most text.now number }
    ensures bytes { result.1.now ≡ bytes_at most text.now number }
    ensures few { length result.1.now ≤ most }
{
    let rest = &text[number as usize * most..];
    let bytes = &rest[..most.min(rest.len())];
    if number == pieces_before_head(most, text) {
        (Part::Head, bytes)
    } else {
        (Part::Piece(number), bytes)
    }
}
