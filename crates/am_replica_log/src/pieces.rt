//! Entries of several parts: those that came, and the entry that they make.

ghost use Rattle.std.specs.Prelude.{◌≡◌, ◌++◌, IfOk, OnOk};
ghost use Rattle.am_replica_log.specs.History.{pieces_behind, are_in_turn, joined, ended_by, first_behind};

use crate::event::{Name, Part};
use crate::text::Text;
use std::alloc::{AllocError, Global};

/// A part of an entry whose head hasn't come: which one it is, the revision at which it came, and its bytes.
#[derive(Drop)]
pub struct Piece {
    pub entry: Name,
    pub number: u64,
    pub revision: u64,
    pub text: Text,
}

/// An entry that counts, and its bytes: none where a piece before its head didn't come, or not in its turn.
#[derive(Drop)]
pub struct Entry {
    pub name: Name,
    pub text: Option<Text>,
}

/// Takes a part that counts: a piece is kept, and a head ends its entry.
pub(crate) fn take_part(
    alloc: Global,
    pieces: &mut Vec<Piece>,
    revision: u64,
    entry: Name,
    part: Part,
    text: &[u8],
) -> Result<Option<Entry>, AllocError>
    ensures kept { OnOk result (pieces.new.items ≡ pieces_behind entry part revision text.now pieces.old.items) }
    ensures ended { IfOk result (λ e. e ≡ ended_by entry part text.now pieces.old.items) }
{
    match part {
        Part::Piece(number) => {
            let text = Text::copy_of(alloc, text)?;
            pieces.push(Piece {
                entry,
                number,
                revision,
                text,
            })?;
            Ok(None)
        }
        Part::Head => {
            let text = joined(alloc, entry, pieces, text)?;
            pieces.retain(|piece| !piece.entry.is(entry));
            Ok(Some(Entry { name: entry, text }))
        }
    }
}

// Whether the entry's pieces are those of the numbers 0, 1 and so on, in this order.
fn are_in_turn(entry: Name, pieces: &[Piece]) -> bool
    ensures { result ≡ are_in_turn 0 entry pieces.now }
{
    let mut next = 0;
    for piece in pieces {
        if piece.entry.is(entry) {
            if piece.number != next {
                return false;
            }
            next += 1;
        }
    }
    true
}

// The entry's pieces, one after another, and its head, where all came in their turn.
fn joined(
    alloc: Global,
    entry: Name,
    pieces: &[Piece],
    head: &[u8],
) -> Result<Option<Text>, AllocError>
    ensures { IfOk result (λ text. text ≡ joined entry pieces.now head.now) }
{
    if !are_in_turn(entry, pieces) {
        return Ok(None);
    }
    let mut text = Text::new(alloc);
    for piece in pieces {
        if piece.entry.is(entry) {
            text.add(piece.text.as_slice())?;
        }
    }
    text.add(head)?;
    Ok(Some(text))
}

/// After which revision a reader has to begin who knows all entries up to the given one: others may have begun before.
pub(crate) fn first_behind(revision: u64, pieces: &[Piece]) -> u64
    ensures { result ≡ first_behind revision pieces.now }
{
    let mut first = revision;
    for piece in pieces {
        first = first.min(piece.revision.saturating_sub(1));
    }
    first
}
