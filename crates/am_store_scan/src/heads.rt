//! The heads with which a cursor begins, and the one of several that is read first.

ghost use Rattle.std.specs.Prelude.{◌≤◌, ◌∷◌, IfOk, Some};
ghost use Rattle.std.specs.List.{cons_option};
ghost use Rattle.std.specs.List.Sorted.{IsPermutation};
ghost use Rattle.std.specs.BinaryHeap.{heap_items, IsHeap};
ghost use Rattle.am_store_scan.specs.Heads.{head_cmp};
ghost use Rattle.am_store_scan.specs.Cursors.{AreSources, AreAllHeads, IsFirstBeside};

use crate::direction::Direction;
use crate::head::Head;
use am_index::{Hint, PLACES_AT_ONCE, PartIndex};
use am_index_parts::Parts;
use am_record::{NoMemory, Range};
use std::alloc::Global;
use std::collections::BinaryHeap;
use std::mem;

/// The heads of those of the partitions that have a record in the range, each at the one that is read first. They
/// read so many rows at once.
///
/// # Errors
/// NoMemory, where memory was refused.
pub(crate) fn heads_of<D: Direction, I: PartIndex + Drop>(
    alloc: Global,
    parts: &Parts<I>,
    range: Range,
    sources: &[u32],
    room: usize,
) -> Result<BinaryHeap<Head<D>>, NoMemory>
    requires room { 2 ≤ room }
    requires sources { AreSources parts.now.entries range sources.now }
    ensures { IfOk result (λ heads. AreAllHeads D.is_back parts.now.entries range (heap_items heads)) }
{
    let mut heads = BinaryHeap::new(alloc);
    let mut hints = [Hint::none(); PLACES_AT_ONCE];
    for at in 0..sources.len() {
        let passed = at % PLACES_AT_ONCE;
        if passed == 0 {
            // Those of the next ones, looked for side by side, so that the memory of all comes at once.
            hints = parts.hints_in(&sources[at..], D::first_key(range));
        }
        let first = Head::<D>::first(alloc, parts, range, sources[at], room, hints[passed])?;
        if let Some(head) = first {
            heads.push(head)?;
        }
    }
    Ok(heads)
}

/// Takes the head that is read first out of the heap, if there is one.
pub(crate) fn pop_first<D: Direction>(others: &mut BinaryHeap<Head<D>>) -> Option<Head<D>>
    requires { IsHeap (head_cmp D.is_back) (heap_items others.old) }
    ensures same { IsPermutation (heap_items others.old) (cons_option result (heap_items others.new)) }
    ensures first { IsFirstBeside D.is_back result (heap_items others.new) }
{
    others.pop()
}

/// Lets a head change places with the first of the others, where that one is read before it. Takes no memory.
pub(crate) fn keep_first<D: Direction>(head: &mut Head<D>, others: &mut BinaryHeap<Head<D>>)
    requires { IsHeap (head_cmp D.is_back) (heap_items others.old) }
    ensures same { IsPermutation (head.old ∷ heap_items others.old) (head.new ∷ heap_items others.new) }
    ensures first { IsFirstBeside D.is_back (Some head.new) (heap_items others.new) }
{
    let Some(other) = others.peek() else {
        return;
    };
    if *other <= *head {
        return;
    }
    let Some(mut first) = others.peek_mut() else {
        unreachable!()
    };
    mem::swap(&mut *first, head);
}
