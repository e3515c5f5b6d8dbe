//! Vectors whose room was got once.

ghost use Rattle.std.specs.Prelude.{◌≡◌, ◌+◌, ◌<◌, ◌≤◌, ◌==◌, [], take, drop, vec_len};
ghost use Rattle.std.specs.Prelude.{vec_capacity, IfOk, if◌then◌else◌};
ghost use Rattle.std.specs.List.{insert, remove};
ghost use Rattle.am_index_btree.specs.Splits.{lower_size};

use std::alloc::{AllocError, Global};

/// How many entries or children a node has room for.
pub(crate) const ROOM: usize = 32;

/// An empty vector with room for a node.
pub(crate) fn with_room<T>(alloc: Global) -> Result<Vec<T>, AllocError>
    ensures items { IfOk result (λ v. v.items ≡ []) }
    ensures room { IfOk result (λ v. 32 ≤ vec_capacity v) }
{
    Vec::with_capacity(alloc, ROOM)
}

/// Puts a value at the index, where there is room.
pub(crate) fn put<T: Drop>(v: &mut Vec<T>, at: usize, x: T)
    requires in_range { at ≤ vec_len v.old }
    requires room { vec_len v.old < vec_capacity v.old }
    ensures items { v.new.items ≡ insert v.old.items at x }
    ensures capacity { vec_capacity v.new ≡ vec_capacity v.old }
{
    let Ok(()) = v.insert(at, x) else {
        unreachable!()
    };
}

/// Drops the value at the index.
pub(crate) fn take_out<T: Drop>(v: &mut Vec<T>, at: usize)
    requires { at < vec_len v.old }
    ensures items { v.new.items ≡ remove v.old.items at }
    ensures capacity { vec_capacity v.new ≡ vec_capacity v.old }
{
    let _ = v.remove(at);
}

/// Moves the values from the index on to an empty vector that has room for them.
pub(crate) fn move_tail<T: Drop>(from: &mut Vec<T>, at: usize, to: &mut Vec<T>)
    requires in_range { at ≤ vec_len from.old }
    requires empty { to.old.items ≡ [] }
    requires room { vec_len from.old ≤ at + vec_capacity to.old }
    ensures front { from.new.items ≡ take at from.old.items }
    ensures back { to.new.items ≡ drop at from.old.items }
    ensures capacity { (vec_capacity from.new ≡ vec_capacity from.old) × (vec_capacity to.new ≡ vec_capacity to.old) }
{
    while from.len() > at {
        let Some(x) = from.pop() else { unreachable!() };
        let end = to.len();
        put(to, end, x);
    }
    to.reverse();
}

/// How many of a full node's values stay, where a new one comes to the index. Where it comes after them, all do: so
/// what comes in order fills nodes, wherever in the tree it goes.
pub(crate) fn keep_of(at: usize) -> usize
    requires { at ≤ 32 }
    ensures size { result ≡ (if at == 32 then 32 else 16) }
    ensures keeps { (0 < result) × (result ≤ 32) }
    ensures room { at < result → result < 32 }
{
    if at == ROOM { ROOM } else { ROOM / 2 }
}

/// Puts a value at the index of a full vector, the upper part of which is moved to an empty one.
pub(crate) fn split_put<T: Drop>(v: &mut Vec<T>, keep: usize, at: usize, x: T, upper: &mut Vec<T>)
    requires full { vec_len v.old ≡ 32 }
    requires in_range { at ≤ 32 }
    requires keeps { (0 < keep) × (keep ≤ 32) }
    requires room { at < keep → keep < 32 }
    requires empty { upper.old.items ≡ [] }
    requires capacity { (32 ≤ vec_capacity v.old) × (32 ≤ vec_capacity upper.old) }
    ensures front { v.new.items ≡ take (lower_size keep at) (insert v.old.items at x) }
    ensures back { upper.new.items ≡ drop (lower_size keep at) (insert v.old.items at x) }
    ensures capacity { (vec_capacity v.new ≡ vec_capacity v.old) × (vec_capacity upper.new ≡ vec_capacity upper.old) }
{
    move_tail(v, keep, upper);
    if at < keep {
        put(v, at, x);
    } else {
        put(upper, at - keep, x);
    }
}
