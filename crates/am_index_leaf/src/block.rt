//! Raw memory for 32 values, after a pointer. Each function here that uses the pointer is proved by hand
//! (`proofs/block`), and no other code sees it.

ghost use Rattle.std.specs.Prelude.{◌≡◌, ◌*◌, ◌^◌, ◌<◌, ◌≤◌, List, [], take, drop, length, IfOk, slice_index_or};
ghost use Rattle.std.specs.Prelude.{slice_set, ◌∷◌, ◌++◌};
ghost use Rattle.std.specs.List.{insert, remove};
ghost use Rattle.std.specs.Mem.{type_size};

use std::alloc::{AllocError, Allocator, Global};
use std::marker::Model;
use std::mem::{align_of, size_of};
use std::ptr::{copy, copy_nonoverlapping};

/// A block of 32 places. The first ones hold values, how many is told to each function that moves
/// them; the others are raw memory.
pub(crate) struct Block<T> {
    at: *mut T,
    alloc: Global,
    ghost values: { List T },
    ghost fits: { length values ≤ 32 },
}

// A block is seen as its values. It owns its 32 places and the right to give them back, and a `&` to it
// reaches the values.
impl<T> Model for Block<T> {
    ghost use Rattle.std.specs.Prelude.{List};
    ghost use base.Stored.{coded_list};
    ghost use Rattle.am_index_leaf.specs.Blocks.{block_owns, block_lends};

    ghost Value = { List T };

    ghost coded = { coded_list T.code };

    ghost view = { λ b. b.values };

    ghost also_owns = { λ b. block_owns T.row b.alloc b.at b.values };

    ghost also_shares = { λ b _ κ. block_lends T.row b.at b.values κ };
}

// What a block owns and lends names no thread: values that may cross, raw memory, and the right to
// give it back, which any thread may use (`proofs/Crosses.antt`).
unsafe impl<T: Send> Send for Block<T> {}

unsafe impl<T: Sync> Sync for Block<T> {}

impl<T: Copy> Block<T> {
    /// A block that holds nothing yet.
    pub(crate) fn new(alloc: Global) -> Result<Block<T>, AllocError>
        requires { 32 * type_size T.row < 2 ^ 63 }
        ensures { IfOk result (λ b. b ≡ []) }
    {
        match alloc.allocate(32 * size_of::<T>(), align_of::<T>()) {
            Ok(block) => Ok(Block {
                at: block as *mut T,
                alloc,
            }),
            Err(refused) => Err(refused),
        }
    }

    /// The value at `at`.
    pub(crate) fn get(&self, at: usize) -> &T
        requires { at < length self.now }
        ensures { result.now ≡ slice_index_or self.now at result.now }
    {
        unsafe { &*self.at.add(at) }
    }

    /// Writes over the value at `at`.
    pub(crate) fn set(&mut self, at: usize, value: T)
        requires { at < length self.old }
        ensures { self.new ≡ slice_set self.old at value }
    {
        unsafe { self.at.add(at).write(value) }
    }

    /// Writes a value after the others.
    pub(crate) fn push(&mut self, len: usize, value: T)
        requires all { len ≡ length self.old }
        requires room { len < 32 }
        ensures { self.new ≡ self.old ++ value ∷ [] }
    {
        unsafe { self.at.add(len).write(value) }
    }

    /// Moves the values from `at` on up by one, and writes one there.
    pub(crate) fn insert(&mut self, len: usize, at: usize, value: T)
        requires all { len ≡ length self.old }
        requires room { len < 32 }
        requires in_range { at ≤ len }
        ensures { self.new ≡ insert self.old at value }
    {
        unsafe {
            let place = self.at.add(at);
            copy(place, place.add(1), len - at);
            place.write(value);
        }
    }

    /// Reads the value at `at`, and moves those above it down by one.
    pub(crate) fn remove(&mut self, len: usize, at: usize) -> T
        requires all { len ≡ length self.old }
        requires in_range { at < len }
        ensures value { result ≡ slice_index_or self.old at result }
        ensures others { self.new ≡ remove self.old at }
    {
        unsafe {
            let place = self.at.add(at);
            let value = place.read();
            copy(place.add(1), place, len - 1 - at);
            value
        }
    }

    /// Moves the values from `at` on to the other block, which holds none.
    pub(crate) fn split_into(&mut self, len: usize, other: &mut Block<T>, at: usize)
        requires all { len ≡ length self.old }
        requires in_range { at ≤ len }
        requires empty { other.old ≡ [] }
        ensures front { self.new ≡ take at self.old }
        ensures back { other.new ≡ drop at self.old }
    {
        unsafe { copy_nonoverlapping(self.at.add(at), other.at, len - at) }
    }
}

impl<T> Drop for Block<T> {
    // Only values that are `Copy` are ever put in, so none needs a drop of its own.
    fn drop(self) {
        let Block { at, alloc } = self;
        unsafe {
            alloc.deallocate(at as *mut u8, 32 * size_of::<T>(), align_of::<T>());
        }
    }
}
