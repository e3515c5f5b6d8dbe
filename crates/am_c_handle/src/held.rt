//! A pointer to a box, null where there is none. Each function here that makes one or reaches its pointer is proved by
//! hand (`proofs/held`).

ghost use Rattle.std.specs.Prelude.{◌≡◌, Option as Maybe, None as Nothing, Some as Just};
ghost use Rattle.std.specs.Coded.{coded_option};
ghost use Rattle.am_c_handle.specs.Ownership.{IsSame};

use crate::loose::Loose;
use std::alloc::Global;
use std::marker::Model;
use std::ptr::null_mut;

/// A box as its pointer, or null. What it owns is known by `value`. A handle of C has such fields too: its crate moves
/// them over to this, and back.
pub struct Held<T> {
    pub at: *mut T,
    pub alloc: Global,
    pub ghost value: { Maybe T } by { coded_option T.code },
}

impl<T> Model for Held<T> {
    ghost use Rattle.am_c_handle.specs.Ownership.{held_owns};

    ghost also_owns = { λ h. held_owns T.row h.alloc h.at h.value };
}

impl<T> Held<T> {
    /// No value: the pointer is null.
    pub fn none(alloc: Global) -> Held<T>
        ensures { result.value ≡ Nothing }
    {
        Held {
            at: null_mut(),
            alloc,
        }
    }

    fn of_loose(loose: Loose<T, Global>) -> Held<T>
        ensures { result.value ≡ Just loose.value }
    {
        let Loose { at, alloc } = loose;
        Held { at, alloc }
    }

    fn into_loose(self) -> Option<Loose<T, Global>>
        ensures { IsSame (λ l. l.value) result self.value }
    {
        let Held { at, alloc } = self;
        if at.is_null() {
            None
        } else {
            Some(Loose { at, alloc })
        }
    }
}

impl<T: Drop> Held<T> {
    /// The value of the box.
    pub fn of(value: Box<T>) -> Held<T>
        ensures { result.value ≡ Just value.value }
    {
        Held::of_loose(Loose::of(value))
    }

    /// The box of the value, where there is one.
    pub fn into_box(self) -> Option<Box<T>>
        ensures { IsSame (λ b. b.value) result self.value }
    {
        match self.into_loose() {
            Some(loose) => Some(loose.into_box()),
            None => None,
        }
    }
}
