//! What C holds of a store: a pointer, null where there is none. The two functions here that make a handle or reach its
//! pointer are proved by hand (`proofs/handle`), and no other code sees it.

ghost use Rattle.std.specs.Prelude.{◌≡◌, Option as Maybe, None as Nothing, Some as Just};
ghost use Rattle.am_law_sound.specs.StoreState.{StoreState};
ghost use Rattle.am_store.specs.StoreContent.{state_code};
ghost use Rattle.std.specs.Coded.{coded_option};
ghost use Rattle.am_c_handle.specs.Ownership.{IsSame};

use am_c_handle::Held;
use am_index_btree::BTree;
use am_store::Store;
use std::alloc::Global;
use std::marker::Model;
use std::mem::replace;

/// A store as C holds it: `tvk_store` of the header. What it owns is known by `held`.
#[repr(C)]
pub struct Handle {
    at: *mut u8,
    alloc: Global,
    pub ghost held: { Maybe StoreState } by { coded_option state_code },
}

impl Model for Handle {
    ghost use Rattle.am_c_handle.specs.Ownership.{held_owns};
    ghost use Rattle.am_c_store.specs.StoreRow.{store_row};

    ghost also_owns = { λ h. held_owns store_row h.alloc h.at h.held };
}

impl Handle {
    fn of(held: Held<Store<BTree>>) -> Handle
        ensures { result.held ≡ held.value }
    {
        let Held { at, alloc } = held;
        Handle {
            at: at as *mut u8,
            alloc,
        }
    }

    fn into_held(self) -> Held<Store<BTree>>
        ensures { result.value ≡ self.held }
    {
        let Handle { at, alloc } = self;
        Held {
            at: at as *mut Store<BTree>,
            alloc,
        }
    }

    /// Takes the store out, and leaves the handle without one.
    pub(crate) fn take(&mut self, alloc: Global) -> Option<Box<Store<BTree>>>
        ensures store { IsSame (λ b. b.value) result self.old.held }
        ensures closed { self.new.held ≡ Nothing }
    {
        replace(self, Handle::of(Held::none(alloc)))
            .into_held()
            .into_box()
    }

    /// Puts a store after the handle. What was there before is dropped.
    pub(crate) fn put(&mut self, store: Box<Store<BTree>>)
        ensures { self.new.held ≡ Just store.value }
    {
        let old = replace(self, Handle::of(Held::of(store)));
        drop(old.into_held().into_box());
    }
}
