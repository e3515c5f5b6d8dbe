//! What C holds of a replica: a pointer, null where there is none. The two functions here that make a handle or reach
//! its pointer are proved by hand (`proofs/replica_handle`), and no other code sees it.

ghost use Rattle.std.specs.Prelude.{◌≡◌, Option as Maybe, None as Nothing, Some as Just};
ghost use Rattle.std.specs.Coded.{coded_option};
ghost use Rattle.am_c_handle.specs.Ownership.{IsSame};
ghost use Rattle.am_replica_desk.specs.Desks.{DeskState, desk_code};

use am_c_handle::Held;
use am_replica_desk::Desk;
use std::alloc::Global;
use std::marker::Model;
use std::mem::replace;

/// A replica as C holds it: `tvk_replica` of the header. What it owns is known by `held`.
#[repr(C)]
pub struct ReplicaHandle {
    at: *mut u8,
    alloc: Global,
    pub ghost held: { Maybe DeskState } by { coded_option desk_code },
}

impl Model for ReplicaHandle {
    ghost use Rattle.am_c_handle.specs.Ownership.{held_owns};
    ghost use Rattle.am_c_replica.specs.Rows.{desk_row};

    ghost also_owns = { λ h. held_owns desk_row h.alloc h.at h.held };
}

impl ReplicaHandle {
    fn of(held: Held<Desk>) -> ReplicaHandle
        ensures { result.held ≡ held.value }
    {
        let Held { at, alloc } = held;
        ReplicaHandle {
            at: at as *mut u8,
            alloc,
        }
    }

    fn into_held(self) -> Held<Desk>
        ensures { result.value ≡ self.held }
    {
        let ReplicaHandle { at, alloc } = self;
        Held {
            at: at as *mut Desk,
            alloc,
        }
    }

    /// Takes the replica out, and leaves the handle without one.
    pub(crate) fn take(&mut self, alloc: Global) -> Option<Box<Desk>>
        ensures replica { IsSame (λ b. b.value) result self.old.held }
        ensures closed { self.new.held ≡ Nothing }
    {
        replace(self, ReplicaHandle::of(Held::none(alloc)))
            .into_held()
            .into_box()
    }

    /// Puts a replica after the handle. What was there before is dropped.
    pub(crate) fn put(&mut self, desk: Box<Desk>)
        ensures { self.new.held ≡ Just desk.value }
    {
        let old = replace(self, ReplicaHandle::of(Held::of(desk)));
        drop(old.into_held().into_box());
    }
}
