//! What C holds of those that wait: a pointer, null where there is none. The two functions here that make a handle or
//! reach its pointer are proved by hand (`proofs/waits_handle`), and no other code sees it.

ghost use Rattle.std.specs.Prelude.{◌≡◌, Option as Maybe, None as Nothing, Some as Just};
ghost use Rattle.std.specs.Coded.{coded_option};
ghost use Rattle.am_c_handle.specs.Ownership.{IsSame};
ghost use Rattle.am_replica_waits.specs.declared.waits.Waits.{Waits as WaitsState};
ghost use Rattle.am_c_replica.specs.Rows.{waits_code};

use am_c_handle::Held;
use am_replica_waits::Waits;
use std::alloc::Global;
use std::marker::Model;
use std::mem::replace;

/// Those that wait as C holds them: `tvk_waits` of the header. What it owns is known by `held`.
#[repr(C)]
pub struct WaitsHandle {
    at: *mut u8,
    alloc: Global,
    pub ghost held: { Maybe WaitsState } by { coded_option waits_code },
}

impl Model for WaitsHandle {
    ghost use Rattle.am_c_handle.specs.Ownership.{held_owns};
    ghost use Rattle.am_c_replica.specs.Rows.{waits_row};

    ghost also_owns = { λ h. held_owns waits_row h.alloc h.at h.held };
}

impl WaitsHandle {
    fn of(held: Held<Waits>) -> WaitsHandle
        ensures { result.held ≡ held.value }
    {
        let Held { at, alloc } = held;
        WaitsHandle {
            at: at as *mut u8,
            alloc,
        }
    }

    fn into_held(self) -> Held<Waits>
        ensures { result.value ≡ self.held }
    {
        let WaitsHandle { at, alloc } = self;
        Held {
            at: at as *mut Waits,
            alloc,
        }
    }

    /// Takes those that wait out, and leaves the handle without one.
    pub(crate) fn take(&mut self, alloc: Global) -> Option<Box<Waits>>
        ensures waits { IsSame (λ b. b.value) result self.old.held }
        ensures closed { self.new.held ≡ Nothing }
    {
        replace(self, WaitsHandle::of(Held::none(alloc)))
            .into_held()
            .into_box()
    }

    /// Puts those that wait after the handle. What was there before is dropped.
    pub(crate) fn put(&mut self, waits: Box<Waits>)
        ensures { self.new.held ≡ Just waits.value }
    {
        let old = replace(self, WaitsHandle::of(Held::of(waits)));
        drop(old.into_held().into_box());
    }
}
