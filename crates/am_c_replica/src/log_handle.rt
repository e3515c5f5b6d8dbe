//! What C holds of a log: a pointer, null where there is none. The two functions here that make a handle or reach
//! its pointer are proved by hand (`proofs/log_handle`), and no other code sees it.

ghost use Rattle.std.specs.Prelude.{◌≡◌, Option as Maybe, None as Nothing, Some as Just};
ghost use Rattle.std.specs.Coded.{coded_option};
ghost use Rattle.am_c_handle.specs.Ownership.{IsSame};
ghost use Rattle.am_replica_reader.specs.Reading.{ReaderState, reader_code};

use am_c_handle::Held;
use am_replica_reader::Reader;
use std::alloc::Global;
use std::marker::Model;
use std::mem::replace;

/// A log as C holds it: `tvk_log` of the header. What it owns is known by `held`.
#[repr(C)]
pub struct LogHandle {
    at: *mut u8,
    alloc: Global,
    pub ghost held: { Maybe ReaderState } by { coded_option reader_code },
}

impl Model for LogHandle {
    ghost use Rattle.am_c_handle.specs.Ownership.{held_owns};
    ghost use Rattle.am_c_replica.specs.Rows.{reader_row};

    ghost also_owns = { λ h. held_owns reader_row h.alloc h.at h.held };
}

impl LogHandle {
    fn of(held: Held<Reader>) -> LogHandle
        ensures { result.held ≡ held.value }
    {
        let Held { at, alloc } = held;
        LogHandle {
            at: at as *mut u8,
            alloc,
        }
    }

    fn into_held(self) -> Held<Reader>
        ensures { result.value ≡ self.held }
    {
        let LogHandle { at, alloc } = self;
        Held {
            at: at as *mut Reader,
            alloc,
        }
    }

    /// Takes the reader out, and leaves the handle without one.
    pub(crate) fn take(&mut self, alloc: Global) -> Option<Box<Reader>>
        ensures reader { IsSame (λ b. b.value) result self.old.held }
        ensures closed { self.new.held ≡ Nothing }
    {
        replace(self, LogHandle::of(Held::none(alloc)))
            .into_held()
            .into_box()
    }

    /// Puts a reader after the handle. What was there before is dropped.
    pub(crate) fn put(&mut self, reader: Box<Reader>)
        ensures { self.new.held ≡ Just reader.value }
    {
        let old = replace(self, LogHandle::of(Held::of(reader)));
        drop(old.into_held().into_box());
    }
}
