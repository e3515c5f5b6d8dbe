//! The ranges that reads asked for.

ghost use Rattle.std.specs.Prelude.{◌≡◌, [], Some, drop, slice_get, IfOk};
ghost use Rattle.am_law_effect.specs.Store.{with_wish};

use am_record::{NoMemory, Range};
use circular_buffer::HeapCircularBuffer;
use std::alloc::Global;
use std::marker::Model;

/// How many wishes are kept.
const MAX_WISHES: usize = 64;

/// The ranges that reads asked for and that may still have to be merged, seen with the oldest first.
/// There are 64 at most.
pub struct Wishes {
    ring: HeapCircularBuffer<Range>,
}

// By hand: a crate above then need not prove once more how a ring of wishes is dropped.
impl Drop for Wishes {
    fn drop(self) {
        let Wishes { ring } = self;
        drop(ring);
    }
}

impl Model for Wishes {
    ghost use Rattle.std.specs.Prelude.{◌≡◌, List};
    ghost use Rattle.std.specs.Coded.{coded_list};
    ghost use Rattle.am_record.specs.Interval.{Interval, interval_code};

    ghost Value = { List Interval };

    ghost coded = { coded_list interval_code };

    ghost view = { λ w. w.ring.items };

    ghost invariant = { λ w. w.ring.capacity ≡ 64 };
}

impl Wishes {
    /// No wishes. The room for all that are ever kept is got here.
    ///
    /// # Errors
    /// NoMemory, where memory was refused.
    pub fn new(alloc: Global) -> Result<Wishes, NoMemory>
        ensures { IfOk result (λ w. w ≡ []) }
    {
        let ring = HeapCircularBuffer::with_capacity(alloc, MAX_WISHES)?;
        Ok(Wishes { ring })
    }

    /// Adds a wish as the newest. Where 64 are there the oldest is lost. Takes no memory.
    pub fn wish(&mut self, range: Range)
        ensures { self.new ≡ with_wish self.old (Some range) }
    {
        self.ring.push_back(range);
    }

    pub(crate) fn oldest(&self) -> Option<Range>
        ensures { result ≡ slice_get self.now 0 }
    {
        self.ring.front().copied()
    }

    pub(crate) fn drop_oldest(&mut self)
        ensures { self.new ≡ drop 1 self.old }
    {
        self.ring.pop_front();
    }
}
