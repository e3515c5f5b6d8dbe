//! All that clients wait for.

ghost use Rattle.std.specs.Prelude.{◌≡◌};
ghost use Rattle.am_replica_waits.specs.Queues.{new_queue};
ghost use Rattle.am_replica_waits.specs.Ends.{no_ends};

use crate::ends::Ends;
use crate::queue::Queue;
use std::alloc::Global;

/// The blocks that wait, and up to where the replica stands at the log's end.
pub struct Waits {
    pub queue: Queue,
    pub ends: Ends,
}

// By hand: a crate above then need not prove once more how both are dropped.
impl Drop for Waits {
    fn drop(self) {
        let Waits { queue, ends } = self;
        drop(queue);
        drop(ends);
    }
}

impl Waits {
    /// Nobody waits, and nothing is known.
    pub fn new(alloc: Global) -> Waits
        ensures { result ≡ record { queue = new_queue; ends = no_ends } }
    {
        Waits {
            queue: Queue::new(alloc),
            ends: Ends::new(alloc),
        }
    }
}
