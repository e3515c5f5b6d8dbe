//! Appending a run.

ghost use Rattle.std.specs.Prelude.{◌≡◌, ◌<◌, ◌++◌, OnOk, OnErr};
ghost use Rattle.std.specs.List.{AllByRecursion};
ghost use Rattle.am_index.specs.Entries.{IsRising};
ghost use Rattle.am_index.specs.Runs.{run_entries};
ghost use Rattle.am_index_btree.specs.Rooms.{KeepsRoom};

use crate::node::Subtree;
use crate::portion::Portion;
use am_index::{Hint, RecordSource};
use am_record::{Entry, NoMemory};
use std::alloc::Global;

impl Subtree {
    /// Appends the records of a run, all live, in a partition above those of all entries. One is inserted, which makes
    /// a new leaf where the last one is full; as many of the next ones as its leaf has room for go in after it, by one
    /// walk and with no search; and so on. Where memory is refused, those that went in are taken out again, the newest
    /// first.
    pub(crate) fn append<S: RecordSource>(
        &mut self,
        alloc: Global,
        part: u32,
        records: &S,
    ) -> Result<(), NoMemory>
        requires above { AllByRecursion (λ e. e.part < part) self.old.entries }
        requires rising { IsRising (run_entries part (S.records records.now)) }
        ensures ok { OnOk result (self.new.entries ≡ self.old.entries ++ run_entries part (S.records records.now)) }
        ensures err { OnErr result (self.new.entries ≡ self.old.entries) }
        ensures rooms { KeepsRoom self.old self.new }
    {
        // Read here, the node's invariant is known before it is changed.
        let _ = &self.node;
        let count = records.len();
        let mut portion = Portion::new();
        let mut added = 0;
        'put: while added < count {
            let (key, value) = records.get(added);
            let entry = Entry {
                part,
                key,
                value,
                is_ghost: false,
            };
            if self.insert(alloc, &entry, Hint::none()).is_err() {
                break;
            }
            added += 1;
            added += self.fill_last(alloc, part, records, added, &mut portion);
        }
        if added == count {
            return Ok(());
        }
        'take: while added > 0 {
            added -= 1;
            self.remove(part, records.key(added), 1);
        }
        self.collapse();
        Err(NoMemory)
    }
}
