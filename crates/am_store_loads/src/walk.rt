//! A walk through one partition, from key to higher key.

ghost use Rattle.std.specs.Prelude.{◌≡◌, ◌++◌, [], ◌∷◌, List, true, false, None, IfSome, is_some, slice_get};
ghost use Rattle.std.specs.Prelude.{option_copied, take};
ghost use Rattle.am_record.specs.Interval.{key_le};
ghost use Rattle.am_record.specs.declared.entry.Entry.{Entry as TheEntry};
ghost use Rattle.am_index.specs.Entries.{next_from, all_after};

use am_index::{Batch, PartIndex};
use am_index_parts::Parts;
use am_record::{Entry, Key};

// How many steps go down to their entry after a batch that didn't reach the key.
const DESCENTS: u32 = 8;

/// Goes through one partition, from key to higher key. Where the entries lie close together several
/// of them are read at once; where they don't, that would be in vain, and each step goes down from
/// the root.
#[derive(Drop)]
pub(crate) struct Walk {
    part: u32,
    // Entries that follow one another in the partition.
    read: Batch,
    // How many of these are below the keys that were asked for.
    passed: usize,
    // The key of the last entry that was read.
    last: Key,
    // How many steps go down before entries are read ahead again.
    descents: u32,
}

impl Walk {
    ghost use Rattle.am_store_loads.specs.Walk.{IsWalkFrom};

    /// A walk that is yet to begin.
    pub(crate) fn new() -> Walk {
        Walk {
            part: 0,
            read: Batch::new(),
            passed: 0,
            last: Key::least(),
            descents: 0,
        }
    }

    /// Begins at an entry, in its partition.
    pub(crate) fn begin(&mut self, entry: &Entry)
        ensures part { self.new.part ≡ entry.now.part }
        ensures read { self.new.read ≡ entry.now ∷ [] }
        ensures passed { self.new.passed ≡ 0 }
        ensures last { self.new.last ≡ entry.now.key }
        ensures descents { self.new.descents ≡ 0 }
    {
        self.part = entry.part;
        self.descents = 0;
        self.stand_at(entry);
    }

    /// The entry to which the walk has come, or none at the partition's end.
    pub(crate) fn entry(&self) -> Option<&Entry>
        ensures { option_copied result ≡ slice_get self.now.read self.now.passed }
    {
        self.read.entries().get(self.passed)
    }

    /// Goes on to the first entry of the partition at or above the key. From then on no lower key may
    /// be asked for.
    pub(crate) fn go_to<I: PartIndex + Drop>(&mut self, parts: &Parts<I>, key: Key)
        requires { IsWalkFrom parts.now.entries key self.old }
        ensures found { slice_get self.new.read self.new.passed ≡ next_from parts.now.entries self.old.part key }
        ensures part { self.new.part ≡ self.old.part }
        ensures walk { IsWalkFrom parts.now.entries key self.new }
    {
        if self.pass_below(key) {
            return;
        }
        if self.descents > 0 {
            self.descents -= 1;
            self.descend(parts, key);
            return;
        }
        let more = self.read_on(parts);
        if self.pass_below(key) || !more {
            return;
        }
        self.descents = DESCENTS;
        self.descend(parts, key);
    }

    // Passes the entries below the key, of those that were read, and says whether one is left.
    fn pass_below(&mut self, key: Key) -> bool
        ensures walk { (es : List TheEntry) → IsWalkFrom es key self.old → IsWalkFrom es key self.new }
        ensures left { result ≡ is_some (slice_get self.new.read self.new.passed) }
        ensures reached { IfSome (slice_get self.new.read self.new.passed) (λ e. key_le key e.key ≡ true) }
        ensures part { self.new.part ≡ self.old.part }
        ensures last { self.new.last ≡ self.old.last }
        ensures descents { self.new.descents ≡ self.old.descents }
    {
        while let Some(entry) = self.read.entries().get(self.passed) {
            if key <= entry.key {
                return true;
            }
            self.passed += 1;
        }
        false
    }

    // Reads the entries after the last one, as many as a batch has room for, and says whether there
    // may be more.
    fn read_on<I: PartIndex + Drop>(&mut self, parts: &Parts<I>) -> bool
        ensures read { self.new.read ≡ take 16 (all_after parts.now.entries self.old.part self.old.last) }
        ensures goes_on { all_after parts.now.entries self.old.part self.old.last ≡ self.new.read ++
            all_after parts.now.entries self.new.part self.new.last }
        ensures ends { result ≡ false → all_after parts.now.entries self.new.part self.new.last ≡ [] }
        ensures passed { self.new.passed ≡ 0 }
        ensures part { self.new.part ≡ self.old.part }
        ensures descents { self.new.descents ≡ self.old.descents }
    {
        self.read.clear();
        self.passed = 0;
        parts.read_on(self.part, self.last, &mut self.read);
        if let Some(entry) = self.read.entries().last() {
            self.last = entry.key;
        }
        self.read.is_full()
    }

    // Goes down to the first entry at or above the key. All that were read are passed.
    fn descend<I: PartIndex + Drop>(&mut self, parts: &Parts<I>, key: Key)
        requires walk { IsWalkFrom parts.now.entries key self.old }
        requires passed { slice_get self.old.read self.old.passed ≡ None }
        ensures found { slice_get self.new.read self.new.passed ≡ next_from parts.now.entries self.old.part key }
        ensures part { self.new.part ≡ self.old.part }
        ensures walk { IsWalkFrom parts.now.entries key self.new }
        ensures descents { self.new.descents ≡ self.old.descents }
    {
        if let Some(entry) = parts.next_from(self.part, key) {
            self.stand_at(&entry);
        }
    }

    // Takes the entry for the only one that was read.
    fn stand_at(&mut self, entry: &Entry)
        ensures read { self.new.read ≡ entry.now ∷ [] }
        ensures passed { self.new.passed ≡ 0 }
        ensures last { self.new.last ≡ entry.now.key }
        ensures part { self.new.part ≡ self.old.part }
        ensures descents { self.new.descents ≡ self.old.descents }
    {
        self.read.clear();
        self.read.push(*entry);
        self.passed = 0;
        self.last = entry.key;
    }
}
