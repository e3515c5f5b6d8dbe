//! How many locks there are of some.

ghost use Rattle.std.specs.Prelude.{◌≡◌, ◌+◌, ◌<◌, ◌≤◌, ◌&&◌, cond};
ghost use Rattle.am_record.specs.Interval.{within};
ghost use Rattle.am_record.specs.Locks.{is_exclusive};

use am_record::{Key, Lock, Mode};

/// How many locks there are, and how many exclusive ones among them. 64 owners have 2^14 locks at most.
#[derive(Clone, Copy)]
pub(crate) struct Count {
    pub(crate) all: u16,
    pub(crate) exclusive: u16,
}

impl Count {
    /// How many don't go with the mode.
    pub(crate) fn clashing(&self, mode: Mode) -> usize
        ensures count { result ≡ cond (is_exclusive mode) self.now.all self.now.exclusive }
        ensures few { result < 65536 }
    {
        let count = if mode.is_exclusive() {
            self.all
        } else {
            self.exclusive
        };
        count as usize
    }

    /// How many, where they are an owner's own, make a lock of the mode needless.
    pub(crate) fn covering(&self, mode: Mode) -> usize
        ensures { result ≡ cond (is_exclusive mode) self.now.exclusive self.now.all }
    {
        let count = if mode.is_exclusive() {
            self.exclusive
        } else {
            self.all
        };
        count as usize
    }

    pub(crate) fn add(&mut self, mode: Mode)
        requires all { self.old.all < 65535 }
        requires exclusive { self.old.exclusive < 65535 }
        ensures all { self.new.all ≡ self.old.all + 1 }
        ensures exclusive { self.new.exclusive ≡ self.old.exclusive + cond (is_exclusive mode) 1 0 }
    {
        self.all += 1;
        self.exclusive += u16::from(mode.is_exclusive());
    }

    /// Counts the lock, where it has the key.
    pub(crate) fn add_at(&mut self, lock: &Lock, key: Key)
        requires all { self.old.all < 65535 }
        requires exclusive { self.old.exclusive < 65535 }
        ensures all { self.new.all ≡ self.old.all + cond (within lock.now.range key) 1 0 }
        ensures exclusive { self.new.exclusive ≡
            self.old.exclusive + cond (is_exclusive lock.now.mode && within lock.now.range key) 1 0 }
    {
        if lock.range.contains(key) {
            self.add(lock.mode);
        }
    }

    pub(crate) fn remove(&mut self, mode: Mode)
        requires all { 1 ≤ self.old.all }
        requires exclusive { cond (is_exclusive mode) 1 0 ≤ self.old.exclusive }
        ensures all { self.new.all + 1 ≡ self.old.all }
        ensures exclusive { self.new.exclusive + cond (is_exclusive mode) 1 0 ≡ self.old.exclusive }
    {
        self.all -= 1;
        self.exclusive -= u16::from(mode.is_exclusive());
    }
}
