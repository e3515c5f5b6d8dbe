//! Locks on ranges of keys.

ghost use Rattle.std.specs.Prelude.{◌≡◌};

use crate::key::Key;
use crate::range::Range;

/// How a lock is held.
#[derive(Clone, Copy, Debug, PartialEq, Eq)]
pub enum Mode {
    Shared,
    Exclusive,
}

/// A range of keys, absent ones included, and how it is locked.
#[derive(Clone, Copy, Debug, PartialEq, Eq)]
pub struct Lock {
    pub mode: Mode,
    pub range: Range,
}

impl Mode {
    ghost use Rattle.am_record.specs.Locks.{is_exclusive, are_compatible};

    pub fn is_exclusive(self) -> bool
        ensures { result ≡ is_exclusive self }
    {
        match self {
            Mode::Shared => false,
            Mode::Exclusive => true,
        }
    }

    /// Whether two transactions may hold locks of these modes on one key: shared with shared, and no other pair.
    pub fn is_compatible(self, other: Mode) -> bool
        ensures { result ≡ are_compatible self other }
    {
        match (self, other) {
            (Mode::Shared, Mode::Shared) => true,
            (Mode::Shared, Mode::Exclusive) | (Mode::Exclusive, _) => false,
        }
    }
}

impl Lock {
    ghost use Rattle.am_record.specs.Locks.{covers, conflicts};

    pub fn shared(range: Range) -> Lock
        ensures { result ≡ record { mode = Mode.Shared; range = range } }
    {
        Lock {
            mode: Mode::Shared,
            range,
        }
    }

    pub fn exclusive(range: Range) -> Lock
        ensures { result ≡ record { mode = Mode.Exclusive; range = range } }
    {
        Lock {
            mode: Mode::Exclusive,
            range,
        }
    }

    /// Whether a transaction that holds this lock needs no other for what is asked.
    pub fn covers(&self, asked: &Lock) -> bool
        ensures { result ≡ covers self.now asked.now }
    {
        self.range.encloses(&asked.range)
            && (self.mode.is_exclusive() || !asked.mode.is_exclusive())
    }

    /// Whether the locks can't be held by two transactions at once.
    pub fn conflicts(&self, other: &Lock) -> bool
        ensures { result ≡ conflicts self.now other.now }
    {
        self.range.meets(&other.range) && !self.mode.is_compatible(other.mode)
    }
}

/// A shared lock of the least key: what fills an unused place of a fixed table.
impl Default for Lock {
    ghost use Rattle.am_record.specs.OrderedKey.{key_least};
    ghost use Rattle.am_record.specs.Interval.{point};
    ghost use Rattle.am_record.specs.declared.lock.Mode.TheVariants.{Shared};

    ghost is_default = { λ l. l ≡ record { mode = Shared; range = point key_least } };

    fn default() -> Lock {
        Lock {
            mode: Mode::Shared,
            range: Range::point(Key::least()),
        }
    }
}
