//! Ranges of keys.

ghost use Rattle.std.specs.Prelude.{◌≡◌, ◌↔◌, IsSome, IfSome, IfNone, true, false};
ghost use Rattle.am_record.specs.Interval.{Interval, IsFrom, key_le, key_greatest, within, encloses, meets, point};

use crate::key::Key;
use crate::limits::MAX_KEY_LEN;
use std::marker::Model;

/// The keys from one to another, both included. It is never empty.
#[derive(Clone, Copy, Debug, PartialEq, Eq)]
pub struct Range {
    lo: Key,
    hi: Key,
}

impl Model for Range {
    ghost use Rattle.std.specs.Prelude.{◌≡◌, true};
    ghost use Rattle.am_record.specs.Interval.{Interval, interval_code, key_le};

    ghost Value = { Interval };

    ghost coded = { interval_code };

    ghost view = { λ r. record { lo = r.lo; hi = r.hi } };

    ghost invariant = { λ r. key_le r.lo r.hi ≡ true };

    ghost inverse = { λ d. record { lo = d.lo; hi = d.hi } };
}

impl Range {
    /// The range, where its ends stand in order.
    pub fn new(lo: Key, hi: Key) -> Option<Range>
        ensures ordered { IsSome result ↔ (key_le lo hi ≡ true) }
        ensures value { IfSome result (λ r. r ≡ record { lo = lo; hi = hi }) }
    {
        if lo <= hi {
            Some(Range { lo, hi })
        } else {
            None
        }
    }

    /// All keys from this one on, up to the longest key of the highest bytes. No key is above that one, so there always
    /// is such a range; the contract says it of keys that are not.
    pub fn all_from(key: Key) -> Option<Range>
        ensures from { IfSome result (IsFrom key) }
        ensures none { IfNone result (key_le key key_greatest ≡ false) }
    {
        Range::new(key, Key::new(&[u8::MAX; MAX_KEY_LEN])?)
    }

    /// The range of one key.
    #[tactic(auto, using(crate::specs::Interval::key_le_laws))]
    pub fn point(key: Key) -> Range
        ensures { result ≡ point key }
    {
        Range { lo: key, hi: key }
    }

    /// The least key of the range.
    pub fn lo(&self) -> Key
        ensures value { result ≡ self.now.lo }
        ensures ordered { key_le self.now.lo self.now.hi ≡ true }
    {
        self.lo
    }

    /// The greatest key of the range.
    pub fn hi(&self) -> Key
        ensures value { result ≡ self.now.hi }
        ensures ordered { key_le self.now.lo self.now.hi ≡ true }
    {
        self.hi
    }

    /// Whether the key lies in the range.
    pub fn contains(&self, key: Key) -> bool
        ensures { result ≡ within self.now key }
    {
        self.lo <= key && key <= self.hi
    }

    /// Whether the whole of the other range lies in this one.
    pub fn encloses(&self, other: &Range) -> bool
        ensures { result ≡ encloses self.now other.now }
    {
        self.lo <= other.lo && other.hi <= self.hi
    }

    /// Whether the ranges have a key in common.
    pub fn meets(&self, other: &Range) -> bool
        ensures { result ≡ meets self.now other.now }
    {
        self.lo <= other.hi && other.lo <= self.hi
    }
}
