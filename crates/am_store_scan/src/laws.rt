//! Laws of scans, for the proofs of whoever answers them. Their functions do nothing.

ghost use Rattle.std.specs.Prelude.{ℕ, IsTrue};
ghost use Rattle.std.specs.FinMap.{is_sorted};
ghost use Rattle.am_record.specs.OrderedKey.{key_cmp};
ghost use Rattle.am_record.specs.Interval.{Interval};
ghost use Rattle.am_record.specs.Plain.{PlainMap, scan_rows, scan_back_rows};

/// The keys of a scan's rows rise strictly, so none stands twice.
pub fn scans_rise()
    ensures { (range : Interval) (max : ℕ) (m : PlainMap) → IsTrue (is_sorted key_cmp (scan_rows range max m)) }
{}

/// The keys of a scan back fall strictly, so none stands twice.
pub fn scans_back_fall()
    ensures { (range : Interval) (max : ℕ) (m : PlainMap) →
        IsTrue (is_sorted (λ a b. key_cmp b a) (scan_back_rows range max m)) }
{}
