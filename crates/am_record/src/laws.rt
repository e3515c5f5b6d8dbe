//! What holds of keys, whatever makes them, and what the tests of ranges and modes mean.

ghost use Rattle.std.specs.Prelude.{◌≡◌, ◌↔◌, ℕ, List, ◌<◌, ◌^◌, true};
ghost use Rattle.std.specs.declared.cmp.Ordering.TheVariants.{Less};
ghost use Rattle.std.specs.Ordering.{nat_cmp};
ghost use Rattle.std.specs.Cmp.Lexicographic.{slice_cmp};
ghost use Rattle.am_record.specs.OrderedKey.{OrderedKey, key_cmp, key_of, number_key};
ghost use Rattle.am_record.specs.KeyFront.{key_front};
ghost use Rattle.am_record.specs.Interval.{Interval, IsOrdered, within, meets, encloses};
ghost use Rattle.am_record.specs.Locks.{are_compatible};
ghost use Rattle.am_record.specs.declared.lock.Mode.{Mode};
ghost use Rattle.am_record.specs.declared.lock.Mode.TheVariants.{Shared};

/// Keys are ordered byte by byte, a beginning of a string before the string, and those of numbers as the numbers are.
pub fn keys_are_ordered()
    ensures by_bytes { (a b : List ℕ) → key_cmp (key_of a) (key_of b) ≡ slice_cmp nat_cmp a b }
    ensures by_numbers { (a b : ℕ) → a < 2 ^ 64 → b < 2 ^ 64 →
        key_cmp (number_key a) (number_key b) ≡ nat_cmp a b }
{}

/// Where the number of one key's first eight bytes is below another's, so is the key.
pub fn fronts_follow_keys()
    ensures { (a b : OrderedKey) → key_front a < key_front b → key_cmp a b ≡ Less }
{}

/// Two ranges meet exactly where they have a key in common, and one encloses the other exactly where it
/// has all its keys.
pub fn ranges_are_sets_of_keys()
    ensures meet { (a b : Interval) → IsOrdered a → IsOrdered b → (meets a b ≡ true) ↔
        ((key : OrderedKey) × (within a key ≡ true) × (within b key ≡ true)) }
    ensures enclose { (outer inner : Interval) → IsOrdered inner → (encloses outer inner ≡ true) ↔
        ((key : OrderedKey) → within inner key ≡ true → within outer key ≡ true) }
{}

/// Two modes are compatible exactly where both are shared.
pub fn shared_is_compatible_with_shared()
    ensures { (m n : Mode) → (are_compatible m n ≡ true) ↔ ((m ≡ Shared) × (n ≡ Shared)) }
{}
