//! The longest keys and values of a run.

ghost use Rattle.am_record.specs.Limits.{max_value_bytes, max_key_bytes};
ghost use Rattle.std.specs.Prelude.{◌≤◌, ℕ};
ghost use Rattle.am_index_leaf.specs.LeafCode.{KeysFit, ValuesFit};

use am_record::{Key, Value};

/// How many bytes the longest key and the longest value have.
pub(crate) fn longest(pairs: &[(Key, Value)]) -> (usize, usize)
    ensures keys { KeysFit pairs.now result.0 }
    ensures values { ValuesFit pairs.now result.1 }
    ensures least_key { (n : ℕ) → KeysFit pairs.now n → result.0 ≤ n }
    ensures least_value { (n : ℕ) → ValuesFit pairs.now n → result.1 ≤ n }
    ensures key { result.0 ≤ max_key_bytes }
    ensures value { result.1 ≤ max_value_bytes }
{
    let mut key_len = 0;
    let mut value_len = 0;
    for pair in pairs {
        key_len = pair.0.bytes().len().max(key_len);
        value_len = pair.1.len().max(value_len);
    }
    (key_len, value_len)
}
