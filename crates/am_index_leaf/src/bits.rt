//! The bits of a word: a leaf has one for each entry, which says whether that is a ghost. A node above may have one for
//! each child.

ghost use Rattle.std.specs.Prelude.{◌≡◌, ℕ, ◌/◌, ◌%◌, ◌^◌, ◌<◌, ◌≤◌, false, IfSome, IfNone};
ghost use Rattle.am_index_leaf.specs.Bits.{has_bit, IsNextBit, inserted_bit, removed_bit, changed_bit};

/// The bit at the index.
pub fn has_bit(word: u32, at: usize) -> bool
    requires { at < 32 }
    ensures { result ≡ has_bit word at }
{
    (word >> at) % 2 == 1
}

/// The index of the first set bit from the one that is given on.
pub fn next_bit(word: u32, from: usize) -> Option<usize>
    requires { from ≤ 32 }
    ensures first { IfSome result (λ at. IsNextBit word from at) }
    ensures none { IfNone result ((k : ℕ) → from ≤ k → has_bit word k ≡ false) }
{
    let left = u64::from(word) >> from;
    if left == 0 {
        return None;
    }
    Some(from + left.trailing_zeros() as usize)
}

/// One more bit at the index; those from there on move up.
pub fn insert_bit(word: u32, at: usize, is_set: bool) -> u32
    requires in_range { at < 32 }
    requires room { word < 2 ^ 31 }
    ensures { result ≡ inserted_bit word at is_set }
{
    let bit = 1u64 << at;
    let word = u64::from(word);
    let above = 2 * (word / bit) + u64::from(is_set);
    (word % bit + bit * above) as u32
}

/// Takes the bit at the index out; those above it move down.
pub fn remove_bit(word: u32, at: usize) -> u32
    requires { at < 32 }
    ensures { result ≡ removed_bit word at }
{
    let bit = 1u64 << at;
    let word = u64::from(word);
    (word % bit + bit * (word / bit / 2)) as u32
}

/// Writes over the bit at the index.
pub fn change_bit(word: u32, at: usize, is_set: bool) -> u32
    requires { at < 32 }
    ensures { result ≡ changed_bit word at is_set }
{
    let bit = 1u64 << at;
    let word = u64::from(word);
    let above = 2 * (word / bit / 2) + u64::from(is_set);
    (word % bit + bit * above) as u32
}

/// The bits below the index, and those from there on.
pub(crate) fn split_bits(word: u32, at: usize) -> (u32, u32)
    requires { at ≤ 32 }
    ensures below { result.0 ≡ word % 2 ^ at }
    ensures above { result.1 ≡ word / 2 ^ at }
{
    let bit = 1u64 << at;
    let word = u64::from(word);
    ((word % bit) as u32, (word / bit) as u32)
}
