//! Keys. What a key is made of is known here alone: everybody else has their order.

ghost use Rattle.std.specs.Prelude.{◌≡◌, ◌↔◌, ◌+◌, ◌≤◌, IsSome, IfSome, length};
ghost use Rattle.am_record.specs.Limits.{max_key_bytes};
ghost use Rattle.am_record.specs.KeyFront.{key_front};
ghost use Rattle.am_record.specs.KeyMix.{mix_in, key_mix};
ghost use Rattle.am_record.specs.KeyNumber.{key_number};
ghost use Rattle.am_record.specs.KeyWords.{word_at, key_words, AreBytes};
ghost use Rattle.am_record.specs.OrderedKey.{key_of, bytes_of, number_key, key_least, IsLeast};
ghost use Rattle.am_record.specs.PaddedBytes.{zero_filled};

use crate::hash_key::HashKey;
use crate::limits::{MAX_KEY_LEN, SHORT_LEN};
use std::cmp::Ordering;
use std::hash::{Hash, Hasher};
use std::marker::Model;

/// The key of a record: at most 32 bytes, compared byte by byte, a beginning of a string before the string. The bytes
/// past its length are zero.
#[derive(Clone, Copy, Debug)]
pub struct Key {
    bytes: [u8; 32],
    // As wide as a word that memory is copied by: an entry has no odd bytes then.
    len: u32,
}

impl Model for Key {
    ghost use Rattle.std.specs.Prelude.{take, length};
    ghost use Rattle.am_record.specs.OrderedKey.{OrderedKey, key_code, key_of, bytes_of};
    ghost use Rattle.am_record.specs.PaddedBytes.{IsPadded};
    ghost use Rattle.am_record.specs.Limits.{max_key_bytes};

    ghost Value = { OrderedKey };

    ghost coded = { key_code };

    ghost use Rattle.am_record.specs.KeyFields.{padded, fields_of-view};

    ghost view = { λ k. key_of (take k.len k.bytes) };

    ghost invariant = { λ k. IsPadded max_key_bytes k.bytes k.len };

    ghost inverse = { λ k. record { bytes = padded (bytes_of k); len = length (bytes_of k) } };

    ghost inverse_ok = { λ a h. fields_of-view a h };
}

/// A key of at most 16 bytes, for where many stand side by side. The bytes past its length are zero.
#[derive(Clone, Copy, Debug)]
pub struct ShortKey {
    bytes: [u8; 16],
    len: u32,
}

impl Model for ShortKey {
    ghost use Rattle.std.specs.Prelude.{take, length};
    ghost use Rattle.am_record.specs.OrderedKey.{OrderedKey, key_code, key_of, bytes_of};
    ghost use Rattle.am_record.specs.PaddedBytes.{IsPadded};

    ghost Value = { OrderedKey };

    ghost coded = { key_code };

    ghost use Rattle.am_record.specs.ShortKeyFields.{padded_short, key_fields_of-view};

    ghost view = { λ k. key_of (take k.len k.bytes) };

    ghost invariant = { λ k. IsPadded 16 k.bytes k.len };

    ghost inverse = { λ k. record { bytes = padded_short (bytes_of k); len = length (bytes_of k) } };

    ghost inverse_ok = { λ a h. key_fields_of-view a h };
}

impl ShortKey {
    /// The same key.
    pub fn key(&self) -> Key
        ensures value { result ≡ self.now }
        ensures short { length (bytes_of self.now) ≤ 16 }
    {
        let mut bytes = [0; 32];
        bytes[..16].copy_from_slice(&self.bytes);
        Key {
            bytes,
            len: self.len,
        }
    }

    /// The first eight bytes as a number, as `Key::front` has them.
    pub fn front(&self) -> u64
        ensures { result ≡ key_front self.now }
    {
        word(&self.bytes, 0)
    }
}

impl Key {
    /// The same key in room for 16 bytes, where it has no more.
    pub fn short(&self) -> Option<ShortKey>
        ensures short { IsSome result ↔ (length (bytes_of self.now) ≤ 16) }
        ensures value { IfSome result (λ k. k ≡ self.now) }
    {
        if self.len as usize > SHORT_LEN {
            return None;
        }
        let mut bytes = [0; 16];
        bytes.copy_from_slice(&self.bytes[..16]);
        Some(ShortKey {
            bytes,
            len: self.len,
        })
    }

    /// The key of the bytes, where they are at most 32.
    pub fn new(bytes: &[u8]) -> Option<Self>
        ensures short { IsSome result ↔ (length bytes.now ≤ max_key_bytes) }
        ensures value { IfSome result (λ k. k ≡ key_of bytes.now) }
    {
        let len = bytes.len();
        if len > MAX_KEY_LEN {
            return None;
        }
        let mut all = [0; 32];
        all[..len].copy_from_slice(bytes);
        Some(Key {
            bytes: all,
            len: len as u32,
        })
    }

    /// The key of a number: its eight bytes, the highest first, so that keys of numbers are ordered as the numbers are.
    #[tactic(auto, unfolding(crate::specs::OrderedKey::number_key))]
    pub fn of_u64(number: u64) -> Self
        ensures { result ≡ number_key number }
    {
        let Some(key) = Key::new(&number.to_be_bytes()) else {
            unreachable!()
        };
        key
    }

    /// The bytes.
    pub fn bytes(&self) -> &[u8]
        ensures all { result.now ≡ bytes_of self.now }
        ensures short { length (bytes_of self.now) ≤ max_key_bytes }
    {
        &self.bytes[..self.len as usize]
    }

    /// The bytes with zeros after them, 32 in all.
    pub fn padded(&self) -> [u8; 32]
        ensures { result ≡ zero_filled max_key_bytes (bytes_of self.now) }
    {
        self.bytes
    }

    /// The first eight bytes as a number, the first of them the highest, with zeros after a shorter key. Where it is
    /// below another key's, so is the key (`fronts_follow_keys`); where they are equal, it says nothing.
    pub fn front(&self) -> u64
        ensures { result ≡ key_front self.now }
    {
        word(&self.bytes, 0)
    }

    /// A number that looks drawn at random, the same for equal keys. The key's words are mixed in one after another by
    /// SplitMix64's multiplier (Steele, Lea and Flood, 2014). It has no secret: keys can be chosen that meet in a
    /// number.
    pub fn mixed(&self) -> u64
        ensures { result ≡ key_mix self.now }
    {
        let words = words(&self.bytes);
        let front = mix(mix(u64::from(self.len), words[0]), words[1]);
        mix(mix(front, words[2]), words[3])
    }

    /// A number that looks drawn at random to whoever doesn't know the hash key, the same for equal keys. The key's
    /// words are folded into one another by multiplication to 128 bits (as in Wang Yi's wyhash, 2019), and its length.
    pub fn number(&self, hash: HashKey) -> u64
        ensures { result ≡ key_number hash self.now }
    {
        let words = words(&self.bytes);
        let front = hash.fold_in(hash.fold_in(words[0], words[1]), words[2]);
        hash.fold_in(hash.fold_in(front, words[3]), u64::from(self.len))
    }

    /// The least key, the empty string, where walks over a partition begin.
    #[tactic(auto, using(crate::specs::OrderedKey::least_lemmas))]
    pub fn least() -> Self
        ensures value { result ≡ key_least }
        ensures least { IsLeast result }
    {
        Key {
            bytes: [0; 32],
            len: 0,
        }
    }
}

// The eight bytes from `at` on as a number, the first of them the highest.
fn word(bytes: &[u8], at: usize) -> u64
    requires { at + 8 ≤ length bytes.now }
    ensures value { result ≡ word_at bytes.now at }
    ensures bytes { AreBytes bytes.now }
{
    u64::from_be_bytes([
        bytes[at],
        bytes[at + 1],
        bytes[at + 2],
        bytes[at + 3],
        bytes[at + 4],
        bytes[at + 5],
        bytes[at + 6],
        bytes[at + 7],
    ])
}

// Padded bytes compare as these numbers do, four steps in place of 32.
fn words(bytes: &[u8; 32]) -> [u64; 4]
    ensures value { result ≡ key_words bytes.now }
    ensures bytes { AreBytes bytes.now }
    ensures whole { length bytes.now ≡ 32 }
{
    [
        word(bytes, 0),
        word(bytes, 8),
        word(bytes, 16),
        word(bytes, 24),
    ]
}

// A number with a word mixed into it.
#[tactic(auto, unfolding(crate::specs::KeyMix::mix_in))]
fn mix(number: u64, word: u64) -> u64
    ensures { result ≡ mix_in number word }
{
    let mixed = (number ^ word).wrapping_mul(0xBF58_476D_1CE4_E5B9);
    mixed ^ (mixed >> 32)
}

impl PartialEq for Key {
    ghost use Rattle.std.specs.Ordering.{eq_by_cmp};
    ghost use Rattle.std.specs.Cmp.{partial_equiv_from_equiv, eq_by_cmp_equiv};
    ghost use Rattle.am_record.specs.OrderedKey.{key_cmp, key_cmp-total};

    ghost eq = { eq_by_cmp key_cmp };

    ghost laws = { partial_equiv_from_equiv (eq_by_cmp_equiv key_cmp-total) };

    fn eq(&self, other: &Key) -> bool {
        self.cmp(other).is_eq()
    }
}

impl Eq for Key {
    ghost use Rattle.std.specs.Cmp.{eq_by_cmp_equiv};
    ghost use Rattle.am_record.specs.OrderedKey.{key_cmp-total};

    ghost laws = { eq_by_cmp_equiv key_cmp-total };
}

impl PartialOrd for Key {
    ghost use Rattle.std.specs.Prelude.{Some, refl};
    ghost use Rattle.std.specs.Cmp.{po};
    ghost use Rattle.am_record.specs.OrderedKey.{key_cmp, key_cmp-total};

    ghost partial_cmp = { λ a b. Some (key_cmp a b) };

    ghost laws = { po key_cmp-total (λ a b. refl) };

    fn partial_cmp(&self, other: &Key) -> Option<Ordering> {
        Some(self.cmp(other))
    }
}

impl Ord for Key {
    ghost use Rattle.std.specs.Prelude.{refl};
    ghost use Rattle.am_record.specs.OrderedKey.{key_cmp, key_cmp-total};

    ghost cmp = { key_cmp };

    ghost total = { key_cmp-total };

    ghost matches_partial_cmp = { λ a b. refl };

    ghost matches_eq = { λ a b. refl };

    fn cmp(&self, other: &Key) -> Ordering {
        words(&self.bytes)
            .cmp(&words(&other.bytes))
            .then(self.len.cmp(&other.len))
    }
}

impl Hash for Key {
    ghost use Rattle.std.proofs.Common.{ap};
    ghost use Rattle.std.specs.Hash as fed;
    ghost use Rattle.am_record.specs.OrderedKey.{bytes_of, key_eq-exact};

    ghost hash_input = { λ k. fed.slice fed.u8 (bytes_of k) };

    ghost respects_eq = { λ a b h. ap (λ k. fed.slice fed.u8 (bytes_of k)) (key_eq-exact a b h) };

    fn hash<H: Hasher>(&self, state: &mut H) {
        self.bytes().hash(state);
    }
}
