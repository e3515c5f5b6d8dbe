//! Values of records.

ghost use Rattle.std.specs.Prelude.{◌≡◌, ◌↔◌, ◌≤◌, IsSome, IfSome, length};
ghost use Rattle.am_record.specs.Limits.{max_value_bytes};
ghost use Rattle.am_record.specs.PaddedBytes.{zero_filled};

use crate::limits::{MAX_VALUE_LEN, SHORT_LEN};
use std::marker::Model;

/// At most 64 bytes. The bytes past its length are zero, so equal values are equal byte by byte.
#[derive(Clone, Copy, Debug, PartialEq, Eq)]
pub struct Value {
    bytes: [u8; 64],
    len: u32,
}

impl Model for Value {
    ghost use Rattle.std.specs.Prelude.{ℕ, List, take, length};
    ghost use Rattle.am_record.specs.PaddedBytes.{IsPadded, zero_filled};
    ghost use Rattle.am_record.specs.Limits.{max_value_bytes};

    ghost Value = { List ℕ };

    ghost view = { λ v. take v.len v.bytes };

    ghost invariant = { λ v. IsPadded max_value_bytes v.bytes v.len };

    ghost inverse = { λ xs. record { bytes = zero_filled max_value_bytes xs; len = length xs } };

    ghost use Rattle.am_record.specs.ValueFields.{fields_of-view};

    ghost inverse_ok = { λ a h. fields_of-view a h };
}

impl Value {
    /// The value of the bytes, where they are at most 64.
    pub fn new(bytes: &[u8]) -> Option<Value>
        ensures short { IsSome result ↔ (length bytes.now ≤ max_value_bytes) }
        ensures value { IfSome result (λ v. v ≡ bytes.now) }
    {
        let len = bytes.len();
        if len > MAX_VALUE_LEN {
            return None;
        }
        let mut all = [0; 64];
        all[..len].copy_from_slice(bytes);
        Some(Value {
            bytes: all,
            len: len as u32,
        })
    }

    /// The bytes.
    pub fn bytes(&self) -> &[u8]
        ensures all { result.now ≡ self.now }
        ensures short { length self.now ≤ max_value_bytes }
    {
        &self.bytes[..self.len as usize]
    }
}

/// A value of at most 16 bytes, for where many stand side by side. The bytes past its length are zero.
#[derive(Clone, Copy, Debug)]
pub struct ShortValue {
    bytes: [u8; 16],
    len: u32,
}

impl Model for ShortValue {
    ghost use Rattle.std.specs.Prelude.{ℕ, List, take, length};
    ghost use Rattle.am_record.specs.PaddedBytes.{IsPadded, zero_filled};

    ghost Value = { List ℕ };

    ghost view = { λ v. take v.len v.bytes };

    ghost invariant = { λ v. IsPadded 16 v.bytes v.len };

    ghost inverse = { λ xs. record { bytes = zero_filled 16 xs; len = length xs } };

    ghost use Rattle.am_record.specs.ShortFields.{value_fields_of-view};

    ghost inverse_ok = { λ a h. value_fields_of-view a h };
}

impl Value {
    /// The bytes with zeros after them, 64 in all.
    pub fn padded(&self) -> [u8; 64]
        ensures { result ≡ zero_filled max_value_bytes self.now }
    {
        self.bytes
    }

    /// How many bytes it has.
    pub fn len(&self) -> usize
        ensures all { result ≡ length self.now }
        ensures short { length self.now ≤ max_value_bytes }
    {
        self.len as usize
    }

    /// The same value in room for 16 bytes, where it has no more.
    pub fn short(&self) -> Option<ShortValue>
        ensures short { IsSome result ↔ (length self.now ≤ 16) }
        ensures value { IfSome result (λ v. v ≡ self.now) }
    {
        if self.len as usize > SHORT_LEN {
            return None;
        }
        let mut bytes = [0; 16];
        bytes.copy_from_slice(&self.bytes[..16]);
        Some(ShortValue {
            bytes,
            len: self.len,
        })
    }
}

impl ShortValue {
    /// The same value.
    pub fn value(&self) -> Value
        ensures value { result ≡ self.now }
        ensures short { length self.now ≤ 16 }
    {
        let mut bytes = [0; 64];
        bytes[..16].copy_from_slice(&self.bytes);
        Value {
            bytes,
            len: self.len,
        }
    }
}
