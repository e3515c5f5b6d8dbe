//! Keys, values and records as C holds them: their bytes, zeros after them, and how many there are.

ghost use Rattle.std.specs.Prelude.{◌≡◌, length};
ghost use Rattle.am_c_steps.specs.Texts.{key_given, value_given, range_given, pair_given, key_text, value_text};
ghost use Rattle.am_c_steps.specs.Texts.{text_key, record_as_text};

use crate::status::Status;
use am_record::{Key, MAX_KEY_LEN, MAX_VALUE_LEN, Range, Value};

/// `tvk_key` of the header.
#[repr(C)]
#[derive(Clone, Copy)]
pub struct KeyText {
    pub len: usize,
    pub bytes: [u8; 32],
}

/// `tvk_value` of the header.
#[repr(C)]
#[derive(Clone, Copy)]
pub struct ValueText {
    pub len: usize,
    pub bytes: [u8; 64],
}

/// `tvk_record` of the header.
#[repr(C)]
#[derive(Clone, Copy)]
pub struct Record {
    pub key: KeyText,
    pub value: ValueText,
}

/// The key of the bytes, or BadKey where they are more than 32.
pub(crate) fn key_given(bytes: &[u8]) -> Result<Key, Status>
    ensures { result ≡ key_given bytes.now }
{
    match Key::new(bytes) {
        Some(key) => Ok(key),
        None => Err(Status::BadKey),
    }
}

/// The value of the bytes, or BadValue where they are more than 64.
pub(crate) fn value_given(bytes: &[u8]) -> Result<Value, Status>
    ensures { result ≡ value_given bytes.now }
{
    match Value::new(bytes) {
        Some(value) => Ok(value),
        None => Err(Status::BadValue),
    }
}

/// The range from one key to another, or BadKey, or BadRange where they don't stand in order.
pub fn range_given(lo: &[u8], hi: &[u8]) -> Result<Range, Status>
    ensures { result ≡ range_given lo.now hi.now }
{
    let lo = key_given(lo)?;
    let hi = key_given(hi)?;
    match Range::new(lo, hi) {
        Some(range) => Ok(range),
        None => Err(Status::BadRange),
    }
}

impl KeyText {
    /// The key as C holds it.
    pub fn of(key: &Key) -> KeyText
        ensures { result ≡ key_text key.now }
    {
        KeyText {
            len: key.bytes().len(),
            bytes: key.padded(),
        }
    }

    /// The key, or BadKey where its length is out of bounds.
    pub(crate) fn key(&self) -> Result<Key, Status>
        ensures { result ≡ text_key self.now }
    {
        if self.len > MAX_KEY_LEN {
            return Err(Status::BadKey);
        }
        key_given(&self.bytes[..self.len])
    }
}

impl ValueText {
    /// The value as C holds it.
    pub(crate) fn of(value: &Value) -> ValueText
        ensures { result ≡ value_text value.now }
    {
        ValueText {
            len: value.len(),
            bytes: value.padded(),
        }
    }
}

impl Record {
    /// The record as C holds it.
    pub(crate) fn of(pair: &(Key, Value)) -> Record
        ensures { result ≡ record_as_text pair.now }
    {
        Record {
            key: KeyText::of(&pair.0),
            value: ValueText::of(&pair.1),
        }
    }

    /// The key and the value, or BadKey or BadValue where a length is out of bounds.
    pub(crate) fn pair(&self) -> Result<(Key, Value), Status>
        ensures { result ≡ pair_given self.now }
    {
        if self.key.len > MAX_KEY_LEN {
            return Err(Status::BadKey);
        }
        if self.value.len > MAX_VALUE_LEN {
            return Err(Status::BadValue);
        }
        let key = key_given(&self.key.bytes[..self.key.len])?;
        let value = value_given(&self.value.bytes[..self.value.len])?;
        Ok((key, value))
    }
}
