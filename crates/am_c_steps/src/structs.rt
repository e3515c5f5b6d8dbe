//! Structs of the caller's own, one after another.

ghost use Rattle.std.specs.Prelude.{◌≡◌, ◌≤◌, ◌↔◌, ◌⊎◌, ◌+◌, ◌*◌, [], nat_le, length, IsTrue};
ghost use Rattle.std.specs.Prelude.{IsSome, IfSome, OnOk, IfErr, Ok, Err};
ghost use Rattle.am_c_steps.specs.declared.status.Status.TheVariants.{NoMemory};
ghost use Rattle.am_c_steps.specs.AskedSteps.{IsCopied};
ghost use Rattle.am_c_steps.specs.Structs.{struct_key, struct_value, struct_given, structs_given, struct_at, IsLayout};
ghost use Rattle.am_c_steps.specs.Structs.{records_given};

use crate::status::Status;
use crate::text::{key_given, value_given};
use am_record::{Key, MAX_KEY_LEN, MAX_VALUE_LEN, Records, Value};
use am_store_runs::RecordSource;
use std::alloc::Global;
use std::marker::Model;

/// `tvk_layout` of the header: how many bytes a struct has, and which of them are its key and its value.
#[repr(C)]
#[derive(Clone, Copy)]
pub struct Layout {
    pub size: usize,
    pub key_at: usize,
    pub key_length: usize,
    pub value_at: usize,
    pub value_length: usize,
}

impl Layout {
    // The key of a struct, or BadKey where it is too long or doesn't lie within the struct.
    fn key(&self, bytes: &[u8]) -> Result<Key, Status>
        ensures { result ≡ struct_key self.now bytes.now }
    {
        if !lies_within(self.key_at, self.key_length, bytes.len()) {
            return Err(Status::BadKey);
        }
        key_given(&bytes[self.key_at..self.key_at + self.key_length])
    }

    // The value of a struct, or BadValue in the same cases.
    fn value(&self, bytes: &[u8]) -> Result<Value, Status>
        ensures { result ≡ struct_value self.now bytes.now }
    {
        if !lies_within(self.value_at, self.value_length, bytes.len()) {
            return Err(Status::BadValue);
        }
        value_given(&bytes[self.value_at..self.value_at + self.value_length])
    }

    // Both.
    fn pair(&self, bytes: &[u8]) -> Result<(Key, Value), Status>
        ensures { result ≡ struct_given self.now bytes.now }
    {
        Ok((self.key(bytes)?, self.value(bytes)?))
    }

    // Whether a struct has bytes, and in them a key and a value that are no longer than they may be.
    fn is_sound(&self) -> bool
        ensures { IsTrue result ↔ IsLayout self.now }
    {
        self.size > 0
            && self.key_length <= MAX_KEY_LEN
            && self.value_length <= MAX_VALUE_LEN
            && lies_within(self.key_at, self.key_length, self.size)
            && lies_within(self.value_at, self.value_length, self.size)
    }

    // The bytes of the struct at the place.
    pub(crate) fn struct_at<'a>(&self, structs: &'a [u8], at: usize) -> &'a [u8]
        requires { at * self.now.size + self.now.size ≤ length structs.now }
        ensures { result.now ≡ struct_at self.now structs.now at }
    {
        let from = at * self.size;
        &structs[from..from + self.size]
    }
}

// Whether so many bytes from a place on end within the first so many.
fn lies_within(at: usize, length: usize, size: usize) -> bool
    ensures { result ≡ nat_le (at + length) size }
{
    at <= size && length <= size - at
}

/// Structs that all have a key and a value, seen as their records. They are read where they lie.
#[derive(Drop)]
pub struct Structs<'a> {
    pub(crate) bytes: &'a [u8],
    pub(crate) count: usize,
    pub(crate) layout: Layout,
}

impl<'a> Model for Structs<'a> {
    ghost use Rattle.am_record.specs.Records.{Records, records_code};
    ghost use Rattle.am_c_steps.specs.Structs.{AreWholeStructs, records_given, structs_given};

    ghost Value = { Records };

    ghost coded = { records_code };

    ghost view = { λ s. records_given (structs_given s.layout s.bytes.now s.count) };

    ghost invariant = { λ s. AreWholeStructs s.layout s.bytes.now s.count };
}

impl<'a> Structs<'a> {
    ghost use Rattle.am_c_steps.specs.Structs.{AreWholeStructs};

    /// So many structs, where so many stand there whole, and each is sure to have a key and a value.
    pub fn whole(structs: &'a [u8], count: usize, layout: &Layout) -> Option<Structs<'a>>
        ensures some { IsSome result ↔ AreWholeStructs layout.now structs.entry.now count }
        ensures value { IfSome result (λ whole. structs_given layout.now structs.entry.now count ≡ Ok whole) }
    {
        if !layout.is_sound() || count > structs.len() / layout.size {
            return None;
        }
        Some(Structs {
            bytes: structs,
            count,
            layout: *layout,
        })
    }

    /// So many structs that stand there whole.
    pub(crate) fn of_whole(structs: &'a [u8], count: usize, layout: Layout) -> Structs<'a>
        requires { AreWholeStructs layout structs.now count }
        ensures { result ≡ records_given (structs_given layout structs.entry.now count) }
    {
        Structs {
            bytes: structs,
            count,
            layout,
        }
    }
}

impl<'a> RecordSource for Structs<'a> {
    ghost records = { λ records. records };

    fn len(&self) -> usize {
        self.count
    }

    fn key(&self, at: usize) -> Key {
        let Ok(key) = self.layout.key(self.layout.struct_at(self.bytes, at)) else {
            unreachable!()
        };
        key
    }

    fn get(&self, at: usize) -> (Key, Value) {
        let Ok(pair) = self.layout.pair(self.layout.struct_at(self.bytes, at)) else {
            unreachable!()
        };
        pair
    }
}

/// The pairs of so many structs, or what is wrong with the first that has none; or NoMemory.
pub fn structs_asked(
    alloc: Global,
    structs: &[u8],
    count: usize,
    layout: &Layout,
) -> Result<Records, Status>
    ensures { IsCopied (structs_given layout.now structs.now count) result }
{
    let Ok(mut pairs) = Vec::with_capacity(alloc, count) else {
        return Err(Status::NoMemory);
    };
    match add_structs(structs, count, layout, &mut pairs) {
        Ok(()) => Ok(Records::new(pairs)),
        Err(why) => Err(why),
    }
}

// Adds the pairs of the structs.
fn add_structs(
    structs: &[u8],
    count: usize,
    layout: &Layout,
    pairs: &mut Vec<(Key, Value)>,
) -> Result<(), Status>
    requires { pairs.old.items ≡ [] }
    ensures added { OnOk result (structs_given layout.now structs.now count ≡ Ok pairs.new.items) }
    ensures wrong { IfErr result (λ why. (structs_given layout.now structs.now count ≡ Err why) ⊎ (why ≡ NoMemory)) }
{
    let mut rest = structs;
    let mut left = count;
    while left > 0 {
        let (first, behind) = rest.split_at(layout.size.min(rest.len()));
        match layout.pair(first) {
            Ok(pair) => {
                if pairs.push(pair).is_err() {
                    return Err(Status::NoMemory);
                }
            }
            Err(why) => return Err(why),
        }
        rest = behind;
        left -= 1;
    }
    Ok(())
}
