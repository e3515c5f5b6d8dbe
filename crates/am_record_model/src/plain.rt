//! A map that answers operations.

ghost use Rattle.std.specs.Prelude.{◌≡◌, Option, None, Some, false, option_copied, drop, IfOk, OnOk, OnErr};
ghost use Rattle.std.specs.FinMap as map;
ghost use Rattle.am_record.specs.Plain.{answer, draft_after, answers, left, fresh, insert_all, remove_all};
ghost use Rattle.am_record.specs.declared.step.Op.TheVariants.{Insert, Replace, Delete, DeleteRange, Load, Put, Mark};
ghost use Rattle.am_record.specs.declared.step.Op.TheVariants.{Back};
ghost use Rattle.am_record.specs.Refusals.{may_make_run};
ghost use Rattle.am_record_model.specs.Slots.{with_cell};

use crate::log::ChangeLog;
use crate::sorted_records::SortedRecords;
use am_record::{Key, NoMemory, Op, Range, Records, Reply, Value};
use std::alloc::Global;
use std::marker::Model;

/// A map from keys to values, slow and plain, with the maps that Mark saved and Back hasn't gone back to. It knows no
/// locks, limits or refusals. No map is copied: of each change since a mark it keeps what was there before.
pub struct Plain {
    records: SortedRecords,
    log: ChangeLog,
}

// By hand: a crate above then need not prove once more how a plain map is dropped.
impl Drop for Plain {
    fn drop(self) {
        let Plain { records, log } = self;
        drop(records);
        drop(log);
    }
}

impl Model for Plain {
    ghost use Rattle.am_record.specs.Plain.{Draft};
    ghost use Rattle.am_record_model.specs.Code.{draft_code};
    ghost use Rattle.am_record_model.specs.Marks.{draft, IsUndoable};

    ghost Value = { Draft };

    ghost coded = { draft_code };

    ghost view = { λ p. draft p.records p.log };

    ghost invariant = { λ p. IsUndoable p.records p.log };
}

impl Plain {
    /// The map with no records, which takes no memory.
    pub fn new(alloc: Global) -> Self
        ensures { result ≡ fresh map.empty }
    {
        Plain {
            records: SortedRecords::new(alloc),
            log: ChangeLog::new(alloc),
        }
    }

    /// Applies an operation. Want of memory leaves the map as it was, but for a load or a put: then the map is no use.
    pub fn answer(&mut self, op: &Op) -> Result<Reply, NoMemory>
        ensures answer { IfOk result (λ reply. reply ≡ answer op.now self.old) }
        ensures after { OnOk result (self.new ≡ draft_after op.now self.old) }
        ensures err { OnErr result (may_make_run op.now ≡ false → self.new ≡ self.old) }
    {
        match op {
            Op::Get(key) => Ok(self.records.get(*key).map_or(Reply::Absent, Reply::Found)),
            Op::Scan(range, max) => {
                let alloc = self.log.allocator();
                Ok(Reply::Rows(Records::new(self.records.rows(alloc, *range, *max)?)))
            }
            Op::ScanBack(range, max) => {
                let alloc = self.log.allocator();
                Ok(Reply::Rows(Records::new(self.records.rows_back(alloc, *range, *max)?)))
            }
            Op::Insert(key, value) => self.insert(*key, *value),
            Op::Replace(key, value) => self.replace(*key, *value),
            Op::Set(key, value) => {
                self.set(*key, Some(*value))?;
                Ok(Reply::Done)
            }
            Op::Delete(key) => self.delete(*key),
            Op::DeleteRange(range, max) => self.delete_range(*range, *max),
            Op::Load(pairs) => self.load(pairs),
            Op::Put(pairs) => self.put(pairs),
            Op::Lock(_) => Ok(Reply::Done),
            Op::Mark => self.mark(),
            Op::Back => Ok(self.back()),
        }
    }

    /// The value under the key, where it stands: what a Get is answered.
    pub fn value(&self, key: &Key) -> Option<&Value>
        ensures { option_copied result ≡ map.get self.now.map key.now }
    {
        self.records.value(key)
    }

    fn insert(&mut self, key: Key, value: Value) -> Result<Reply, NoMemory>
        ensures answer { IfOk result (λ reply. reply ≡ answer (Insert key value) self.old) }
        ensures after { OnOk result (self.new ≡ draft_after (Insert key value) self.old) }
        ensures err { OnErr result (self.new ≡ self.old) }
    {
        if self.log.has_mark() {
            return self.insert_noted(key, value);
        }
        if self.records.add(key, value)? {
            Ok(Reply::Done)
        } else {
            Ok(Reply::Exists(key))
        }
    }

    fn insert_noted(&mut self, key: Key, value: Value) -> Result<Reply, NoMemory>
        ensures answer { IfOk result (λ reply. reply ≡ answer (Insert key value) self.old) }
        ensures after { OnOk result (self.new ≡ draft_after (Insert key value) self.old) }
        ensures err { OnErr result (self.new ≡ self.old) }
    {
        if self.records.get(key).is_some() {
            return Ok(Reply::Exists(key));
        }
        self.set_noted(key, Some(value))?;
        Ok(Reply::Done)
    }

    fn replace(&mut self, key: Key, value: Value) -> Result<Reply, NoMemory>
        ensures answer { IfOk result (λ reply. reply ≡ answer (Replace key value) self.old) }
        ensures after { OnOk result (self.new ≡ draft_after (Replace key value) self.old) }
        ensures err { OnErr result (self.new ≡ self.old) }
    {
        if self.log.has_mark() {
            return self.replace_noted(key, value);
        }
        if self.records.replace(key, value) {
            Ok(Reply::Done)
        } else {
            Ok(Reply::Missing)
        }
    }

    fn replace_noted(&mut self, key: Key, value: Value) -> Result<Reply, NoMemory>
        ensures answer { IfOk result (λ reply. reply ≡ answer (Replace key value) self.old) }
        ensures after { OnOk result (self.new ≡ draft_after (Replace key value) self.old) }
        ensures err { OnErr result (self.new ≡ self.old) }
    {
        if self.records.get(key).is_none() {
            return Ok(Reply::Missing);
        }
        self.set_noted(key, Some(value))?;
        Ok(Reply::Done)
    }

    fn delete(&mut self, key: Key) -> Result<Reply, NoMemory>
        ensures answer { IfOk result (λ reply. reply ≡ answer (Delete key) self.old) }
        ensures after { OnOk result (self.new ≡ draft_after (Delete key) self.old) }
        ensures err { OnErr result (self.new ≡ self.old) }
    {
        if self.log.has_mark() {
            return self.delete_noted(key);
        }
        if self.records.take(key) {
            Ok(Reply::Done)
        } else {
            Ok(Reply::Missing)
        }
    }

    fn delete_noted(&mut self, key: Key) -> Result<Reply, NoMemory>
        ensures answer { IfOk result (λ reply. reply ≡ answer (Delete key) self.old) }
        ensures after { OnOk result (self.new ≡ draft_after (Delete key) self.old) }
        ensures err { OnErr result (self.new ≡ self.old) }
    {
        if self.records.get(key).is_none() {
            return Ok(Reply::Missing);
        }
        self.set_noted(key, None)?;
        Ok(Reply::Done)
    }

    // The records are deleted above a mark of their own, so that want of memory goes back to it.
    fn delete_range(&mut self, range: Range, max: u64) -> Result<Reply, NoMemory>
        ensures answer { IfOk result (λ reply. reply ≡ answer (DeleteRange range max) self.old) }
        ensures after { OnOk result (self.new ≡ draft_after (DeleteRange range max) self.old) }
        ensures err { OnErr result (self.new ≡ self.old) }
    {
        let rows = self.records.rows(self.log.allocator(), range, max)?;
        self.mark()?;
        if self.remove_all(rows.as_slice()).is_err() {
            let _ = self.back();
            return Err(NoMemory);
        }
        self.drop_mark();
        Ok(Reply::Deleted(rows.len() as u64))
    }

    // Deletes the records. After want of memory some of them may be there.
    fn remove_all(&mut self, rows: &[(Key, Value)]) -> Result<(), NoMemory>
        ensures ok { OnOk result (self.new.map ≡ remove_all rows.now self.old.map) }
        ensures saved { self.new.saved ≡ self.old.saved }
    {
        for row in rows {
            self.set(row.0, None)?;
        }
        Ok(())
    }

    // Drops the newest saved map.
    fn drop_mark(&mut self)
        ensures map { self.new.map ≡ self.old.map }
        ensures saved { self.new.saved ≡ drop 1 self.old.saved }
    {
        self.log.drop_mark();
    }

    fn load(&mut self, pairs: &Records) -> Result<Reply, NoMemory>
        ensures answer { IfOk result (λ reply. reply ≡ answer (Load pairs.now) self.old) }
        ensures after { OnOk result (self.new ≡ draft_after (Load pairs.now) self.old) }
    {
        if let Some(key) = self.records.least_taken(pairs.as_slice()) {
            return Ok(Reply::Exists(key));
        }
        self.put_all(pairs.as_slice())?;
        Ok(Reply::Done)
    }

    fn put(&mut self, pairs: &Records) -> Result<Reply, NoMemory>
        ensures answer { IfOk result (λ reply. reply ≡ answer (Put pairs.now) self.old) }
        ensures after { OnOk result (self.new ≡ draft_after (Put pairs.now) self.old) }
    {
        self.put_all(pairs.as_slice())?;
        Ok(Reply::Done)
    }

    fn mark(&mut self) -> Result<Reply, NoMemory>
        ensures answer { IfOk result (λ reply. reply ≡ answer Mark self.old) }
        ensures after { OnOk result (self.new ≡ draft_after Mark self.old) }
        ensures err { OnErr result (self.new ≡ self.old) }
    {
        self.log.mark()?;
        Ok(Reply::Done)
    }

    fn back(&mut self) -> Reply
        ensures answer { result ≡ answer Back self.old }
        ensures after { self.new ≡ draft_after Back self.old }
    {
        if self.log.back(&mut self.records) {
            Reply::Done
        } else {
            Reply::NoMark
        }
    }

    /// All records of the map by rising key.
    ///
    /// # Errors
    /// NoMemory, where memory was refused.
    pub fn records(&self, alloc: Global) -> Result<Vec<(Key, Value)>, NoMemory>
        ensures { IfOk result (λ rows. rows.items ≡ map.entries self.now.map) }
    {
        self.records.all(alloc)
    }

    /// Drops the saved maps: the next body begins with none. It takes no memory.
    pub fn forget_saved(&mut self)
        ensures { self.new ≡ fresh self.old.map }
    {
        self.log.forget(&mut self.records);
    }

    // Puts in all pairs, a later one over an earlier one of the same key. After want of memory some of them may be
    // there.
    fn put_all(&mut self, pairs: &[(Key, Value)]) -> Result<(), NoMemory>
        ensures { OnOk result (self.new ≡ record { map = insert_all pairs.now self.old.map; saved = self.old.saved }) }
    {
        for pair in pairs {
            self.set(pair.0, Some(pair.1))?;
        }
        Ok(())
    }

    // Puts a value under the key, or none. Where no mark stands nobody goes back, so nothing is noted.
    fn set(&mut self, key: Key, value: Option<Value>) -> Result<(), NoMemory>
        ensures ok { OnOk result (self.new ≡ record {
          map = with_cell self.old.map key value;
          saved = self.old.saved;
        }) }
        ensures err { OnErr result (self.new ≡ self.old) }
    {
        if self.log.has_mark() {
            return self.set_noted(key, value);
        }
        match value {
            Some(_) => self.records.set(key, value)?,
            None => self.records.remove(key),
        }
        Ok(())
    }

    // The same, with a note of what was there. Its room comes first, so that a refusal leaves all as it was. A deleted
    // record's place stays, so that to go back takes no memory.
    fn set_noted(&mut self, key: Key, value: Option<Value>) -> Result<(), NoMemory>
        ensures ok { OnOk result (self.new ≡ record {
          map = with_cell self.old.map key value;
          saved = self.old.saved;
        }) }
        ensures err { OnErr result (self.new ≡ self.old) }
    {
        self.log.reserve_one()?;
        let before = self.records.slot(key);
        self.records.set(key, value)?;
        self.log.note(key, before);
        Ok(())
    }
}

/// Applies the operations of one body in order, with nothing between, and gives their answers. What an earlier body
/// saved is dropped first, and what this one saved at the end. After want of memory the map is no use.
pub fn alone(alloc: Global, plain: &mut Plain, ops: &[Op]) -> Result<Vec<Reply>, NoMemory>
    ensures answers { IfOk result (λ replies. replies.items ≡ answers ops.now plain.old.map) }
    ensures left { OnOk result (plain.new ≡ fresh (left ops.now plain.old.map)) }
{
    let mut replies = Vec::with_capacity(alloc, ops.len())?;
    plain.forget_saved();
    for op in ops {
        replies.push(plain.answer(op)?)?;
    }
    plain.forget_saved();
    Ok(replies)
}
