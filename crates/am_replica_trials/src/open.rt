//! What stays open in a store between two lines.

ghost use Rattle.std.specs.Prelude.{◌≡◌, ◌⊎◌, ◌≤◌, [], None, length, take, OnOk};

use am_record::NoMemory;
use am_replica::Machine;
use std::alloc::Global;

/// The trial that is open in a store, if one is: the lines whose operations its active transaction was answered, and
/// the digest of the answers.
#[derive(Drop)]
pub struct OpenTrial<R> {
    lines: Vec<u8>,
    pub(crate) digest: Option<R>,
}

impl<R> OpenTrial<R> {
    /// No trial is open.
    pub fn none(alloc: Global) -> OpenTrial<R>
        ensures digest { result.digest ≡ None }
        ensures lines { result.lines.items ≡ [] }
    {
        OpenTrial {
            lines: Vec::new(alloc),
            digest: None,
        }
    }
}

impl<R: Drop> OpenTrial<R> {
    // Takes back what the store's transaction did, unless these are the lines of the trial.
    pub(crate) fn keep_for<M: Machine>(
        &mut self,
        alloc: Global,
        machine: &mut M,
        lines: &[u8],
    ) -> Result<(), NoMemory>
        ensures stands { OnOk result (((self.new ≡ self.old) × (machine.new ≡ machine.old)
            × (self.old.lines.items ≡ lines.now)) ⊎ ((self.new.digest ≡ None) × M.idle machine.new)) }
        ensures first { OnOk result (self.new.lines.items ≡ take (length self.new.lines.items) lines.now) }
        ensures same { OnOk result (M.map machine.new ≡ M.map machine.old) }
    {
        if self.lines.as_slice() == lines {
            return Ok(());
        }
        machine.abort()?;
        *self = OpenTrial::none(alloc);
        Ok(())
    }

    // Says that the lines that go on like its own are its lines.
    pub(crate) fn go_on(&mut self, lines: &[u8]) -> Result<(), NoMemory>
        requires first { self.old.lines.items ≡ take (length self.old.lines.items) lines.now }
        requires fits { length self.old.lines.items ≤ length lines.now }
        ensures lines { OnOk result (self.new.lines.items ≡ lines.now) }
        ensures digest { self.new.digest ≡ self.old.digest }
    {
        let known = self.lines.as_slice().len();
        self.lines.extend_from_slice(&lines[known..])?;
        Ok(())
    }
}
