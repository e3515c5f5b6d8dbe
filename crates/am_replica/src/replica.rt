//! Replicas.

ghost use Rattle.std.specs.Prelude.{◌≡◌, ◌+◌, ◌<◌, ◌^◌, length, IfOk, OnOk};
ghost use Rattle.am_replica.specs.Ordered.{Ordered, verdict, outcome, after_block, outcomes, after_blocks, verdicts};

use crate::block::{Block, Outcome, is_same};
use crate::machine::{Digest, Machine};
use am_record::NoMemory;
use std::alloc::Global;

/// A store, and how many of the log's blocks committed.
#[derive(Drop)]
pub struct Replica<M: Machine + Drop, D: Digest + Drop> {
    pub machine: M,
    pub digest: D,
    pub commits: u64,
}

impl<M: Machine + Drop, D: Digest + Drop> Replica<M, D> {
    /// Takes a block in its turn.
    ///
    /// # Errors
    /// NoMemory, where memory was refused: the replica ends.
    pub fn apply(&mut self, block: &Block) -> Result<Outcome, NoMemory>
        requires idle { M.idle self.old.machine }
        requires countable { self.old.commits + 1 < 2 ^ 64 }
        ensures outcome { IfOk result (λ o. verdict o ≡
            outcome D.digest_of block.now (record { map = M.map self.old.machine; commits = self.old.commits })) }
        ensures after { OnOk result ((record { map = M.map self.new.machine; commits = self.new.commits }) ≡
            after_block D.digest_of block.now (record { map = M.map self.old.machine; commits = self.old.commits })) }
        ensures idle { OnOk result (M.idle self.new.machine) }
    {
        let replies = self.machine.run(&block.ops)?;
        let told = block.told.min(replies.len());
        let sum = self.digest.digest(&replies[..told])?;
        if !is_same(&sum, &block.digest) {
            self.machine.abort()?;
            return Ok(Outcome::Conflict);
        }
        self.machine.commit()?;
        self.commits += 1;
        Ok(Outcome::Committed(self.commits, replies))
    }

    /// Takes blocks in their order. Whoever takes the same blocks from the same records on tells the same of each.
    ///
    /// # Errors
    /// NoMemory, where memory was refused: the replica ends.
    pub fn apply_all(&mut self, alloc: Global, blocks: &[Block]) -> Result<Vec<Outcome>, NoMemory>
        requires idle { M.idle self.old.machine }
        requires countable { self.old.commits + length blocks.now < 2 ^ 64 }
        ensures outcomes { IfOk result (λ told. verdicts told.items ≡
            outcomes D.digest_of blocks.now (record { map = M.map self.old.machine; commits = self.old.commits })) }
        ensures after { OnOk result ((record { map = M.map self.new.machine; commits = self.new.commits }) ≡
            after_blocks D.digest_of blocks.now (record { map = M.map self.old.machine; commits = self.old.commits })) }
        ensures idle { OnOk result (M.idle self.new.machine) }
    {
        let mut told = Vec::with_capacity(alloc, blocks.len())?;
        for block in blocks {
            told.push(self.apply(block)?)?;
        }
        Ok(told)
    }
}
